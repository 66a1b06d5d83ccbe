//! The fields of a unit, one a line.

ghost use Rattle.std.specs.Prelude.{◌≡◌, true};
ghost use Rattle.std.specs.List.{list_all};
ghost use Rattle.sms_page.specs.Plain.{is_plain};

use crate::asked::UnitKind;
use crate::fault::ShowFault;
use crate::headers::{ConcatText, HeaderText};
use crate::parties::{Nobody, Numbering, Party};
use crate::reports::{show_deliver_ack, show_deliver_error, show_submit_ack, show_submit_error};
use crate::status_reports::{show_command, show_status_report};
use crate::times::{StampText, ValidityText};
use sms_answer::{Answer, Escaped, Hexadecimal, Layer, Lines, Octet};
use sms_field::{AddressView, Alphabet, FieldFault, RpAddressView, alphabet_of};
use sms_told::{AddressText, Telephone};
use sms_tpdu::{BodyView, DeliverView, HeaderView, SubmitView, UserDataView};
use std::alloc::{AllocError, Global};

/// The lines of a header: its octets, and the concatenation that it tells.
pub fn put_header(lines: &mut Lines, header: &HeaderView<'_>)
    ensures { lines.new ≡ lines.old }
{
    if !header.as_slice().is_empty() {
        lines.put("header", HeaderText(header));
    }
    if let Some(concat) = header.concat() {
        lines.put("concat", ConcatText(concat));
    }
}

/// The text of user data, under the national language tables that their header tells where these
/// are heeded.
fn text_of(
    alloc: Global,
    lines: &Lines,
    alphabet: Alphabet,
    view: &UserDataView<'_>,
) -> Result<Option<String>, AllocError> {
    if lines.heeds_languages() {
        view.body().text_under(alloc, alphabet, view.tables())
    } else {
        view.body().text(alloc, alphabet)
    }
}

/// The line of a body: its text, or its octets where they are no text.
fn put_body(
    alloc: Global,
    lines: &mut Lines,
    alphabet: Alphabet,
    view: &UserDataView<'_>,
) -> Result<(), ShowFault>
    ensures { lines.new ≡ lines.old }
{
    if let Some(text) = text_of(alloc, lines, alphabet, view)? {
        lines.put("text", Escaped(&text));
    } else if let BodyView::Octets(octets) = view.body() {
        lines.put("data", Hexadecimal(octets));
    }
    Ok(())
}

/// The lines of user data.
pub fn put_user(
    alloc: Global,
    lines: &mut Lines,
    dcs: u8,
    view: &UserDataView<'_>,
) -> Result<(), ShowFault>
    ensures { lines.new ≡ lines.old }
{
    lines.put("length", view.length());
    if let Some(header) = view.header() {
        put_header(lines, header);
    }
    put_body(alloc, lines, alphabet_of(dcs), view)
}

/// The lines of an address, by the name of its party.
pub fn put_party(
    alloc: Global,
    lines: &mut Lines,
    name: &str,
    view: &AddressView<'_>,
) -> Result<(), ShowFault>
    requires { list_all (is_plain 34) name.now ≡ true }
    ensures { lines.new ≡ lines.old }
{
    let text = AddressText::seen(alloc, view)?;
    let numbering = Numbering::seen(view);
    lines.put(name, Party::new(text.as_str(), numbering));
    lines.put_plain("number", numbering);
    Ok(())
}

/// Why octets do not begin with the address of a service centre.
pub fn centre_fault(fault: sms_field::Fault<FieldFault>) -> ShowFault {
    ShowFault::Message(fault.map_reason())
}

/// The line of a service centre's address, by a name.
pub fn put_centre(lines: &mut Lines, name: &str, centre: &Option<RpAddressView<'_>>)
    requires { list_all (is_plain 34) name.now ≡ true }
    ensures { lines.new ≡ lines.old }
{
    match centre {
        Some(address) => {
            let text = Telephone::seen(address.type_of_number(), &address.digits());
            lines.put(
                name,
                Party::new(text.as_str(), Numbering::of_centre(address)),
            );
        }
        None => lines.put(name, Nobody),
    }
}

/// Writes the address of a service centre, and gives the octets after it.
pub fn show_centre<'a>(octets: &'a [u8], lines: &mut Lines) -> Result<&'a [u8], ShowFault>
    ensures { lines.new ≡ lines.old }
{
    lines.begin(Layer::Centre);
    let (centre, used) = RpAddressView::read(octets).map_err(centre_fault)?;
    put_centre(lines, "centre", &centre);
    Ok(&octets[used..])
}

/// The lines of what an SMS-DELIVER has before its address.
fn put_deliver_front(lines: &mut Lines, deliver: &DeliverView<'_>)
    ensures { lines.new ≡ lines.old }
{
    lines.put_word("type", "deliver");
    lines.put("more", Answer(deliver.more));
    lines.put("loop", Answer(deliver.looped));
    lines.put("report", Answer(deliver.report));
    lines.put("reply", Answer(deliver.reply));
}

/// The lines of an SMS-DELIVER.
pub fn put_deliver(
    alloc: Global,
    lines: &mut Lines,
    deliver: &DeliverView<'_>,
) -> Result<(), ShowFault>
    ensures { lines.new ≡ lines.old }
{
    put_deliver_front(lines, deliver);
    put_party(alloc, lines, "from", &deliver.origin)?;
    lines.put("pid", Octet(deliver.pid));
    lines.put("dcs", Octet(deliver.dcs));
    lines.put("stamp", StampText(deliver.stamp));
    put_user(alloc, lines, deliver.dcs, &deliver.user)
}

/// Writes the fields of an SMS-DELIVER.
fn show_deliver(alloc: Global, octets: &[u8], lines: &mut Lines) -> Result<(), ShowFault>
    ensures { lines.new ≡ lines.old }
{
    let (deliver, used) = DeliverView::read(octets)?;
    put_deliver(alloc, lines, &deliver)?;
    lines.put_rest(octets.len() - used);
    Ok(())
}

/// The lines of what an SMS-SUBMIT has before its address.
fn put_submit_front(lines: &mut Lines, submit: &SubmitView<'_>)
    ensures { lines.new ≡ lines.old }
{
    lines.put_word("type", "submit");
    lines.put("reject", Answer(submit.reject));
    lines.put("report", Answer(submit.report));
    lines.put("reply", Answer(submit.reply));
    lines.put("reference", Octet(submit.reference));
}

/// The lines of an SMS-SUBMIT.
pub fn put_submit(
    alloc: Global,
    lines: &mut Lines,
    submit: &SubmitView<'_>,
) -> Result<(), ShowFault>
    ensures { lines.new ≡ lines.old }
{
    put_submit_front(lines, submit);
    put_party(alloc, lines, "to", &submit.target)?;
    lines.put("pid", Octet(submit.pid));
    lines.put("dcs", Octet(submit.dcs));
    lines.put("validity", ValidityText(submit.validity));
    put_user(alloc, lines, submit.dcs, &submit.user)
}

/// Writes the fields of an SMS-SUBMIT.
fn show_submit(alloc: Global, octets: &[u8], lines: &mut Lines) -> Result<(), ShowFault>
    ensures { lines.new ≡ lines.old }
{
    let (submit, used) = SubmitView::read(octets)?;
    put_submit(alloc, lines, &submit)?;
    lines.put_rest(octets.len() - used);
    Ok(())
}

/// Writes the fields of a unit.
pub fn show_unit(
    alloc: Global,
    kind: UnitKind,
    octets: &[u8],
    lines: &mut Lines,
) -> Result<(), ShowFault>
    ensures { lines.new ≡ lines.old }
{
    match kind {
        UnitKind::Deliver => show_deliver(alloc, octets, lines),
        UnitKind::Submit => show_submit(alloc, octets, lines),
        UnitKind::SubmitAck => show_submit_ack(octets, lines),
        UnitKind::SubmitError => show_submit_error(octets, lines),
        UnitKind::DeliverAck => show_deliver_ack(octets, lines),
        UnitKind::DeliverError => show_deliver_error(octets, lines),
        UnitKind::StatusReport => show_status_report(alloc, octets, lines),
        UnitKind::Command => show_command(alloc, octets, lines),
    }
}
