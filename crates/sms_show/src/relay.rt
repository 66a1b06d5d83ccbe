//! The fields of relay and connection messages, one a line, and those of the unit inside.

ghost use Rattle.std.specs.Prelude.{◌≡◌, true};
ghost use Rattle.std.specs.List.{list_all};
ghost use Rattle.sms_page.specs.Plain.{is_plain};

use crate::any::{is_memory_available, kind_carried, show_memory_available};
use crate::asked::UnitKind;
use crate::fault::ShowFault;
use crate::parties::Nobody;
use crate::units::{put_centre, show_unit};
use sms_answer::{Layer, Line, Lines, Members, Octet, Printed};
use sms_relay::{CpBodyView, CpView, RpBodyView, RpView, Side};
use std::alloc::Global;

/// What a relay message is, and where it goes.
fn relay_name(message: &RpView<'_>) -> &'static str
    ensures { list_all (is_plain 34) result.now ≡ true }
{
    match (&message.body, message.side) {
        (RpBodyView::Transfer { .. }, Side::FromPhone) => "data from phone",
        (RpBodyView::Transfer { .. }, Side::ToPhone) => "data to phone",
        (RpBodyView::Ack { .. }, Side::FromPhone) => "ack from phone",
        (RpBodyView::Ack { .. }, Side::ToPhone) => "ack to phone",
        (RpBodyView::Fail { .. }, Side::FromPhone) => "error from phone",
        (RpBodyView::Fail { .. }, Side::ToPhone) => "error to phone",
    }
}

/// The kind of unit that a relay message carries.
fn kind_inside(message: &RpView<'_>) -> UnitKind {
    match (&message.body, message.side) {
        (RpBodyView::Transfer { .. }, Side::FromPhone) => UnitKind::Submit,
        (RpBodyView::Transfer { .. }, Side::ToPhone) => UnitKind::Deliver,
        (RpBodyView::Ack { .. }, Side::FromPhone) => UnitKind::DeliverAck,
        (RpBodyView::Ack { .. }, Side::ToPhone) => UnitKind::SubmitAck,
        (RpBodyView::Fail { .. }, Side::FromPhone) => UnitKind::DeliverError,
        (RpBodyView::Fail { .. }, Side::ToPhone) => UnitKind::SubmitError,
    }
}

/// The octets of the unit that a relay message carries, where it carries one.
fn unit_inside<'a>(body: &RpBodyView<'a>) -> Option<&'a [u8]> {
    match body {
        RpBodyView::Transfer { user, .. } => Some(user.as_slice()),
        RpBodyView::Ack { user } | RpBodyView::Fail { user, .. } => {
            user.as_ref().map(|user| user.as_slice())
        }
    }
}

/// The lines of what stands before the unit of a relay message.
fn put_body(lines: &mut Lines, body: &RpBodyView<'_>)
    ensures { lines.new ≡ lines.old }
{
    match body {
        RpBodyView::Transfer { address, .. } => put_centre(lines, "address", address),
        RpBodyView::Ack { .. } => {}
        RpBodyView::Fail {
            cause,
            diagnostic,
            ..
        } => {
            lines.put("cause", *cause);
            if let Some(octet) = diagnostic {
                lines.put("diagnostic", *octet);
            }
        }
    }
}

/// The lines of a relay message without the unit that it carries.
fn put_front(lines: &mut Lines, message: &RpView<'_>)
    ensures { lines.new ≡ lines.old }
{
    lines.put_word("rp", relay_name(message));
    lines.put("reference", Octet(message.reference));
    put_body(lines, &message.body);
    if unit_inside(&message.body).is_none() {
        lines.put("user", Nobody);
    }
}

/// The kind as which the unit of a relay message is read: the one that its first octet tells where
/// any may be inside, and else the one that the message implies.
fn kind_of(message: &RpView<'_>, any: bool, unit: &[u8]) -> UnitKind {
    let implied = kind_inside(message);
    if any {
        kind_carried(message.side, unit, implied)
    } else {
        implied
    }
}

/// Writes the fields of an RP message, and those of the unit that it carries; where any message may
/// stand there, of an RP-SMMA and of any unit too.
pub fn show_rp(alloc: Global, any: bool, octets: &[u8], lines: &mut Lines) -> Result<(), ShowFault>
    ensures { lines.new ≡ lines.old }
{
    if any && is_memory_available(octets) {
        return show_memory_available(octets, lines);
    }
    let (message, used) = RpView::read(octets)?;
    put_front(lines, &message);
    lines.put_rest(octets.len() - used);
    match unit_inside(&message.body) {
        Some(unit) => {
            lines.enter(Layer::Unit);
            show_unit(alloc, kind_of(&message, any, unit), unit, lines)
        }
        None => Ok(()),
    }
}

/// A transaction of the connection: 1 where the message goes to the side that opened it, else 0,
/// and its value.
#[derive(Clone, Copy)]
pub struct TransactionText {
    /// Whether the message goes to the side that opened the transaction (TI flag).
    pub flag: bool,
    /// The transaction value (TI value), 0 to 6.
    pub value: u8,
}

impl Printed for TransactionText {
    fn plain(&self, line: &mut Line) {
        if self.flag {
            line.put_few(b"1 ");
        } else {
            line.put_few(b"0 ");
        }
        line.put_decimal(u64::from(self.value));
    }

    fn json(&self, members: &mut Members) {
        members.open();
        members.name("flag");
        members.flag(self.flag);
        members.number_named("value", u64::from(self.value));
        members.close();
    }
}

/// What a connection message is.
fn connection_name(body: &CpBodyView<'_>) -> &'static str
    ensures { list_all (is_plain 34) result.now ≡ true }
{
    match body {
        CpBodyView::Transfer(_) => "data",
        CpBodyView::Ack => "ack",
        CpBodyView::Fail(_) => "error",
    }
}

/// The lines of a connection message without the relay message that it carries.
fn put_connection(lines: &mut Lines, message: &CpView<'_>)
    ensures { lines.new ≡ lines.old }
{
    let transaction = TransactionText {
        flag: message.flag,
        value: message.value,
    };
    lines.put_word("cp", connection_name(&message.body));
    lines.put("transaction", transaction);
    if let CpBodyView::Fail(cause) = &message.body {
        lines.put("cause", *cause);
    }
}

/// Writes the fields of a CP message, and those of the RP message that it carries.
pub fn show_cp(alloc: Global, any: bool, octets: &[u8], lines: &mut Lines) -> Result<(), ShowFault>
    ensures { lines.new ≡ lines.old }
{
    let (message, used) = CpView::read(octets)?;
    put_connection(lines, &message);
    lines.put_rest(octets.len() - used);
    match &message.body {
        CpBodyView::Transfer(relayed) => {
            lines.enter(Layer::Relay);
            show_rp(alloc, any, relayed.as_slice(), lines)
        }
        CpBodyView::Ack | CpBodyView::Fail(_) => Ok(()),
    }
}
