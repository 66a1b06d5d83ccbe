//! Submissions.

ghost use Rattle.std.specs.Prelude.{◌≡◌, ◌≤◌, length, IfOk};
ghost use Rattle.sms_text.specs.Bits.{AreSeptets};

use crate::again::rewritten;
use crate::deliver::octets_in;
use crate::found::{are, holds, same};
use sms_field::{Address, Stamp, Symbols, Validity};
use sms_text::septets_in;
use sms_tpdu::{Refusal, Submit, SubmitFront, SubmitView, Unit, UnitFault, UnitsView};
use std::alloc::{AllocError, Global};
use std::test::Fail;

/// TP-VP as a row says it.
enum Valid {
    Absent,
    Relative(u8),
    Enhanced([u8; 7]),
    Absolute([u8; 7]),
}

/// A submission as its octets, and what they say.
struct Row {
    octets: &'static [u8],
    reject: bool,
    report: bool,
    reply: bool,
    reference: u8,
    validity: Valid,
    type_of_number: u8,
    plan: u8,
    digits: &'static [u8],
    septets: &'static [u8],
    text: &'static str,
}

static ROWS: [Row; 6] = [
    Row {
        octets: &[
            0x11, 0x00, 0x0B, 0x91, 0x64, 0x07, 0x28, 0x15, 0x53, 0xF8, 0x00, 0x00, 0xAA, 0x0A,
            0xE8, 0x32, 0x9B, 0xFD, 0x46, 0x97, 0xD9, 0xEC, 0x37,
        ],
        reject: false,
        report: false,
        reply: false,
        reference: 0,
        validity: Valid::Relative(170),
        type_of_number: 1,
        plan: 1,
        digits: &[4, 6, 7, 0, 8, 2, 5, 1, 3, 5, 8],
        septets: b"hellohello",
        text: "hellohello",
    },
    // an escape, and the code of the euro in the extension table
    Row {
        octets: &[
            0x01, 0x00, 0x04, 0x91, 0x01, 0x20, 0x00, 0x00, 0x02, 0x9B, 0x32,
        ],
        reject: false,
        report: false,
        reply: false,
        reference: 0,
        validity: Valid::Absent,
        type_of_number: 1,
        plan: 1,
        digits: &[1, 0, 0, 2],
        septets: &[0x1B, 0x65],
        text: "€",
    },
    // a repeat is to be rejected
    Row {
        octets: &[0x05, 0xFF, 0x04, 0x81, 0x01, 0x20, 0x00, 0x00, 0x01, 0x61],
        reject: true,
        report: false,
        reply: false,
        reference: 255,
        validity: Valid::Absent,
        type_of_number: 0,
        plan: 1,
        digits: &[1, 0, 0, 2],
        septets: b"a",
        text: "a",
    },
    // a telephone number with an odd number of digits; the first letter of the alphabet has the code 0
    Row {
        octets: &[0x01, 0x00, 0x03, 0x91, 0x21, 0xF3, 0x00, 0x00, 0x01, 0x00],
        reject: false,
        report: false,
        reply: false,
        reference: 0,
        validity: Valid::Absent,
        type_of_number: 1,
        plan: 1,
        digits: &[1, 2, 3],
        septets: &[0x00],
        text: "@",
    },
    // the enhanced format, a report wanted
    Row {
        octets: &[
            0x29, 0x01, 0x02, 0x81, 0x21, 0x00, 0x00, 1, 2, 3, 4, 5, 6, 7, 0x00,
        ],
        reject: false,
        report: true,
        reply: false,
        reference: 1,
        validity: Valid::Enhanced([1, 2, 3, 4, 5, 6, 7]),
        type_of_number: 0,
        plan: 1,
        digits: &[1, 2],
        septets: &[],
        text: "",
    },
    // a stamp, a reply by the same service centre
    Row {
        octets: &[
            0x99, 0x02, 0x02, 0x81, 0x21, 0x00, 0x00, 0x99, 0x30, 0x92, 0x51, 0x61, 0x95, 0x80,
            0x00,
        ],
        reject: false,
        report: false,
        reply: true,
        reference: 2,
        validity: Valid::Absolute([0x99, 0x30, 0x92, 0x51, 0x61, 0x95, 0x80]),
        type_of_number: 0,
        plan: 1,
        digits: &[1, 2],
        septets: &[],
        text: "",
    },
];

/// The validity that a row says.
fn validity_of(valid: &Valid) -> Validity {
    match valid {
        Valid::Absent => Validity::Absent,
        Valid::Relative(octet) => Validity::Relative(*octet),
        Valid::Enhanced(octets) => Validity::Enhanced(*octets),
        Valid::Absolute(octets) => Validity::Absolute(Stamp::new(*octets)),
    }
}

/// The digits of an address that is a telephone number.
pub fn digits_in(symbols: &Symbols) -> Option<&[u8]> {
    match symbols {
        Symbols::Digits(digits) => Some(digits.as_slice()),
        Symbols::Name(_) => None,
    }
}

/// Whether the fields of a submission are those of a row.
fn has_fields(submit: &Submit, row: &Row) -> bool {
    (submit.reject, submit.report, submit.reply) == (row.reject, row.report, row.reply)
        && (submit.reference, submit.validity) == (row.reference, validity_of(&row.validity))
        && (submit.target.type_of_number, submit.target.plan) == (row.type_of_number, row.plan)
        && digits_in(&submit.target.symbols) == Some(row.digits)
        && octets_in(&submit.user.body) == row.septets
}

/// Whether a submission is read as its row says.
fn is_read(alloc: Global, row: &Row) -> Result<bool, Fail> {
    let (submit, used) = Submit::read(alloc, row.octets)?;
    Ok(used == row.octets.len() && has_fields(&submit, row))
}

/// The text of the submission where it lies.
fn text_of(alloc: Global, octets: &[u8]) -> Result<Option<String>, Fail> {
    let (view, _) = SubmitView::read(octets)?;
    Ok(view.text(alloc)?)
}

/// What is written of the submission that is read, and read again.
fn written(alloc: Global, octets: &[u8]) -> Result<Vec<u8>, Refusal<UnitFault>> {
    let (submit, _) = Submit::read(alloc, octets)?;
    rewritten(alloc, &submit)
}

#[test]
fn reads_and_writes_submissions(rt: HostRuntime) -> Result<(), Fail> {
    for row in ROWS.as_slice() {
        let read = is_read(rt.alloc(), row)?;
        holds(&rt, &row.octets, read);
        let text = text_of(rt.alloc(), row.octets)?;
        same(&rt, &row.octets, &text.as_deref(), &Some(row.text));
        let written = written(rt.alloc(), row.octets)?;
        are(&rt, &row.octets, &written, row.octets);
    }
    Ok(())
}

/// The first submission but its user data.
fn front(alloc: Global) -> Result<SubmitFront, AllocError>
    ensures { IfOk result (λ front. front.dcs ≡ 0) }
{
    let target = Address::from_text(alloc, "+46708251358").map_err(|_| AllocError)?;
    Ok(SubmitFront {
        reject: false,
        validity: Validity::Relative(170),
        report: false,
        reply: false,
        reference: 0,
        target,
        pid: 0,
        dcs: 0,
    })
}

/// The octets of the first submission, of septets that are lent.
#[tactic(auto, unfolding(sms_field::specs::Coding::alphabet_at))]
fn lent(alloc: Global, septets: &[u8]) -> Result<Vec<u8>, AllocError>
    requires few { length septets.now ≤ 160 }
    requires septets { AreSeptets septets.now }
{
    let front = front(alloc)?;
    front.write_with(alloc, None, UnitsView::Gsm(septets))
}

/// The same, in the room of three octets.
#[tactic(auto, unfolding(sms_field::specs::Coding::alphabet_at))]
fn lent_in_room(alloc: Global, septets: &[u8]) -> Result<Vec<u8>, AllocError>
    requires few { length septets.now ≤ 160 }
    requires septets { AreSeptets septets.now }
{
    let front = front(alloc)?;
    let room = Vec::from_slice(alloc, &[1, 2, 3])?;
    front.write_with_in(room, None, UnitsView::Gsm(septets))
}

/// Whether the first submission is written of a text whose octets are its septets, alone and in a
/// room.
fn is_lent(alloc: Global, text: &str) -> Result<bool, AllocError> {
    match septets_in(text) {
        Some(septets) if septets.len() <= 160 => Ok(
            lent(alloc, septets)?.as_slice() == ROWS[0].octets
                && lent_in_room(alloc, septets)?.as_slice() == ROWS[0].octets,
        ),
        _ => Ok(false),
    }
}

#[test]
fn writes_septets_that_are_lent(rt: HostRuntime) -> Result<(), Fail> {
    let lent = is_lent(rt.alloc(), "hellohello")?;
    holds(&rt, &"hellohello", lent);
    Ok(())
}

/// One growth is refused, whichever it is (docs/CONTRIBUTING.md says how).
#[test]
fn writes_septets_that_are_lent_after_a_refused_growth(rt: HostRuntime) -> Result<(), Fail> {
    let lent = match is_lent(rt.alloc(), "hellohello") {
        Ok(lent) => lent,
        Err(_) => is_lent(rt.alloc(), "hellohello")?,
    };
    holds(&rt, &"hellohello", lent);
    Ok(())
}
