//! One growth is refused, whichever it is (docs/CONTRIBUTING.md says how). Three tests ask once,
//! and so fail for each growth that there is; three ask once more, and want the answer that ample
//! memory gives.

ghost use Rattle.std.specs.Prelude.{IfOk};
ghost use Rattle.sms_field.specs.Coding.{alphabet_at};
ghost use Rattle.sms_tpdu.specs.UserData.{FitsAlphabet};

use crate::deliver::octets_in;
use crate::found::holds;
use sms_field::{Address, Symbols, Validity};
use sms_text::gsm_of;
use sms_tpdu::{Body, Deliver, Refusal, Septets, Submit, Unit, UnitFault, UserData};
use std::alloc::{AllocError, Global};
use std::test::Fail;

/// A delivery of 160 septets up to its data.
const DELIVERY: [u8; 19] = [
    0x04, 0x0B, 0xC8, 0x72, 0x38, 0x88, 0x09, 0x00, 0xF1, 0x00, 0x00, 0x99, 0x30, 0x92, 0x51, 0x61,
    0x95, 0x80, 0xA0,
];

/// The digits of its address.
const ORIGIN: [u8; 11] = [2, 7, 8, 3, 8, 8, 9, 0, 0, 0, 1];

/// A submission of 160 septets up to its data.
const SUBMISSION: [u8; 14] = [
    0x11, 0x00, 0x0B, 0x91, 0x64, 0x07, 0x28, 0x15, 0x53, 0xF8, 0x00, 0x00, 0xAA, 0xA0,
];

/// A letter 160 times.
const LETTERS: &str =
    "aaaaaaaaaaaaaaaaaaaaaaaaaaaaaaaaaaaaaaaaaaaaaaaaaaaaaaaaaaaaaaaaaaaaaaaaaaaaaaaa\
    aaaaaaaaaaaaaaaaaaaaaaaaaaaaaaaaaaaaaaaaaaaaaaaaaaaaaaaaaaaaaaaaaaaaaaaaaaaaaaaa";

/// The octets of eight of them.
const EIGHT_LETTERS: [u8; 7] = [0xE1, 0x70, 0x38, 0x1C, 0x0E, 0x87, 0xC3];

/// Whether an address is the telephone number of the delivery.
fn is_origin(address: &Address) -> bool {
    match &address.symbols {
        Symbols::Digits(digits) => digits.as_slice() == ORIGIN.as_slice(),
        Symbols::Name(_) => false,
    }
}

/// Whether the delivery is read, all bits of whose data are set.
fn is_read(alloc: Global) -> Result<bool, Refusal<UnitFault>> {
    let mut octets = [0xFF; 159];
    octets[..19].copy_from_slice(&DELIVERY);
    let (deliver, used) = Deliver::read(alloc, &octets)?;
    Ok(
        used == 159
            && is_origin(&deliver.origin)
            && octets_in(&deliver.user.body) == [0x7F; 160].as_slice(),
    )
}

/// The letters as user data; none where there are too many.
#[tactic(auto, unfolding(sms_field::specs::Coding::alphabet_at))]
fn letters(alloc: Global) -> Result<UserData, AllocError>
    ensures { IfOk result (FitsAlphabet (alphabet_at 0)) }
{
    let septets = match gsm_of(alloc, LETTERS)? {
        Some(septets) if septets.len() <= 160 => septets,
        _ => Vec::new(alloc),
    };
    let body = Body::Septets(Septets::new(septets));
    Ok(UserData { header: None, body })
}

/// Whether octets are those of the submission.
fn is_submission(octets: &[u8]) -> bool {
    match octets.strip_prefix(&SUBMISSION) {
        Some(data) => data.len() == 140
            && data
                .chunks(7)
                .all(|block| block == EIGHT_LETTERS.as_slice()),
        None => false,
    }
}

/// The submission, of a telephone number and a text.
fn submission(alloc: Global) -> Result<Submit, AllocError> {
    let target = Address::from_text(alloc, "+46708251358").map_err(|_| AllocError)?;
    Ok(Submit {
        reject: false,
        validity: Validity::Relative(170),
        report: false,
        reply: false,
        reference: 0,
        target,
        pid: 0,
        dcs: 0,
        user: letters(alloc)?,
    })
}

/// Whether the submission is written.
fn is_written(alloc: Global) -> Result<bool, AllocError> {
    let submit = submission(alloc)?;
    let octets = submit.write(alloc)?;
    Ok(is_submission(&octets))
}

/// Whether the submission is added to an octet, which stays.
fn is_added(alloc: Global) -> Result<bool, AllocError> {
    let submit = submission(alloc)?;
    let mut octets = Vec::from_slice(alloc, &[7])?;
    submit.write_to(&mut octets)?;
    match octets.split_first() {
        Some((first, added)) => Ok(*first == 7 && is_submission(added)),
        None => Ok(false),
    }
}

#[test]
fn reads_160_septets(rt: HostRuntime) -> Result<(), Fail> {
    let read = is_read(rt.alloc())?;
    holds(&rt, &"160 letters", read);
    Ok(())
}

#[test]
fn reads_160_septets_after_a_refused_growth(rt: HostRuntime) -> Result<(), Fail> {
    let read = match is_read(rt.alloc()) {
        Err(Refusal::Memory) => is_read(rt.alloc())?,
        answer => answer?,
    };
    holds(&rt, &"160 letters", read);
    Ok(())
}

#[test]
fn writes_160_letters(rt: HostRuntime) -> Result<(), Fail> {
    let written = is_written(rt.alloc())?;
    holds(&rt, &"160 letters", written);
    Ok(())
}

#[test]
fn writes_160_letters_after_a_refused_growth(rt: HostRuntime) -> Result<(), Fail> {
    let written = match is_written(rt.alloc()) {
        Ok(written) => written,
        Err(_) => is_written(rt.alloc())?,
    };
    holds(&rt, &"160 letters", written);
    Ok(())
}

#[test]
fn adds_160_letters(rt: HostRuntime) -> Result<(), Fail> {
    let added = is_added(rt.alloc())?;
    holds(&rt, &"160 letters", added);
    Ok(())
}

#[test]
fn adds_160_letters_after_a_refused_growth(rt: HostRuntime) -> Result<(), Fail> {
    let added = match is_added(rt.alloc()) {
        Ok(added) => added,
        Err(_) => is_added(rt.alloc())?,
    };
    holds(&rt, &"160 letters", added);
    Ok(())
}
