//! The room that a text in one piece keeps.

ghost use Rattle.std.specs.Prelude.{IfOk};
ghost use Rattle.sms_text.specs.Bits.{AreSeptets};

use crate::found::{holds, same};
use sms_field::{Address, Stamp};
use sms_join::{Joiner, Offer, Units};
use sms_text::gsm_of;
use sms_tpdu::Septets;
use std::alloc::{AllocError, Global};
use std::process::Abort;
use std::test::Fail;

/// The septets of a text, in a list with room for so many more.
fn list_of(alloc: Global, text: &str, room: usize) -> Result<Vec<u8>, AllocError>
    ensures { IfOk result (λ septets. AreSeptets septets.items) }
{
    let Some(mut septets) = gsm_of(alloc, text)? else {
        return Ok(Vec::new(alloc));
    };
    septets.reserve(room)?;
    Ok(septets)
}

/// The text of a message in one piece whose septets lie in such a list.
fn text_in(alloc: Global, text: &str, room: usize) -> Result<String, Fail> {
    let origin = Address::from_text(alloc, "+1001")?;
    let septets = list_of(alloc, text, room)?;
    let mut joiner = Joiner::new(alloc, 1, 1)?;
    let units = Units::Gsm(Septets::new(septets));
    match joiner.offer(0, &origin, Stamp::new([0; 7]), None, units)? {
        Offer::Finished(found) => Ok(found),
        _ => Err("not finished".into()),
    }
}

/// The text is whole, and keeps room for 160 octets or twice its own at most.
fn keeps_no_more(rt: &impl Abort, alloc: Global, text: &str, room: usize) -> Result<(), Fail> {
    let found = text_in(alloc, text, room)?;
    same(rt, &(text, room), &found.as_str(), &text);
    let most = text.len().saturating_mul(2).max(160);
    holds(
        rt,
        &(text, room, found.capacity()),
        found.capacity() <= most,
    );
    Ok(())
}

/// Texts, and for how many more septets their lists have room.
static LISTS: [(&'static str, usize); 7] = [
    ("", 0),
    ("", 1_048_576),
    ("hello", 0),
    ("hello", 155),
    ("hello", 156),
    ("hello", 1_048_576),
    ("h€llo", 1_048_576),
];

/// A list with room for a thousand texts does not become one.
#[test]
fn keeps_no_more_room_than_is_due(rt: HostRuntime) -> Result<(), Fail> {
    for (text, room) in LISTS.as_slice() {
        keeps_no_more(&rt, rt.alloc(), *text, *room)?;
    }
    Ok(())
}
