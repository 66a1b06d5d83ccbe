//! The lists of a state.

ghost use Rattle.std.specs.Prelude.{◌≡◌, ◌++◌, ◌∷◌, ◌+◌, [], ℕ, Ok, OnOk, IfOk};
ghost use Rattle.sms_saved.specs.Value.{view_sets};
ghost use Rattle.sms_saved.specs.Fits.{set_keys};
ghost use Rattle.sms_saved.specs.Reading.Fields.{Gives};
ghost use Rattle.sms_saved.specs.Reading.Sets.{set_at, remembered_at};
ghost use Rattle.sms_saved.specs.Reading.Lists.{unless, judged_at, few_judged_at, judge_opening, judge_text, judge_set, judge_key, first_of};

use crate::fault::{StateFault, Stop, halted};
use crate::reading::fields::u64_of;
use crate::reading::sets::{remembered_of, set_of};
use crate::seen::Seen;
use crate::state::{OpenSet, Remembered};
use std::alloc::Global;

/// How many octets an open set takes at least: its key 6, its moment and the number of its opening
/// 8 each, one place 1 and another 9 (docs/SAVED.md).
const SET_MIN: usize = 32;

/// Notes a key that is new. The fault is told of the octets from which it was read on.
#[tactic(auto, unfolding(crate::specs::Reading::Lists::judge_text))]
fn note_new<'a>(seen: &mut Seen<'a>, key: &'a [u8], rest: &[u8]) -> Result<(), Stop>
    ensures read { Gives {Y = ℕ} (λ _. 0) result
        (unless rest.now (judge_text seen.old key.now) (Ok 0)) }
    ensures seen { OnOk result (seen.new ≡ seen.old ++ key.now ∷ []) }
{
    if seen.note(key)? {
        Ok(())
    } else {
        Err(halted(rest, StateFault::Repeated))
    }
}

/// Notes the key of a set with this number, and answers the lowest number of the next.
#[tactic(auto, unfolding(crate::specs::Reading::Lists::judge_opening))]
fn note_set<'a>(
    seen: &mut Seen<'a>,
    numbers: (u64, u64),
    opening: u64,
    key: &'a [u8],
    rest: &[u8],
) -> Result<u64, Stop>
    ensures read { Gives (λ low. low) result (unless rest.now
        (first_of (judge_opening numbers.0 numbers.1 opening) (judge_text seen.old key.now))
        (Ok (opening + 1))) }
    ensures seen { OnOk result (seen.new ≡ seen.old ++ key.now ∷ []) }
{
    let (low, next) = numbers;
    if opening < low || opening >= next {
        return Err(halted(rest, StateFault::OutOfOrder));
    }
    note_new(seen, key, rest)?;
    Ok(opening + 1)
}

/// So many open sets, whose keys are noted. Room is made once, for no more than these octets can
/// be.
fn sets_of<'a>(
    alloc: Global,
    next: u64,
    count: u64,
    seen: &mut Seen<'a>,
    bytes: &'a [u8],
) -> Result<(Vec<OpenSet>, &'a [u8]), Stop>
    requires { seen.old ≡ [] }
    ensures read { Gives (λ x. (view_sets x.0.items, x.1.now)) result
        (judged_at (judge_set next) set_at [] count bytes.now) }
    ensures seen { IfOk result (λ x. seen.new ≡ set_keys (view_sets x.0.items)) }
{
    let room = (count as usize).min(bytes.len() / SET_MIN);
    seen.expect(room)?;
    let mut sets = Vec::with_capacity(alloc, room)?;
    let mut rest = bytes;
    let mut low = 0;
    for _ in 0..count {
        let (set, key, after) = set_of(alloc, rest)?;
        low = note_set(seen, (low, next), set.opening, key, rest)?;
        sets.push(set)?;
        rest = after;
    }
    Ok((sets, rest))
}

/// So many remembered keys, which are noted.
fn keys_of<'a>(
    alloc: Global,
    count: u64,
    seen: &mut Seen<'a>,
    bytes: &'a [u8],
) -> Result<(Vec<Remembered>, &'a [u8]), Stop>
    ensures { Gives (λ x. (x.0.items, x.1.now)) result
        (judged_at (judge_key seen.old) remembered_at [] count bytes.now) }
{
    let mut keys = Vec::new(alloc);
    let mut rest = bytes;
    for _ in 0..count {
        let (remembered, key, after) = remembered_of(rest)?;
        note_new(seen, key, rest)?;
        keys.push(remembered)?;
        rest = after;
    }
    Ok((keys, rest))
}

/// Open sets behind their number, which is within a limit.
#[tactic(auto, unfolding(crate::specs::Reading::Lists::few_judged_at))]
pub(crate) fn few_sets_of<'a>(
    alloc: Global,
    most: u64,
    next: u64,
    seen: &mut Seen<'a>,
    bytes: &'a [u8],
) -> Result<(Vec<OpenSet>, &'a [u8]), Stop>
    requires { seen.old ≡ [] }
    ensures read { Gives (λ x. (view_sets x.0.items, x.1.now)) result
        (few_judged_at most (judge_set next) set_at bytes.now) }
    ensures seen { IfOk result (λ x. seen.new ≡ set_keys (view_sets x.0.items)) }
{
    let (count, rest) = u64_of(bytes)?;
    if count > most {
        return Err(halted(bytes, StateFault::TooMany));
    }
    sets_of(alloc, next, count, seen, rest)
}

/// Remembered keys behind their number, which is within a limit.
#[tactic(auto, unfolding(crate::specs::Reading::Lists::few_judged_at))]
pub(crate) fn few_keys_of<'a>(
    alloc: Global,
    most: u64,
    seen: &mut Seen<'a>,
    bytes: &'a [u8],
) -> Result<(Vec<Remembered>, &'a [u8]), Stop>
    ensures { Gives (λ x. (x.0.items, x.1.now)) result
        (few_judged_at most (judge_key seen.old) remembered_at bytes.now) }
{
    let (count, rest) = u64_of(bytes)?;
    if count > most {
        return Err(halted(bytes, StateFault::TooMany));
    }
    keys_of(alloc, count, seen, rest)
}
