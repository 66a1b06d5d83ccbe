//! The sets that are left of a crowd.

use crate::crowd::{Told, told_of};
use crate::found::same;
use crate::joiner::checked;
use sms_field::{Address, Stamp};
use sms_join::{Joiner, Key, Ucs2Units, Units};
use sms_tpdu::{Concat, Width};
use std::alloc::{AllocError, Global};
use std::hash::{FoldHasher, Hash, Hasher};
use std::process::Abort;
use std::test::Fail;

/// How many sets are open at most.
const CROWD: usize = 950;

/// How many of them are left.
const LEFT: usize = 17;

/// A segment of two, under a reference of two octets.
fn place_of(reference: u16, sequence: u8) -> Option<Concat> {
    Some(Concat {
        width: Width::Sixteen,
        reference,
        maximum: 2,
        sequence,
    })
}

/// The letter of a segment.
fn letter_of(sequence: u8) -> u16 {
    match sequence {
        1 => 0x61,
        _ => 0x62,
    }
}

/// What a joiner answers to a segment.
fn answer_to(
    alloc: Global,
    joiner: &mut Joiner,
    origin: &Address,
    reference: u16,
    sequence: u8,
) -> Result<Told, AllocError> {
    let letter = letter_of(sequence);
    let units = Units::Ucs2(Ucs2Units::new(vec![in alloc; letter]?));
    let place = checked(place_of(reference, sequence));
    let answer = joiner.offer(0, origin, Stamp::new([0; 7]), place, units);
    Ok(told_of(&answer, "ab"))
}

/// The segment of each reference is answered so.
fn are_told(
    rt: &impl Abort,
    alloc: Global,
    joiner: &mut Joiner,
    origin: &Address,
    references: &[u16],
    sequence: u8,
    wanted: Told,
) -> Result<(), Fail> {
    for reference in references {
        let found = answer_to(alloc, joiner, origin, *reference, sequence)?;
        same(rt, &(*reference, sequence), &found, &wanted);
    }
    Ok(())
}

/// The hash of the key of a reference.
fn hash_of(alloc: Global, origin: &Address, reference: u16) -> Result<u64, AllocError> {
    let key = Key::Segmented {
        origin: origin.copy(alloc)?,
        width: Width::Sixteen,
        reference,
        maximum: 2,
    };
    let mut hasher = FoldHasher::default();
    key.hash(&mut hasher);
    Ok(hasher.finish())
}

/// References whose keys the map of the open sets, which looks at the last bits, seeks from one
/// place or two on.
fn picked(alloc: Global, origin: &Address) -> Result<Vec<u16>, AllocError> {
    let mut references = Vec::with_capacity(alloc, CROWD)?;
    for reference in 0..u16::MAX {
        let hash = hash_of(alloc, origin, reference)?;
        if (hash ^ hash >> 32) % 64 == 0 && references.len() < CROWD {
            references.push(reference)?;
        }
    }
    Ok(references)
}

/// Where most sets of a crowd have finished, those that are left are found, and so are those that
/// open after them.
fn finds_those_left(
    rt: &impl Abort,
    alloc: Global,
    joiner: &mut Joiner,
    origin: &Address,
    other: &Address,
    references: &[u16],
) -> Result<(), Fail> {
    let (left, gone) = references.split_at(LEFT.min(references.len()));
    are_told(rt, alloc, joiner, origin, references, 1, Told::Kept)?;
    are_told(rt, alloc, joiner, origin, gone, 2, Told::Finished)?;
    same(rt, &"open sets", &joiner.open_count(), &LEFT);
    are_told(rt, alloc, joiner, origin, references, 1, Told::Repeat)?;
    are_told(rt, alloc, joiner, other, gone, 1, Told::Kept)?;
    are_told(rt, alloc, joiner, other, gone, 2, Told::Finished)?;
    are_told(rt, alloc, joiner, origin, left, 2, Told::Finished)?;
    same(rt, &"open sets", &joiner.open_count(), &0);
    Ok(())
}

/// Twice many sets open and finish, but for a few that stay open between.
#[test]
fn finds_those_left_of_a_crowd(rt: HostRuntime) -> Result<(), Fail> {
    let origin = Address::from_text(rt.alloc(), "+1001")?;
    let other = Address::from_text(rt.alloc(), "1001")?;
    let references = picked(rt.alloc(), &origin)?;
    let mut joiner = Joiner::new(rt.alloc(), 1_000, 2_000)?;
    finds_those_left(&rt, rt.alloc(), &mut joiner, &origin, &other, &references)
}
