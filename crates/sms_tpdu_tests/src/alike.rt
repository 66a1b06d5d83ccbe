//! A value and its view, of octets that are cut or of which one is changed.

use crate::found::holds;
use sms_tpdu::{CommandView, Refusal, StatusReportView, Unit, UnitFault, View, see};
use std::alloc::{AllocError, Global};
use std::process::Abort;

/// How many octets were read, and what is written of the unit.
type Answer = Result<(usize, Vec<u8>), Refusal<UnitFault>>;

/// What octets are read as.
fn read<U: Unit<Why = UnitFault>>(alloc: Global, octets: &[u8]) -> Answer {
    let (unit, used) = U::read(alloc, octets)?;
    Ok((used, unit.write(alloc)?))
}

/// What is written of the value of a view.
fn valued<'a, V: View<'a>>(alloc: Global, view: &V) -> Result<Vec<u8>, AllocError> {
    let unit = view.to_value(alloc)?;
    unit.write(alloc)
}

/// What octets are seen as.
fn seen<'a, U: Unit<Why = UnitFault>, V: View<'a, Owned = U>>(
    alloc: Global,
    octets: &'a [u8],
) -> Answer {
    match see::<V>(octets) {
        Ok((view, used)) => Ok((used, valued(alloc, &view)?)),
        Err(fault) => Err(Refusal::At {
            place: fault.place,
            why: fault.why,
        }),
    }
}

/// Whether a refusal of octets as short stands at their end.
fn is_placed(octets: &[u8], refusal: Refusal<UnitFault>) -> bool {
    match refusal {
        Refusal::At {
            place,
            why: UnitFault::Short,
        } => place == octets.len(),
        Refusal::At { .. } => true,
        Refusal::Memory => false,
    }
}

/// Whether two answers about octets are the same.
fn are_same(octets: &[u8], one: &Answer, other: &Answer) -> bool {
    match (one, other) {
        (Ok(one), Ok(other)) => one.0 == other.0 && one.1.as_slice() == other.1.as_slice(),
        (Err(one), Err(other)) => one == other && is_placed(octets, *one),
        _ => false,
    }
}

/// Whether a unit and its view are read alike.
fn agree<'a, U: Unit<Why = UnitFault>, V: View<'a, Owned = U>>(
    alloc: Global,
    octets: &'a [u8],
) -> bool {
    let one = read::<U>(alloc, octets);
    let other = seen::<U, V>(alloc, octets);
    are_same(octets, &one, &other)
}

/// The kinds of units that are tried.
#[derive(Clone, Copy, Debug)]
pub enum Kind {
    StatusReport,
    Command,
}

/// Whether a unit of a kind and its view are read alike.
fn agree_as(alloc: Global, kind: Kind, octets: &[u8]) -> bool {
    match kind {
        Kind::StatusReport => agree::<_, StatusReportView>(alloc, octets),
        Kind::Command => agree::<_, CommandView>(alloc, octets),
    }
}

/// Octets of which one is another.
fn changed(alloc: Global, octets: &[u8], place: usize, octet: u8) -> Result<Vec<u8>, AllocError> {
    let mut changed = Vec::from_slice(alloc, octets)?;
    if let Some(old) = changed.get_mut(place) {
        *old = octet;
    }
    Ok(changed)
}

/// They agree, whatever octet stands at a place.
fn agree_at(
    rt: &impl Abort,
    alloc: Global,
    kind: Kind,
    octets: &[u8],
    place: usize,
) -> Result<(), AllocError> {
    for octet in 0..=255u8 {
        let changed = changed(alloc, octets, place, octet)?;
        holds(rt, &(kind, place, octet), agree_as(alloc, kind, &changed));
    }
    Ok(())
}

/// They agree about each front, and whatever octet stands at each place.
pub fn agree_everywhere(
    rt: &impl Abort,
    alloc: Global,
    kind: Kind,
    octets: &[u8],
) -> Result<(), AllocError> {
    for place in 0..octets.len() {
        holds(rt, &(kind, place), agree_as(alloc, kind, &octets[..place]));
        agree_at(rt, alloc, kind, octets, place)?;
    }
    Ok(())
}
