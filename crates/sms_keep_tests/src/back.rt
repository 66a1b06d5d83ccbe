//! A joiner that is saved, read back, and goes on.

use crate::found::{holds, is};
use crate::joiner::{LAST, Piece, TAKEN, joiner, limits, offered};
use crate::rows::{ROWS, SAMPLE};
use sms_join::{Gateway, GatewayLimits, Offer};
use sms_keep::{Fault, HeldFault, ReadFault, read, save};
use sms_saved::StateFault;
use std::alloc::Global;
use std::process::Abort;
use std::test::Fail;

#[test]
fn a_joiner_is_saved(rt: HostRuntime) -> Result<(), Fail> {
    let octets = save(rt.alloc(), &joiner(rt.alloc())?, 12)?;
    holds(&rt, "octets", octets.as_slice() == SAMPLE);
    Ok(())
}

/// What was read back of the sample.
fn back(alloc: Global, seed: Option<u128>) -> Result<Gateway, Fail> {
    let restored = read(alloc, seed, limits(), SAMPLE).map_err(|_| "not read")?;
    if restored.taken != 12 {
        return Err("taken".into());
    }
    Ok(restored.gateway)
}

/// Whether a piece is a repeat.
fn is_repeat(alloc: Global, gateway: &mut Gateway, piece: Piece) -> Result<bool, Fail> {
    match offered(alloc, gateway, piece)? {
        Ok(Offer::Repeat) => Ok(true),
        _ => Ok(false),
    }
}

#[test]
fn a_joiner_goes_on(rt: HostRuntime) -> Result<(), Fail> {
    for seed in [None, Some(7)] {
        let mut gateway = back(rt.alloc(), seed)?;
        for piece in TAKEN {
            let so = is_repeat(rt.alloc(), &mut gateway, piece)?;
            holds(&rt, piece.now, so);
        }
        let finished = match offered(rt.alloc(), &mut gateway, LAST)? {
            Ok(Offer::Finished(text)) => text.as_str() == "abcdef",
            _ => false,
        };
        holds(&rt, "text", finished);
        is(&rt, "open", gateway.open_count(), 0);
        is(&rt, "remembered", gateway.remembered_count(), 3);
    }
    Ok(())
}

/// Ages count from the moments before: the set was opened at 100, and the keys finished at 40 and
/// 60.
#[test]
fn a_joiner_ages_on(rt: HostRuntime) -> Result<(), Fail> {
    let mut gateway = back(rt.alloc(), None)?;
    for (now, open, remembered) in [(699, 1, 2), (700, 0, 2), (1_040, 0, 1), (1_060, 0, 0)] {
        gateway.age(now);
        let found = (gateway.open_count(), gateway.remembered_count());
        is(&rt, now, found, (open, remembered));
    }
    Ok(())
}

/// The fault of octets, as of a joiner with these limits.
pub fn fault_of(alloc: Global, limits: GatewayLimits, octets: &[u8]) -> Option<Fault> {
    match read(alloc, Some(7), limits, octets) {
        Err(ReadFault::At(fault)) => Some(fault),
        _ => None,
    }
}

#[test]
fn states_are_refused_for_what_they_say(rt: HostRuntime) {
    for row in &ROWS {
        let wanted = Fault {
            place: row.place,
            why: row.why,
        };
        let found = fault_of(rt.alloc(), limits(), row.octets);
        is(&rt, row.says, found, Some(wanted));
    }
}

/// What is said of a fault.
fn is_said(rt: &(impl Abort + AllocGlobal), fault: ReadFault, line: &str) -> Result<(), Fail> {
    let said = format!(in rt.alloc(); "{fault}")?;
    is(rt, line, said.as_str(), line);
    Ok(())
}

#[test]
fn faults_are_said(rt: HostRuntime) -> Result<(), Fail> {
    is_said(&rt, ReadFault::Memory, "out of memory")?;
    for (why, line) in [
        (HeldFault::State(StateFault::Short), "at 67: short"),
        (HeldFault::Address, "at 67: bad address"),
        (HeldFault::Moments, "at 67: moments out of order"),
    ] {
        is_said(&rt, ReadFault::At(Fault { place: 67, why }), line)?;
    }
    Ok(())
}
