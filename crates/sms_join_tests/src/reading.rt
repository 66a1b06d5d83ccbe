//! What segments are read as.

ghost use Rattle.std.specs.Prelude.{◌<◌};

use crate::found::same;
use sms_join::{Ucs2Units, Units, read_units};
use sms_tpdu::Septets;
use std::alloc::{AllocError, Global};
use std::process::Abort;
use std::test::Fail;

/// Adds a segment of one septet.
fn put_septet(alloc: Global, segments: &mut Vec<Units>, septet: u8) -> Result<(), AllocError>
    requires { septet < 128 }
{
    let septets = vec![in alloc; septet]?;
    segments.push(Units::Gsm(Septets::new(septets)))?;
    Ok(())
}

/// Adds a segment of one unit of UTF-16.
fn put_unit(alloc: Global, segments: &mut Vec<Units>, unit: u16) -> Result<(), AllocError> {
    let units = vec![in alloc; unit]?;
    segments.push(Units::Ucs2(Ucs2Units::new(units)))?;
    Ok(())
}

/// The segments are read as the text.
fn reads(rt: &impl Abort, alloc: Global, segments: &[Units], text: &str) -> Result<(), Fail> {
    let read = read_units(alloc, segments)?;
    same(rt, &text, &read.as_str(), &text);
    Ok(())
}

/// Adds a letter, an escape, and what is escaped.
fn put_septets(alloc: Global, segments: &mut Vec<Units>) -> Result<(), AllocError> {
    put_septet(alloc, segments, 97)?;
    put_septet(alloc, segments, 27)?;
    put_septet(alloc, segments, 101)
}

/// Adds both halves of a pair.
fn put_pair(alloc: Global, segments: &mut Vec<Units>) -> Result<(), AllocError> {
    put_unit(alloc, segments, 0xD83D)?;
    put_unit(alloc, segments, 0xDE00)
}

/// A pair that begins in one segment ends in the next, but not where another segment has the other
/// alphabet.
#[test]
fn reads_segments(rt: HostRuntime) -> Result<(), Fail> {
    let mut segments = Vec::new(rt.alloc());
    put_septets(rt.alloc(), &mut segments)?;
    reads(&rt, rt.alloc(), &segments, "a€")?;
    put_pair(rt.alloc(), &mut segments)?;
    reads(&rt, rt.alloc(), &segments, "a e\u{fffd}\u{fffd}")
}
