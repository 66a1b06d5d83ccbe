//! States, while one request for memory is refused.

use crate::found::holds;
use crate::rows::SAMPLE;
use crate::seen::{LIMITS, SEED};
use crate::written::sample_written;
use sms_saved::{ReadFault, written_again};
use std::alloc::Global;
use std::test::Fail;

/// Whether the sample is read and written, or refused for want of memory.
fn comes_back(alloc: Global) -> bool {
    match written_again(alloc, SEED, LIMITS, SAMPLE) {
        Ok(octets) => octets.as_slice() == SAMPLE,
        Err(fault) => fault == ReadFault::Memory,
    }
}

/// Whether the sample is written part by part, or refused for want of memory.
fn is_written(alloc: Global) -> bool {
    match sample_written(alloc) {
        Some(octets) => octets.as_slice() == SAMPLE,
        None => true,
    }
}

#[test]
fn states_come_back_after_a_refused_growth(rt: HostRuntime) -> Result<(), Fail> {
    for row in ["first", "again"] {
        holds(&rt, row, comes_back(rt.alloc()));
        holds(&rt, row, is_written(rt.alloc()));
    }
    Ok(())
}
