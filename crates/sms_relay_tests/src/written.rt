//! What units are written in.

use sms_tpdu::Unit;
use std::alloc::{AllocError, Global};

/// Whether octets are those that a unit is written in.
pub fn is_written<U: Unit>(alloc: Global, unit: &U, octets: &[u8]) -> Result<bool, AllocError> {
    let written = unit.write(alloc)?;
    Ok(written.as_slice() == octets)
}
