//! What is written of a unit that was read again.

ghost use Rattle.std.specs.Prelude.{[]};

use sms_tpdu::{Refusal, Unit, reread};
use std::alloc::Global;

/// What is written of the unit that is read again.
pub fn rewritten<U: Unit>(alloc: Global, unit: &U) -> Result<Vec<u8>, Refusal<U::Why>>
    requires { U.may_follow unit.now [] }
{
    let again = reread(alloc, unit)?;
    Ok(again.write(alloc)?)
}
