//! Reading what was written, and writing what was read.

ghost use Rattle.std.specs.Prelude.{◌≡◌, IfOk};
ghost use Rattle.sms_saved.specs.Value.{view};
ghost use Rattle.sms_saved.specs.Fits.{StateFits};

use crate::fault::ReadFault;
use crate::reading::read;
use crate::state::{Limits, State};
use crate::writing::write;
use std::alloc::{AllocError, Global};

/// A state that is written and read is the same.
pub fn read_again(alloc: Global, seed: u128, state: &State) -> Result<State, AllocError>
    requires { StateFits (view state.now) }
    ensures { IfOk result (λ s. view s ≡ view state.now) }
{
    let octets = write(alloc, state)?;
    match read(alloc, seed, state.limits, &octets) {
        Ok(state) => Ok(state),
        Err(ReadFault::Memory) => Err(AllocError),
        Err(ReadFault::At(_)) => unreachable!(),
    }
}

/// What is read is written as those octets: no other octets are read as that state.
pub fn written_again(
    alloc: Global,
    seed: u128,
    limits: Limits,
    octets: &[u8],
) -> Result<Vec<u8>, ReadFault>
    ensures { IfOk result (λ v. v.items ≡ octets.now) }
{
    let state = read(alloc, seed, limits, octets)?;
    match write(alloc, &state) {
        Ok(octets) => Ok(octets),
        Err(_) => Err(ReadFault::Memory),
    }
}
