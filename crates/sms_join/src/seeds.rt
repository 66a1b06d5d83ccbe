//! That no seed shows.

ghost use Rattle.std.specs.Prelude.{◌≡◌, ◌<◌, IfOk};

use crate::joiner::Joiner;
use std::alloc::{AllocError, Global};

/// Two joiners, each of a seed of its own: to all that contracts say they are the same, and so is
/// what they answer to the same calls.
pub fn seeds_do_not_show(
    alloc: Global,
    open_max: usize,
    remembered: usize,
    seeds: (u128, u128),
) -> Result<(Joiner, Joiner), AllocError>
    requires sets { 0 < open_max }
    requires keys { 0 < remembered }
    ensures { IfOk result (λ joiners. joiners.0 ≡ joiners.1) }
{
    let one = Joiner::with_seed(alloc, open_max, remembered, seeds.0)?;
    let other = Joiner::with_seed(alloc, open_max, remembered, seeds.1)?;
    Ok((one, other))
}
