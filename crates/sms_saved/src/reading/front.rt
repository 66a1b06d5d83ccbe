//! What stands before the remembered keys.

ghost use Rattle.sms_saved.specs.Inside.Fronts.{front_at};
ghost use Rattle.sms_saved.specs.Parts.{view_front};
ghost use Rattle.sms_saved.specs.Reading.Fields.{Gives};

use crate::fault::{StateFault, Stop, halted};
use crate::parts::Front;
use crate::reading::fields::u64_of;
use crate::reading::lists::few_sets_of;
use crate::reading::whole::{head_of, limits_of};
use crate::seen::Seen;
use crate::state::Limits;
use std::alloc::Global;

/// All before the remembered keys, of which there are no more than the limits say.
#[tactic(auto, unfolding(crate::specs::Inside::Fronts::front_at))]
pub(crate) fn front_of(
    alloc: Global,
    seed: u128,
    own: Limits,
    bytes: &[u8],
) -> Result<Front<'_>, Stop>
    ensures { Gives view_front result (front_at own bytes.now) }
{
    let rest = head_of(bytes)?;
    let (_, rest) = limits_of(own, rest)?;
    let (taken, rest) = u64_of(rest)?;
    let (next, rest) = u64_of(rest)?;
    let mut seen = Seen::new(alloc, seed)?;
    let (sets, behind) = few_sets_of(alloc, own.sets, next, &mut seen, rest)?;
    let (count, rest) = u64_of(behind)?;
    if count > own.keys {
        return Err(halted(behind, StateFault::TooMany));
    }
    Ok(Front {
        taken,
        next,
        sets,
        count,
        rest,
    })
}
