//! Octets as a state.

mod fields;
mod front;
mod keys;
mod lists;
mod sets;
mod whole;

ghost use Rattle.std.specs.Prelude.{◌≡◌, ◌≢◌, ◌<◌, ◌++◌, ◌∷◌, ℕ, List, length, IfOk, Ok, Err};
ghost use Rattle.sms_saved.specs.declared.fault.StateFault.TheVariants.{Newer, OtherLimits};
ghost use Rattle.sms_saved.specs.Value.{StateValue, view};
ghost use Rattle.sms_saved.specs.Spelling.{magic, spelling};
ghost use Rattle.sms_saved.specs.Fits.{StateFits};
ghost use Rattle.sms_saved.specs.Reading.Whole.{Tells, placed, state_at};

use crate::fault::ReadFault;
pub(crate) use crate::reading::front::front_of;
pub(crate) use crate::reading::sets::remembered_view_of;
use crate::reading::whole::told;
use crate::state::{Limits, State};
use std::alloc::Global;

/// The state of a joiner with these limits that the octets spell, all of them. Room is asked for no
/// more entries than the octets can hold, whatever the counts say. Keys are hashed with the seed,
/// so that no sender can pick keys that take long to tell apart; it does not show.
pub fn read(alloc: Global, seed: u128, limits: Limits, octets: &[u8]) -> Result<State, ReadFault>
    // What is read is spelled so, and is of a joiner with these limits.
    ensures found { IfOk result (λ s. StateFits (view s) × ((view s).limits ≡ limits)
        × (octets.now ≡ spelling (view s))) }
    // What is spelled so is read, unless memory runs out.
    ensures only { (s : StateValue) → StateFits s → s.limits ≡ limits
        → octets.now ≡ spelling s → Tells view result (Ok s) }
    // A state of another joiner is refused as such.
    ensures other { (s : StateValue) → StateFits s → s.limits ≢ limits
        → octets.now ≡ spelling s
        → Tells view result (Err (record { place = 9; why = OtherLimits })) }
    // A higher version is refused by its number.
    ensures newer { (version : ℕ) (rest : List ℕ) → 1 < version
        → octets.now ≡ magic ++ version ∷ rest
        → Tells view result (Err (record { place = 8; why = Newer version })) }
    // Which fault it is, and where.
    ensures exact { Tells view result (placed (length octets.now) (state_at limits octets.now)) }
{
    told(alloc, seed, limits, octets)
}
