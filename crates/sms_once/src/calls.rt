//! That a joiner for many recipients holds what the run of its calls says. A function that speaks
//! of one call makes it: its contract is the law.

ghost use Rattle.std.specs.Prelude.{◌≢◌, option_copied};
ghost use Rattle.sms_join.specs.Piece.{piece_to};
ghost use Rattle.sms_tpdu.specs.UserData.ConcatenationFound.{IsPlace};
ghost use Rattle.sms_once.specs.Steps.{StepsFollowRun, IsAged, IsOffered};

use sms_field::{Address, Stamp};
use sms_join::{Gateway, Offer, OfferFault, Units};
use sms_tpdu::Concat;

/// An offer for which memory does not run out is a step of the run: one that is turned away leaves
/// all as it was, and so does the run.
#[tactic(auto, using(crate::proofs::Steps::offer_is_step))]
pub fn offers_are_steps(
    gateway: &mut Gateway,
    now: u64,
    recipient: Option<&Address>,
    origin: &Address,
    stamp: Stamp,
    concat: Option<Concat>,
    units: Units,
) -> Result<Offer, OfferFault>
    requires { IsPlace concat }
    ensures { result ≢ Err OfferFault.Memory → IsOffered gateway.old gateway.new
        (piece_to now (option_copied recipient.entry) origin.now stamp concat units) }
{
    gateway.offer(now, recipient, origin, stamp, concat, units)
}

/// An aging is a step of the run.
pub fn agings_are_steps(gateway: &mut Gateway, now: u64)
    ensures { IsAged gateway.old gateway.new now }
{
    gateway.age(now);
}

/// After such steps, one after another, a joiner for many recipients holds what the run says, and
/// so answers each piece. A new one holds what a run begins with.
pub fn steps_follow_run()
    ensures { StepsFollowRun }
{
    sms_join::laws::answers_alike();
    sms_join::laws::agings_keep_same();
    sms_join::laws::same_is_equivalence();
}
