//! When the keys that are remembered finished.

ghost use Rattle.std.specs.Prelude.{◌≡◌, ◌∷◌, take, Some};
ghost use Rattle.circular_buffer.specs.Buffer.{buffer};
ghost use Rattle.sms_join.specs.Gateway.Finishings.{finishings_at, not_before, Fall};
ghost use Rattle.sms_join.specs.Inside.Gateways.{noted_by};

use crate::age::Age;
use crate::offer::{Offer, OfferFault};
use circular_buffer::HeapCircularBuffer;

/// Notes a finishing, ahead of those before it.
pub(crate) fn note_finishing(finishings: &mut HeapCircularBuffer<u64>, now: u64)
    ensures { finishings.new ≡ buffer
        (take finishings.old.capacity
        (not_before finishings.old.items now ∷ finishings.old.items)) finishings.old.capacity }
{
    let moment = match finishings.front() {
        None => now,
        Some(last) => now.max(*last),
    };
    finishings.push_front(moment);
}

/// Notes the answer to an offer, where it finishes a message.
pub(crate) fn note_answer(
    finishings: &mut HeapCircularBuffer<u64>,
    now: u64,
    answer: &Result<Offer, OfferFault>,
)
    ensures { finishings.new ≡ buffer
        (noted_by finishings.old.capacity finishings.old.items now answer.now)
        finishings.old.capacity }
{
    if let Ok(Offer::Finished(_)) = answer {
        note_finishing(finishings, now);
    }
}

/// Forgets those that are so many seconds ago, or more, where there is such a number.
pub(crate) fn forget_by(finishings: &mut HeapCircularBuffer<u64>, longest: Option<u64>, now: u64)
    requires { Fall finishings.old.items }
    ensures { finishings.new ≡ buffer
        (finishings_at longest now finishings.old.items) finishings.old.capacity }
{
    match longest {
        None => {}
        Some(longest) => forget_old(finishings, Age { now, longest }),
    }
}

/// Forgets those that are too long ago.
fn forget_old(finishings: &mut HeapCircularBuffer<u64>, age: Age)
    requires { Fall finishings.old.items }
    ensures { finishings.new ≡ buffer
        (finishings_at (Some age.longest) age.now finishings.old.items) finishings.old.capacity }
{
    while let Some(moment) = finishings.back() {
        if !age.is_past(*moment) {
            return;
        }
        finishings.pop_back();
    }
}
