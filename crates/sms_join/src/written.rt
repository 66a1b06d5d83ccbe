//! What the segments of a text are written as, in one block.

ghost use Rattle.std.specs.Prelude.{◌≡◌, ◌≤◌, ◌↔◌, [], Some, MatchOption, IsTrue, length, slice_get, slice_range};
ghost use Rattle.sms_join.specs.Inside.SegmentsAt.{RiseTo};
ghost use Rattle.sms_join.specs.Inside.WrittenAt.{octets_at};

use crate::segments::start_of;
use std::marker::Model;

/// The octets of several parts, one after another, and where each part ends.
///
/// Contracts see them as the list of the octets of each part.
#[derive(Drop)]
pub struct Written {
    octets: Vec<u8>,
    ends: Vec<usize>,
}

impl Model for Written {
    ghost use Rattle.std.specs.Prelude.{ℕ, List, length};
    ghost use Rattle.sms_join.specs.Inside.SegmentsAt.{RiseTo};
    ghost use Rattle.sms_join.specs.Inside.WrittenAt.{octets_at};

    ghost Value = { List (List ℕ) };

    ghost view = { λ w. octets_at w.octets.items 0 w.ends.items };

    ghost invariant = { λ w. RiseTo 0 w.ends.items (length w.octets.items) };
}

/// The octets from one place up to another.
fn part(octets: &[u8], start: usize, end: usize) -> &[u8]
    requires order { start ≤ end }
    requires inside { end ≤ length octets.now }
    ensures { result.now ≡ slice_range octets.now start end }
{
    &octets[start..end]
}

impl Written {
    /// The parts of these octets, which end there.
    pub(crate) fn new(octets: Vec<u8>, ends: Vec<usize>) -> Written
        requires { RiseTo 0 ends.items (length octets.items) }
        ensures { result ≡ octets_at octets.items 0 ends.items }
    {
        Written { octets, ends }
    }

    /// How many parts there are.
    pub fn len(&self) -> usize
        ensures { result ≡ length self.now }
    {
        self.ends.len()
    }

    /// Whether there is none.
    pub fn is_empty(&self) -> bool
        ensures { IsTrue result ↔ (self.now ≡ []) }
    {
        self.len() == 0
    }

    /// The octets of the part of an index, which counts from 0.
    pub fn get(&self, index: usize) -> Option<&[u8]>
        ensures { MatchOption result (length self.now ≤ index)
            (λ octets. slice_get self.now index ≡ Some octets.now) }
    {
        let ends = self.ends.as_slice();
        if index >= ends.len() {
            return None;
        }
        let octets = self.octets.as_slice();
        Some(part(octets, start_of(ends, index), ends[index]))
    }
}
