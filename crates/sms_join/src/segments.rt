//! The segments of a text.

ghost use Rattle.std.specs.Prelude.{◌≡◌, ◌<◌, ◌≤◌, ◌↔◌, [], All, IfOk, IfSome, IsTrue, length, slice_get, slice_index_or};
ghost use Rattle.sms_tpdu.specs.declared.user_data.concat.Width.TheVariants.{Eight};
ghost use Rattle.sms_join.specs.Segments.User.{IsSendable};
ghost use Rattle.sms_join.specs.Segments.Written.{AreUsersOf};
ghost use Rattle.sms_join.specs.Inside.SegmentsAt.{AreEnds, segments_at, start_at};

use crate::cut::SEGMENTS_MAX;
use crate::segment::{Segment, SegmentView};
use crate::units::Units;
use crate::written::Written;
use sms_tpdu::{OCTETS_MAX, Width};
use std::alloc::{AllocError, Global};
use std::marker::Model;

/// The segments of a text, in order: the units of the text, and where each piece of them ends.
///
/// Contracts see them as the list of the segments.
#[derive(Drop)]
pub struct Segments {
    units: Units,
    ends: Vec<usize>,
}

impl Model for Segments {
    ghost use Rattle.std.specs.Prelude.{List};
    ghost use Rattle.sms_join.specs.declared.segment.Segment.{Segment};
    ghost use Rattle.sms_join.specs.Inside.SegmentsAt.{AreEnds, segments_at};

    ghost Value = { List Segment };

    ghost view = { λ s. segments_at s.units s.ends.items };

    ghost invariant = { λ s. AreEnds s.units s.ends.items };
}

/// The most octets of user data, TP-UDL before them, and one more, which packing writes and takes
/// back.
const ROOM: usize = OCTETS_MAX + 2;

/// Where the piece of an index starts.
pub(crate) fn start_of(ends: &[usize], index: usize) -> usize
    requires { index < length ends.now }
    ensures { result ≡ start_at 0 ends.now index }
{
    if index == 0 { 0 } else { ends[index - 1] }
}

impl Segments {
    /// The segments of these units, whose pieces end there.
    pub(crate) fn new(units: Units, ends: Vec<usize>) -> Segments
        requires { AreEnds units ends.items }
        ensures { result ≡ segments_at units ends.items }
    {
        Segments { units, ends }
    }

    /// How many segments there are.
    pub fn len(&self) -> usize
        ensures count { result ≡ length self.now }
        ensures few { result ≤ SEGMENTS_MAX }
    {
        self.ends.len()
    }

    /// Whether there is none.
    pub fn is_empty(&self) -> bool
        ensures { IsTrue result ↔ (self.now ≡ []) }
    {
        self.len() == 0
    }

    /// The segment of an index, which counts from 0; its units lie in those of the text.
    pub fn get(&self, index: usize) -> Option<SegmentView<'_>>
        ensures value { result ≡ slice_get self.now index }
        ensures item { IfSome result (λ segment. (index < length self.now)
            × (slice_index_or self.now index segment ≡ segment)) }
    {
        let ends = self.ends.as_slice();
        if index >= ends.len() {
            return None;
        }
        let units = self.units.part(start_of(ends, index), ends[index]);
        let maximum = ends.len() as u8;
        Some(SegmentView::new(units, maximum, index as u8 + 1))
    }

    /// The segments with units of their own.
    pub fn to_vec(&self, alloc: Global) -> Result<Vec<Segment>, AllocError>
        ensures { IfOk result (λ segments. segments.items ≡ self.now) }
    {
        let mut segments = Vec::with_capacity(alloc, self.len())?;
        for index in 0..self.len() {
            if let Some(segment) = self.get(index) {
                segments.push(segment.to_value(alloc)?)?;
            }
        }
        Ok(segments)
    }

    /// The octets of the user data of all segments, as `SegmentView::write_user` writes those of
    /// each, one after another in one block.
    ///
    /// The segments have one reference, which is below 256 with `Width::Eight`.
    pub fn write_users(
        &self,
        alloc: Global,
        width: Width,
        reference: u16,
    ) -> Result<Written, AllocError>
        requires sendable { All (IsSendable width) self.now }
        requires reference { width ≡ Eight → reference < 256 }
        ensures { IfOk result (AreUsersOf width reference self.now) }
    {
        let mut octets = Vec::with_capacity(alloc, ROOM * self.len())?;
        let mut ends = Vec::with_capacity(alloc, self.len())?;
        for index in 0..self.len() {
            if let Some(segment) = self.get(index) {
                segment.put_user(&mut octets, width, reference)?;
                ends.push(octets.len())?;
            }
        }
        Ok(Written::new(octets, ends))
    }
}
