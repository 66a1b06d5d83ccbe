//! The user data of segments.

ghost use Rattle.std.specs.Prelude.{◌≡◌, ◌<◌, All, IfOk};
ghost use Rattle.sms_tpdu.specs.declared.user_data.concat.Width.TheVariants.{Eight};
ghost use Rattle.sms_join.specs.Segments.User.{IsSendable};

use crate::cut::{CUTS, repeated};
use crate::found::{holds, same};
use sms_field::{Address, Validity};
use sms_join::{SegmentView, Segments, Written, cut_text, segment_user, split};
use sms_tpdu::{Body, SubmitFront, UserData, Width};
use std::alloc::{AllocError, Global};
use std::process::Abort;
use std::test::Fail;

/// A letter a number of times and another text, and the header and the body of its last segment
/// under reference 7.
struct LastSegment {
    letter: &'static str,
    times: usize,
    then: &'static str,
    width: Width,
    octets: &'static [u8],
}

static LAST_SEGMENTS: [LastSegment; 6] = [
    LastSegment {
        letter: "a",
        times: 1,
        then: "€",
        width: Width::Eight,
        octets: &[97, 27, 101],
    },
    LastSegment {
        letter: "a",
        times: 159,
        then: "€",
        width: Width::Eight,
        octets: &[0, 3, 7, 2, 2, 97, 97, 97, 97, 97, 97, 27, 101],
    },
    LastSegment {
        letter: "a",
        times: 159,
        then: "€",
        width: Width::Sixteen,
        octets: &[8, 4, 0, 7, 2, 2, 97, 97, 97, 97, 97, 97, 97, 27, 101],
    },
    LastSegment {
        letter: "ж",
        times: 1,
        then: "a",
        width: Width::Eight,
        octets: &[4, 0x36, 0, 97],
    },
    LastSegment {
        letter: "ж",
        times: 66,
        then: "😀aaa",
        width: Width::Eight,
        octets: &[0, 3, 7, 2, 2, 0xD8, 0x3D, 0xDE, 0, 0, 97, 0, 97, 0, 97],
    },
    LastSegment {
        letter: "ж",
        times: 66,
        then: "😀aaa",
        width: Width::Sixteen,
        octets: &[8, 4, 0, 7, 2, 2, 0xD8, 0x3D, 0xDE, 0, 0, 97, 0, 97, 0, 97],
    },
];

/// The octets of a body.
fn octets_in(body: &Body) -> &[u8] {
    match body {
        Body::Septets(septets) => septets.as_slice(),
        Body::Octets(octets) => octets.as_slice(),
    }
}

/// The header and the body.
fn octets_of(alloc: Global, user: &UserData) -> Result<Vec<u8>, AllocError> {
    let mut octets = Vec::new(alloc);
    if let Some(header) = &user.header {
        octets.extend_from_slice(header.as_slice())?;
    }
    octets.extend_from_slice(octets_in(&user.body))?;
    Ok(octets)
}

/// The user data of the text's last segment under reference 7.
fn last_user(alloc: Global, text: &str, width: Width) -> Result<UserData, Fail> {
    let segments = split(alloc, text, width)?;
    match segments.last() {
        Some(last) => Ok(segment_user(alloc, last, width, 7)?),
        None => Err("no segment".into()),
    }
}

/// The header and the body of the text's last segment under reference 7.
fn last_octets(alloc: Global, text: &str, width: Width) -> Result<Vec<u8>, Fail> {
    let user = last_user(alloc, text, width)?;
    Ok(octets_of(alloc, &user)?)
}

/// The last segment of a text is that of a row.
fn gives(rt: &impl Abort, alloc: Global, text: &str, row: &LastSegment) -> Result<(), Fail> {
    let found = last_octets(alloc, text, row.width)?;
    same(rt, &text, &found.as_slice(), &row.octets);
    Ok(())
}

#[test]
fn gives_user_data(rt: HostRuntime) -> Result<(), Fail> {
    for row in LAST_SEGMENTS.as_slice() {
        let text = repeated(rt.alloc(), row.letter, row.times, row.then)?;
        gives(&rt, rt.alloc(), &text, row)?;
    }
    Ok(())
}

/// What is written of the user data of a segment.
fn written_of_user(
    alloc: Global,
    segment: &SegmentView<'_>,
    width: Width,
    reference: u16,
) -> Result<Vec<u8>, AllocError>
    requires sendable { IsSendable width segment.now }
    requires reference { width ≡ Eight → reference < 256 }
{
    let user = segment.user(alloc, width, reference)?;
    user.write(alloc)
}

/// What a copy of a segment writes.
fn written_of_copy(
    alloc: Global,
    segment: &SegmentView<'_>,
    width: Width,
    reference: u16,
) -> Result<Vec<u8>, AllocError>
    requires sendable { IsSendable width segment.now }
    requires reference { width ≡ Eight → reference < 256 }
{
    let owned = segment.to_value(alloc)?;
    owned.view().write_user(alloc, width, reference)
}

/// Whether a segment is written as its user data are.
fn is_written(
    alloc: Global,
    segment: &SegmentView<'_>,
    width: Width,
    reference: u16,
) -> Result<bool, AllocError>
    requires sendable { IsSendable width segment.now }
    requires reference { width ≡ Eight → reference < 256 }
{
    let octets = segment.write_user(alloc, width, reference)?;
    let user = written_of_user(alloc, segment, width, reference)?;
    let again = written_of_copy(alloc, segment, width, reference)?;
    Ok(octets == user && octets == again)
}

/// Whether all segments are written as their user data are.
fn all_are_written(alloc: Global, segments: &Segments, width: Width) -> Result<bool, Fail>
    requires sendable { All (IsSendable width) segments.now }
{
    for place in 0..segments.len() {
        let segment = segments.get(place).ok_or("no segment")?;
        if !is_written(alloc, &segment, width, 200)? {
            return Ok(false);
        }
    }
    Ok(true)
}

/// Whether a part of a block is what a segment is written as.
fn is_part(
    alloc: Global,
    block: &Written,
    segments: &Segments,
    place: usize,
    width: Width,
) -> Result<bool, Fail>
    requires sendable { All (IsSendable width) segments.now }
{
    let segment = segments.get(place).ok_or("no segment")?;
    let octets = segment.write_user(alloc, width, 200)?;
    let part = block.get(place).ok_or("no part")?;
    Ok(part == octets.as_slice())
}

/// Whether one block has the parts that the segments are written as, and no other.
fn block_is_written(alloc: Global, segments: &Segments, width: Width) -> Result<bool, Fail>
    requires sendable { All (IsSendable width) segments.now }
{
    let block = segments.write_users(alloc, width, 200)?;
    for place in 0..segments.len() {
        if !is_part(alloc, &block, segments, place, width)? {
            return Ok(false);
        }
    }
    Ok(block.len() == segments.len() && block.get(segments.len()).is_none())
}

/// Whether all segments of a text are written as their user data are, each by itself and all in one
/// block.
fn are_written(alloc: Global, text: &str, width: Width) -> Result<bool, Fail> {
    let segments = cut_text(alloc, text, width)?;
    let each = all_are_written(alloc, &segments, width)?;
    let block = block_is_written(alloc, &segments, width)?;
    Ok(each && block)
}

/// The segments of a text are written as their user data are.
fn writes(rt: &impl Abort, alloc: Global, text: &str) -> Result<(), Fail> {
    let eight = are_written(alloc, text, Width::Eight)?;
    let sixteen = are_written(alloc, text, Width::Sixteen)?;
    holds(rt, &("eight bits", text), eight);
    holds(rt, &("sixteen bits", text), sixteen);
    Ok(())
}

#[test]
fn writes_user_data(rt: HostRuntime) -> Result<(), Fail> {
    for row in CUTS.as_slice() {
        let text = repeated(rt.alloc(), row.letter, row.times, row.then)?;
        writes(&rt, rt.alloc(), &text)?;
    }
    Ok(())
}

/// A submission but its user data and its data coding scheme.
fn front_of(alloc: Global, dcs: u8) -> Result<SubmitFront, AllocError>
    ensures { IfOk result (λ front. front.dcs ≡ dcs) }
{
    let target = Address::from_text(alloc, "+46708251358").map_err(|_| AllocError)?;
    Ok(SubmitFront {
        reject: false,
        validity: Validity::Absent,
        report: false,
        reply: false,
        reference: 0,
        target,
        pid: 0,
        dcs,
    })
}

/// Whether the submission of a segment is the same alone and in the room of three octets.
fn is_same_in_room(
    alloc: Global,
    segment: &SegmentView<'_>,
    width: Width,
    reference: u16,
) -> Result<bool, AllocError>
    requires sendable { IsSendable width segment.now }
    requires reference { width ≡ Eight → reference < 256 }
{
    let front = front_of(alloc, segment.coding_scheme())?;
    let alone = segment.write_submit(alloc, &front, width, reference)?;
    let room = Vec::from_slice(alloc, &[1, 2, 3])?;
    let written = segment.write_submit_in(room, &front, width, reference)?;
    Ok(written == alone)
}

/// Whether the submissions of a text's segments are the same alone and in a room.
fn are_same_in_room(alloc: Global, text: &str, width: Width) -> Result<bool, AllocError> {
    let segments = cut_text(alloc, text, width).map_err(|_| AllocError)?;
    for place in 0..segments.len() {
        let segment = segments.get(place).ok_or(AllocError)?;
        if !is_same_in_room(alloc, &segment, width, 200)? {
            return Ok(false);
        }
    }
    Ok(true)
}

/// The same, asked once more where memory ran out.
fn are_same_at_last(alloc: Global, text: &str) -> Result<bool, AllocError> {
    match are_same_in_room(alloc, text, Width::Eight) {
        Ok(same) => Ok(same),
        Err(_) => are_same_in_room(alloc, text, Width::Eight),
    }
}

#[test]
fn writes_submissions_in_a_room(rt: HostRuntime) -> Result<(), Fail> {
    for row in CUTS.as_slice() {
        let text = repeated(rt.alloc(), row.letter, row.times, row.then)?;
        let same = are_same_in_room(rt.alloc(), &text, Width::Sixteen)?;
        holds(&rt, &text.as_str(), same);
    }
    Ok(())
}

/// One growth is refused, whichever it is (docs/CONTRIBUTING.md says how): the submissions are then
/// written as where none was refused.
#[test]
fn writes_submissions_in_a_room_after_a_refused_growth(rt: HostRuntime) -> Result<(), Fail> {
    let same = are_same_at_last(rt.alloc(), "жж")?;
    holds(&rt, &"UCS-2", same);
    Ok(())
}
