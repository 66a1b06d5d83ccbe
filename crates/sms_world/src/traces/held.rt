//! What is noted of accepted submissions.

ghost use Rattle.std.specs.Prelude.{◌≡◌};
ghost use Rattle.sms_world.specs.Traces.{same_part, adds, is_other_held};

use crate::notes::mark::Part;

/// Which accepted submissions are told apart by their segments alone.
#[derive(Clone, Copy, Debug, PartialEq, Eq, Hash)]
pub(crate) struct ReferenceKey {
    pub phone: usize,
    /// TP-MR.
    pub reference: u8,
    /// The phone that has the address TP-DA.
    pub recipient: usize,
}

/// What is noted of the accepted submissions with one key.
#[derive(Clone, Copy, Debug)]
pub(crate) struct HeldNote {
    /// The segment of which one ends last.
    pub last: Option<Part>,
    /// When it ends.
    pub end: u64,
    /// When the last one ends that is of another segment.
    pub other: u64,
}

/// Whether two are the same segment, or neither is one.
fn is_same_part(one: Option<Part>, other: Option<Part>) -> bool
    ensures { result ≡ same_part one other }
{
    match (one, other) {
        (Some(p), Some(q)) => p.text == q.text && p.segment == q.segment,
        (None, None) => true,
        _ => false,
    }
}

/// What is noted after one more was accepted, of this segment, that ends so.
pub(crate) fn adds(old: Option<HeldNote>, part: Option<Part>, end: u64) -> HeldNote
    ensures { result ≡ adds old part end }
{
    let Some(note) = old else {
        return HeldNote {
            last: part,
            end,
            other: 0,
        };
    };
    if is_same_part(note.last, part) {
        return HeldNote {
            end: note.end.max(end),
            ..note
        };
    }
    if note.end <= end {
        return HeldNote {
            last: part,
            end,
            other: note.end,
        };
    }
    HeldNote {
        other: note.other.max(end),
        ..note
    }
}

/// Whether one of another segment has not ended.
pub(crate) fn is_other_held(held: Option<HeldNote>, part: Option<Part>, now: u64) -> bool
    ensures { result ≡ is_other_held held part now }
{
    let Some(note) = held else {
        return false;
    };
    if is_same_part(note.last, part) {
        now < note.other
    } else {
        now < note.end
    }
}
