//! Segments offered in some order, and what the joiner answers to each.

ghost use Rattle.sms_tpdu.specs.UserData.ConcatenationFound.{IsPlace};

use crate::found::{holds, same};
use sms_field::{Address, Stamp};
use sms_join::{Joiner, Offer, OfferFault, Segment, Segments, Ucs2Units, Units, cut_text};
use sms_text::gsm_of;
use sms_tpdu::{Concat, Septets, Width};
use std::alloc::{AllocError, Global};
use std::fmt::Debug;
use std::process::Abort;
use std::test::Fail;

/// What is wanted of an offer.
#[derive(Clone, Copy)]
enum Want {
    Repeat,
    Kept,
    Finished(&'static str),
    TooManyOpen,
}

/// The units of a piece.
#[derive(Clone, Copy)]
enum PieceUnits {
    Gsm(&'static str),
    Ucs2(u16),
}

/// Three segments in each order, each twice in a row; and in each order twice.
static ORDERS: [[usize; 6]; 12] = [
    [0, 0, 1, 1, 2, 2],
    [0, 0, 2, 2, 1, 1],
    [1, 1, 0, 0, 2, 2],
    [1, 1, 2, 2, 0, 0],
    [2, 2, 0, 0, 1, 1],
    [2, 2, 1, 1, 0, 0],
    [0, 1, 2, 0, 1, 2],
    [0, 2, 1, 0, 2, 1],
    [1, 0, 2, 1, 0, 2],
    [1, 2, 0, 1, 2, 0],
    [2, 0, 1, 2, 0, 1],
    [2, 1, 0, 2, 1, 0],
];

/// The first segment of two, under the reference 6.
const FIRST_OF_6: Option<Concat> = Some(Concat {
    width: Width::Eight,
    reference: 6,
    maximum: 2,
    sequence: 1,
});

/// The first segment of two, under the reference 7.
const FIRST: Option<Concat> = Some(Concat {
    width: Width::Eight,
    reference: 7,
    maximum: 2,
    sequence: 1,
});

/// The second of them.
const SECOND: Option<Concat> = Some(Concat {
    width: Width::Eight,
    reference: 7,
    maximum: 2,
    sequence: 2,
});

/// The first segment of two, under the reference 8.
const FIRST_OF_8: Option<Concat> = Some(Concat {
    width: Width::Eight,
    reference: 8,
    maximum: 2,
    sequence: 1,
});

/// The second of them.
const SECOND_OF_8: Option<Concat> = Some(Concat {
    width: Width::Eight,
    reference: 8,
    maximum: 2,
    sequence: 2,
});

/// The first segment of two, under the reference 9.
const FIRST_OF_9: Option<Concat> = Some(Concat {
    width: Width::Eight,
    reference: 9,
    maximum: 2,
    sequence: 1,
});

/// The first segment of two, under the reference 7 of two octets.
const WIDE_FIRST: Option<Concat> = Some(Concat {
    width: Width::Sixteen,
    reference: 7,
    maximum: 2,
    sequence: 1,
});

/// The second of them.
const WIDE_SECOND: Option<Concat> = Some(Concat {
    width: Width::Sixteen,
    reference: 7,
    maximum: 2,
    sequence: 2,
});

/// The first segment of two, under the reference 263.
const WIDE_FIRST_OF_263: Option<Concat> = Some(Concat {
    width: Width::Sixteen,
    reference: 263,
    maximum: 2,
    sequence: 1,
});

/// The second of them.
const WIDE_SECOND_OF_263: Option<Concat> = Some(Concat {
    width: Width::Sixteen,
    reference: 263,
    maximum: 2,
    sequence: 2,
});

/// The first segment of two, or the second.
fn of_two(width: Width, reference: u16, sequence: u8) -> Option<Concat> {
    Some(Concat {
        width,
        reference,
        maximum: 2,
        sequence,
    })
}

/// The place, where it is one.
pub fn checked(concat: Option<Concat>) -> Option<Concat>
    ensures { IsPlace result }
{
    let place = concat?;
    let fits = place.reference < 256 || place.width == Width::Sixteen;
    if fits && place.sequence > 0 && place.sequence <= place.maximum {
        Some(place)
    } else {
        None
    }
}

/// As many letters.
fn letters(alloc: Global, count: usize) -> Result<String, AllocError> {
    let mut text = String::new(alloc);
    for letter in ('a'..='z').cycle().take(count) {
        text.push(letter)?;
    }
    Ok(text)
}

/// The units of a piece; none where the default alphabet lacks a letter of it.
fn units_of(alloc: Global, piece: PieceUnits) -> Result<Units, AllocError> {
    match piece {
        PieceUnits::Gsm(text) => match gsm_of(alloc, text)? {
            Some(septets) => Ok(Units::Gsm(Septets::new(septets))),
            None => Ok(Units::Gsm(Septets::new(Vec::new(alloc)))),
        },
        PieceUnits::Ucs2(unit) => Ok(Units::Ucs2(Ucs2Units::new(vec![in alloc; unit]?))),
    }
}

/// A piece that is offered to a joiner, and what is wanted of it.
#[derive(Clone, Copy)]
struct Row {
    shows: &'static str,
    from: &'static str,
    place: Option<Concat>,
    piece: PieceUnits,
    want: Want,
}

/// Whether the answer is what is wanted.
fn is_wanted(answer: &Result<Offer, OfferFault>, want: Want) -> bool {
    match (answer, want) {
        (Ok(Offer::Repeat), Want::Repeat) | (Ok(Offer::Kept), Want::Kept) => true,
        (Err(OfferFault::TooManyOpen), Want::TooManyOpen) => true,
        (Ok(Offer::Finished(text)), Want::Finished(wanted)) => text.as_str() == wanted,
        _ => false,
    }
}

/// The joiner says before whether the piece would finish its set.
fn says(rt: &impl Abort, joiner: &Joiner, origin: &Address, row: &Row) {
    let finishes = joiner.would_finish(origin, Stamp::new([0; 7]), checked(row.place));
    let wanted = matches!(&row.want, Want::Finished(_));
    same(rt, &(row.shows, row.place), &finishes, &wanted);
}

/// The joiner answers as wanted.
fn answers(
    rt: &impl Abort,
    joiner: &mut Joiner,
    now: u64,
    origin: &Address,
    row: &Row,
    units: Units,
) {
    let answer = joiner.offer(now, origin, Stamp::new([0; 7]), checked(row.place), units);
    holds(rt, &(row.shows, row.place), is_wanted(&answer, row.want));
}

/// The joiner answers as wanted to a piece from this address, and says before whether it would
/// finish its set.
fn offers_from(
    rt: &impl Abort,
    alloc: Global,
    joiner: &mut Joiner,
    now: u64,
    origin: &Address,
    row: &Row,
) -> Result<(), Fail> {
    says(rt, joiner, origin, row);
    let units = units_of(alloc, row.piece)?;
    answers(rt, joiner, now, origin, row, units);
    Ok(())
}

/// The joiner answers as wanted, and says before whether the piece would finish its set.
fn offers(
    rt: &impl Abort,
    alloc: Global,
    joiner: &mut Joiner,
    now: u64,
    row: &Row,
) -> Result<(), Fail> {
    let origin = Address::from_text(alloc, row.from)?;
    offers_from(rt, alloc, joiner, now, &origin, row)
}

/// Offers all rows.
fn offers_all(
    rt: &impl Abort,
    alloc: Global,
    joiner: &mut Joiner,
    rows: &[Row],
) -> Result<(), Fail> {
    for row in rows {
        offers(rt, alloc, joiner, 0, row)?;
    }
    Ok(())
}

/// Whether an offer is answered as wanted; none where it wants memory.
fn answered(
    alloc: Global,
    joiner: &mut Joiner,
    origin: &Address,
    row: &Row,
) -> Result<Option<bool>, AllocError> {
    let units = units_of(alloc, row.piece)?;
    let answer = joiner.offer(0, origin, Stamp::new([0; 7]), checked(row.place), units);
    if matches!(&answer, Err(OfferFault::Memory)) {
        return Ok(None);
    }
    Ok(Some(is_wanted(&answer, row.want)))
}

/// The address that a row comes from.
fn origin_of(alloc: Global, row: &Row) -> Result<Address, AllocError> {
    match Address::from_text(alloc, row.from) {
        Ok(origin) => Ok(origin),
        Err(_) => Err(AllocError),
    }
}

/// Whether an offer from this address is answered as wanted, and where it wants memory, one more.
/// The joiner says of the piece before and between what it said.
fn is_answered_from(
    alloc: Global,
    joiner: &mut Joiner,
    origin: &Address,
    row: &Row,
) -> Result<bool, AllocError> {
    let (stamp, place) = (Stamp::new([0; 7]), checked(row.place));
    let finishes = joiner.would_finish(origin, stamp, place);
    if let Some(wanted) = answered(alloc, joiner, origin, row)? {
        return Ok(wanted);
    }
    let same = joiner.would_finish(origin, stamp, place) == finishes;
    let again = answered(alloc, joiner, origin, row)?;
    Ok(same && again == Some(true))
}

/// Whether an offer is answered as wanted, and where it wants memory, one more.
fn is_answered(alloc: Global, joiner: &mut Joiner, row: &Row) -> Result<bool, AllocError> {
    let origin = origin_of(alloc, row)?;
    is_answered_from(alloc, joiner, &origin, row)
}

/// Offers the rows, and says which one is answered otherwise than wanted, if any is.
fn differs_from(
    alloc: Global,
    joiner: &mut Joiner,
    rows: &[Row],
) -> Result<Option<&'static str>, AllocError> {
    for row in rows {
        if !is_answered(alloc, joiner, row)? {
            return Ok(Some(row.shows));
        }
    }
    Ok(None)
}

/// What is offered where one set may be open, and one key is remembered.
static IN_TURN: [Row; 7] = [
    Row {
        shows: "opens",
        from: "+1001",
        place: SECOND,
        piece: PieceUnits::Gsm("b"),
        want: Want::Kept,
    },
    Row {
        shows: "one set too many",
        from: "+1001",
        place: FIRST_OF_8,
        piece: PieceUnits::Gsm("z"),
        want: Want::TooManyOpen,
    },
    Row {
        shows: "alone",
        from: "+1001",
        place: None,
        piece: PieceUnits::Gsm("u"),
        want: Want::Finished("u"),
    },
    Row {
        shows: "there already",
        from: "+1001",
        place: SECOND,
        piece: PieceUnits::Gsm("b"),
        want: Want::Repeat,
    },
    Row {
        shows: "the last",
        from: "+1001",
        place: FIRST,
        piece: PieceUnits::Gsm("a"),
        want: Want::Finished("ab"),
    },
    Row {
        shows: "finished lately",
        from: "+1001",
        place: FIRST,
        piece: PieceUnits::Gsm("a"),
        want: Want::Repeat,
    },
    Row {
        shows: "forgotten",
        from: "+1001",
        place: None,
        piece: PieceUnits::Gsm("u"),
        want: Want::Finished("u"),
    },
];

#[test]
fn answers_in_turn(rt: HostRuntime) -> Result<(), Fail> {
    let mut joiner = Joiner::new(rt.alloc(), 1, 1)?;
    offers_all(&rt, rt.alloc(), &mut joiner, IN_TURN.as_slice())
}

/// Sets of two origins under one reference, and of both widths under one number.
static APART: [Row; 9] = [
    Row {
        shows: "without a plus",
        from: "1001",
        place: FIRST,
        piece: PieceUnits::Gsm("a"),
        want: Want::Kept,
    },
    Row {
        shows: "another origin",
        from: "+1001",
        place: FIRST,
        piece: PieceUnits::Gsm("x"),
        want: Want::Kept,
    },
    Row {
        shows: "another width",
        from: "+1001",
        place: WIDE_SECOND,
        piece: PieceUnits::Gsm("n"),
        want: Want::Kept,
    },
    Row {
        shows: "263 is not 7",
        from: "+1001",
        place: WIDE_SECOND_OF_263,
        piece: PieceUnits::Gsm("q"),
        want: Want::Kept,
    },
    Row {
        shows: "its own",
        from: "+1001",
        place: SECOND,
        piece: PieceUnits::Gsm("y"),
        want: Want::Finished("xy"),
    },
    Row {
        shows: "still open",
        from: "1001",
        place: FIRST,
        piece: PieceUnits::Gsm("c"),
        want: Want::Repeat,
    },
    Row {
        shows: "without a plus, the last",
        from: "1001",
        place: SECOND,
        piece: PieceUnits::Gsm("b"),
        want: Want::Finished("ab"),
    },
    Row {
        shows: "the other width",
        from: "+1001",
        place: WIDE_FIRST,
        piece: PieceUnits::Gsm("m"),
        want: Want::Finished("mn"),
    },
    Row {
        shows: "both alphabets",
        from: "+1001",
        place: WIDE_FIRST_OF_263,
        piece: PieceUnits::Ucs2(0x4F60),
        want: Want::Finished("你q"),
    },
];

#[test]
fn keeps_sets_apart(rt: HostRuntime) -> Result<(), Fail> {
    let mut joiner = Joiner::new(rt.alloc(), 4, 2)?;
    offers_all(&rt, rt.alloc(), &mut joiner, APART.as_slice())
}

/// The first letter in a set of two, which opens it.
static OPENS: Row = Row {
    shows: "opens",
    from: "+1001",
    place: None,
    piece: PieceUnits::Gsm("a"),
    want: Want::Kept,
};

/// The first letter in a set beside six that are open.
static SEVENTH: Row = Row {
    shows: "a seventh",
    from: "+1001",
    place: FIRST_OF_6,
    piece: PieceUnits::Gsm("a"),
    want: Want::TooManyOpen,
};

/// The last letter in a set of two.
static LAST: Row = Row {
    shows: "the last",
    from: "+1001",
    place: None,
    piece: PieceUnits::Gsm("b"),
    want: Want::Finished("ab"),
};

/// Offers a letter with this sequence in each of six sets.
fn offers_six(
    rt: &impl Abort,
    alloc: Global,
    joiner: &mut Joiner,
    sequence: u8,
    row: &Row,
) -> Result<(), Fail> {
    for reference in 0..6 {
        let place = of_two(Width::Eight, reference, sequence);
        offers(rt, alloc, joiner, 0, &Row { place, ..*row })?;
    }
    Ok(())
}

/// Opens six sets, offers a seventh, and offers the last of each of the six.
fn holds_six(rt: &impl Abort, alloc: Global, joiner: &mut Joiner) -> Result<(), Fail> {
    offers_six(rt, alloc, joiner, 1, &OPENS)?;
    offers(rt, alloc, joiner, 0, &SEVENTH)?;
    same(rt, &"open sets", &joiner.open_count(), &6);
    offers_six(rt, alloc, joiner, 2, &LAST)
}

/// Six sets are open at a time, and a seventh is one too many.
#[test]
fn holds_six_open_sets(rt: HostRuntime) -> Result<(), Fail> {
    let mut joiner = Joiner::new(rt.alloc(), 6, 1)?;
    holds_six(&rt, rt.alloc(), &mut joiner)
}

/// What is offered at a moment.
struct At {
    now: u64,
    row: Row,
}

/// A set is opened, is there a second before its time, and then makes room.
static AGES: [At; 4] = [
    At {
        now: 5,
        row: Row {
            shows: "opens",
            from: "+1001",
            place: FIRST,
            piece: PieceUnits::Gsm("a"),
            want: Want::Kept,
        },
    },
    At {
        now: 604_804,
        row: Row {
            shows: "is there yet",
            from: "+1001",
            place: FIRST,
            piece: PieceUnits::Gsm("a"),
            want: Want::Repeat,
        },
    },
    At {
        now: 604_805,
        row: Row {
            shows: "has room",
            from: "+1001",
            place: FIRST_OF_8,
            piece: PieceUnits::Gsm("c"),
            want: Want::Kept,
        },
    },
    At {
        now: 604_805,
        row: Row {
            shows: "was dropped",
            from: "+1001",
            place: SECOND,
            piece: PieceUnits::Gsm("b"),
            want: Want::TooManyOpen,
        },
    },
];

/// Offers the rows of a table, and lets the joiner age to the moment of each.
fn ages(rt: &impl Abort, alloc: Global, joiner: &mut Joiner) -> Result<(), Fail> {
    for at in AGES.as_slice() {
        joiner.age(at.now);
        offers(rt, alloc, joiner, at.now, &at.row)?;
    }
    Ok(())
}

/// A set is dropped seven days after its first piece, whenever others came, and makes room.
#[test]
fn open_sets_age(rt: HostRuntime) -> Result<(), Fail> {
    let mut joiner = Joiner::new(rt.alloc(), 1, 1)?;
    ages(&rt, rt.alloc(), &mut joiner)
}

/// The segment of an index.
fn segment_at(alloc: Global, segments: &Segments, index: usize) -> Result<Segment, Fail> {
    match segments.get(index) {
        Some(segment) => Ok(segment.to_value(alloc)?),
        None => Err("no such segment".into()),
    }
}

/// Whether the set finishes as the text, where this segment is offered; none where it does not
/// finish.
fn finishes(
    joiner: &mut Joiner,
    origin: &Address,
    segment: Segment,
    text: &str,
) -> Result<Option<bool>, Fail> {
    let place = Concat {
        width: Width::Eight,
        reference: 7,
        maximum: segment.maximum,
        sequence: segment.sequence,
    };
    let stamp = Stamp::new([0; 7]);
    match joiner.offer(0, origin, stamp, checked(Some(place)), segment.units)? {
        Offer::Finished(found) => Ok(Some(found.as_str() == text)),
        _ => Ok(None),
    }
}

/// Whether the set finishes as the text, where the segment of an index is offered; none where it
/// does not finish.
fn finishes_at(
    alloc: Global,
    joiner: &mut Joiner,
    segments: &Segments,
    text: &str,
    index: usize,
) -> Result<Option<bool>, Fail> {
    let origin = Address::from_text(alloc, "+1001")?;
    let segment = segment_at(alloc, segments, index)?;
    finishes(joiner, &origin, segment, text)
}

/// How often the set finishes, and how often as the text, where the segments are offered in this
/// order.
fn times_finished(
    alloc: Global,
    joiner: &mut Joiner,
    segments: &Segments,
    text: &str,
    order: &[usize],
) -> Result<(usize, usize), Fail> {
    let mut times = 0_usize;
    let mut right = 0_usize;
    for index in order {
        if let Some(same) = finishes_at(alloc, joiner, segments, text, *index)? {
            times = times.saturating_add(1);
            right = right.saturating_add(usize::from(same));
        }
    }
    Ok((times, right))
}

/// How often the set finishes, and how often as the text, where a new joiner is offered the
/// segments in this order.
fn times_joined(
    alloc: Global,
    segments: &Segments,
    text: &str,
    order: &[usize],
) -> Result<(usize, usize), Fail> {
    let mut joiner = Joiner::new(alloc, 1, 1)?;
    times_finished(alloc, &mut joiner, segments, text, order)
}

/// The text finishes just once, where its segments are offered in this order.
fn finishes_once(
    rt: &impl Abort,
    alloc: Global,
    row: &impl Debug,
    segments: &Segments,
    text: &str,
    order: &[usize],
) -> Result<(), Fail> {
    let times = times_joined(alloc, segments, text, order)?;
    same(rt, row, &times, &(1, 1));
    Ok(())
}

/// The text finishes just once in each order.
fn finishes_in_orders(
    rt: &impl Abort,
    alloc: Global,
    segments: &Segments,
    text: &str,
) -> Result<(), Fail> {
    for order in ORDERS.as_slice() {
        finishes_once(rt, alloc, order, segments, text, order.as_slice())?;
    }
    Ok(())
}

/// Three segments in each order.
#[test]
fn joins_in_any_order(rt: HostRuntime) -> Result<(), Fail> {
    let text = letters(rt.alloc(), 307)?;
    let segments = cut_text(rt.alloc(), &text, Width::Eight)?;
    finishes_in_orders(&rt, rt.alloc(), &segments, &text)
}

/// The places of 255 segments, the last first.
fn reverse(alloc: Global) -> Result<Vec<usize>, AllocError> {
    let mut order = Vec::new(alloc);
    for place in 0..255 {
        order.push(254 - place)?;
    }
    Ok(order)
}

/// The places of 255 segments, mixed.
fn shuffled(alloc: Global) -> Result<Vec<usize>, AllocError> {
    let mut order = Vec::new(alloc);
    for place in 0..255 {
        order.push((101 * place + 7) % 255)?;
    }
    Ok(order)
}

/// The longest text, of as many segments as there can be, in an order.
fn joins_longest(rt: &impl Abort, alloc: Global, row: &str, order: &[usize]) -> Result<(), Fail> {
    let text = letters(alloc, 39_015)?;
    let segments = cut_text(alloc, &text, Width::Eight)?;
    finishes_once(rt, alloc, &row, &segments, &text, order)
}

/// As many segments as there can be, the last first and mixed.
#[test]
fn joins_as_many_as_there_can_be(rt: HostRuntime) -> Result<(), Fail> {
    let order = reverse(rt.alloc())?;
    joins_longest(&rt, rt.alloc(), "the last first", &order)?;
    let order = shuffled(rt.alloc())?;
    joins_longest(&rt, rt.alloc(), "mixed", &order)
}

/// What is offered after those, when no set is open any more.
static AFTER_THOSE: [Row; 3] = [
    Row {
        shows: "opens another",
        from: "+1001",
        place: FIRST_OF_8,
        piece: PieceUnits::Gsm("x"),
        want: Want::Kept,
    },
    Row {
        shows: "one set too many once more",
        from: "+1001",
        place: FIRST_OF_9,
        piece: PieceUnits::Gsm("z"),
        want: Want::TooManyOpen,
    },
    Row {
        shows: "both alphabets",
        from: "+1001",
        place: SECOND_OF_8,
        piece: PieceUnits::Ucs2(0x4F60),
        want: Want::Finished("x你"),
    },
];

/// Which of these rows the joiner answers otherwise than wanted, if any.
fn differs_in_turn(alloc: Global, joiner: &mut Joiner) -> Result<Option<&'static str>, AllocError> {
    let other = differs_from(alloc, joiner, IN_TURN.as_slice())?;
    if other.is_some() {
        return Ok(other);
    }
    differs_from(alloc, joiner, AFTER_THOSE.as_slice())
}

/// What is offered where many keys are remembered.
static REMEMBERED: [Row; 8] = [
    Row {
        shows: "alone",
        from: "+1001",
        place: None,
        piece: PieceUnits::Gsm("u"),
        want: Want::Finished("u"),
    },
    Row {
        shows: "alone from another",
        from: "+1002",
        place: None,
        piece: PieceUnits::Gsm("v"),
        want: Want::Finished("v"),
    },
    Row {
        shows: "remembered",
        from: "+1001",
        place: None,
        piece: PieceUnits::Gsm("u"),
        want: Want::Repeat,
    },
    Row {
        shows: "opens",
        from: "+1001",
        place: SECOND,
        piece: PieceUnits::Gsm("b"),
        want: Want::Kept,
    },
    Row {
        shows: "the last",
        from: "+1001",
        place: FIRST,
        piece: PieceUnits::Gsm("a"),
        want: Want::Finished("ab"),
    },
    Row {
        shows: "finished lately",
        from: "+1001",
        place: FIRST,
        piece: PieceUnits::Gsm("a"),
        want: Want::Repeat,
    },
    Row {
        shows: "under another reference",
        from: "+1001",
        place: FIRST_OF_8,
        piece: PieceUnits::Gsm("x"),
        want: Want::Kept,
    },
    Row {
        shows: "one set too many",
        from: "+1001",
        place: FIRST_OF_9,
        piece: PieceUnits::Gsm("z"),
        want: Want::TooManyOpen,
    },
];

/// Which of these rows a new joiner that remembers many keys answers otherwise than wanted, if any.
fn differs_remembering(alloc: Global) -> Result<Option<&'static str>, AllocError> {
    let mut joiner = Joiner::new(alloc, 1, 33)?;
    differs_from(alloc, &mut joiner, REMEMBERED.as_slice())
}

/// Which of these rows a new joiner answers otherwise than wanted, if any.
fn differs(alloc: Global) -> Result<Option<&'static str>, AllocError> {
    let mut joiner = Joiner::new(alloc, 1, 1)?;
    differs_in_turn(alloc, &mut joiner)
}

/// One growth is refused, whichever it is (docs/CONTRIBUTING.md says how): an offer that wants
/// memory has changed nothing, and the same offer is then answered as where none was refused.
#[test]
fn answers_after_a_refused_growth(rt: HostRuntime) -> Result<(), Fail> {
    let other = match differs(rt.alloc()) {
        Ok(other) => other,
        Err(_) => differs(rt.alloc())?,
    };
    same(&rt, &"answered otherwise", &other, &None);
    Ok(())
}

/// The same where so many keys are remembered that they are found by their hashes.
#[test]
fn remembers_after_a_refused_growth(rt: HostRuntime) -> Result<(), Fail> {
    let other = match differs_remembering(rt.alloc()) {
        Ok(other) => other,
        Err(_) => differs_remembering(rt.alloc())?,
    };
    same(&rt, &"answered otherwise", &other, &None);
    Ok(())
}
