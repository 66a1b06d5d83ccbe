//! Texts on both sides of each cut.

use crate::found::{holds, same};
use sms_join::{Segment, Segments, SplitFault, Units, cut_text, read_units, split};
use sms_tpdu::Width;
use std::alloc::{AllocError, Global};
use std::process::Abort;
use std::test::Fail;

/// A text: a letter a number of times, another text, and the letter a number of times; and how many
/// units its segments have with references of eight bits, and of sixteen.
pub struct Cut {
    pub letter: &'static str,
    pub times: usize,
    pub then: &'static str,
    again: usize,
    eight: &'static [usize],
    sixteen: &'static [usize],
}

/// Texts on both sides of each cut.
pub static CUTS: [Cut; 15] = [
    Cut {
        letter: "a",
        times: 0,
        then: "",
        again: 0,
        eight: &[0],
        sixteen: &[0],
    },
    Cut {
        letter: "a",
        times: 160,
        then: "",
        again: 0,
        eight: &[160],
        sixteen: &[160],
    },
    Cut {
        letter: "a",
        times: 161,
        then: "",
        again: 0,
        eight: &[153, 8],
        sixteen: &[152, 9],
    },
    Cut {
        letter: "a",
        times: 306,
        then: "",
        again: 0,
        eight: &[153, 153],
        sixteen: &[152, 152, 2],
    },
    Cut {
        letter: "a",
        times: 151,
        then: "€",
        again: 10,
        eight: &[153, 10],
        sixteen: &[151, 12],
    },
    Cut {
        letter: "a",
        times: 152,
        then: "€",
        again: 10,
        eight: &[152, 12],
        sixteen: &[152, 12],
    },
    Cut {
        letter: "a",
        times: 158,
        then: "€",
        again: 0,
        eight: &[160],
        sixteen: &[160],
    },
    Cut {
        letter: "a",
        times: 159,
        then: "€",
        again: 0,
        eight: &[153, 8],
        sixteen: &[152, 9],
    },
    Cut {
        letter: "ж",
        times: 70,
        then: "",
        again: 0,
        eight: &[70],
        sixteen: &[70],
    },
    Cut {
        letter: "ж",
        times: 71,
        then: "",
        again: 0,
        eight: &[67, 4],
        sixteen: &[66, 5],
    },
    Cut {
        letter: "ж",
        times: 134,
        then: "",
        again: 0,
        eight: &[67, 67],
        sixteen: &[66, 66, 2],
    },
    Cut {
        letter: "ж",
        times: 65,
        then: "😀",
        again: 4,
        eight: &[67, 4],
        sixteen: &[65, 6],
    },
    Cut {
        letter: "ж",
        times: 66,
        then: "😀",
        again: 3,
        eight: &[66, 5],
        sixteen: &[66, 5],
    },
    Cut {
        letter: "ж",
        times: 68,
        then: "😀",
        again: 0,
        eight: &[70],
        sixteen: &[70],
    },
    Cut {
        letter: "ж",
        times: 671,
        then: "",
        again: 0,
        eight: &[67, 67, 67, 67, 67, 67, 67, 67, 67, 67, 1],
        sixteen: &[66, 66, 66, 66, 66, 66, 66, 66, 66, 66, 11],
    },
];

/// A letter a number of times, and another text.
pub fn repeated(
    alloc: Global,
    letter: &str,
    count: usize,
    more: &str,
) -> Result<String, AllocError> {
    let mut text = String::new(alloc);
    for _ in 0..count {
        text.push_str(letter)?;
    }
    text.push_str(more)?;
    Ok(text)
}

/// The text of a row.
fn text_of(alloc: Global, row: &Cut) -> Result<String, AllocError> {
    let mut text = repeated(alloc, row.letter, row.times, row.then)?;
    for _ in 0..row.again {
        text.push_str(row.letter)?;
    }
    Ok(text)
}

/// The units of segments.
fn pieces_of(alloc: Global, segments: Vec<Segment>) -> Result<Vec<Units>, AllocError> {
    let mut pieces = Vec::new(alloc);
    for segment in segments {
        pieces.push(segment.units)?;
    }
    Ok(pieces)
}

/// Whether there are as many pieces as counts, of these numbers of units.
fn have_counts(pieces: &[Units], counts: &[usize]) -> bool {
    pieces.len() == counts.len()
        && pieces
            .iter()
            .zip(counts.iter())
            .all(|(piece, count)| piece.len() == *count)
}

/// Whether the text has segments of these numbers of units, and they are read as the text.
fn is_cut(alloc: Global, text: &str, width: Width, counts: &[usize]) -> Result<bool, SplitFault> {
    let segments = split(alloc, text, width)?;
    let pieces = pieces_of(alloc, segments)?;
    let read = read_units(alloc, &pieces)?;
    Ok(have_counts(&pieces, counts) && read.as_str() == text)
}

/// A text has the segments of its row.
fn cuts(rt: &impl Abort, alloc: Global, text: &str, row: &Cut) -> Result<(), Fail> {
    let eight = is_cut(alloc, text, Width::Eight, row.eight)?;
    let sixteen = is_cut(alloc, text, Width::Sixteen, row.sixteen)?;
    holds(rt, &("eight bits", text), eight);
    holds(rt, &("sixteen bits", text), sixteen);
    Ok(())
}

#[test]
fn cuts_texts(rt: HostRuntime) -> Result<(), Fail> {
    for row in CUTS.as_slice() {
        let text = text_of(rt.alloc(), row)?;
        cuts(&rt, rt.alloc(), &text, row)?;
    }
    Ok(())
}

/// The last of 255 segments is there, and no other after it.
fn are_255(rt: &impl Abort, segments: &Segments) {
    let last = segments
        .get(254)
        .map(|last| (last.sequence(), last.maximum()));
    same(rt, &"the last", &last, &Some((255, 255)));
    holds(rt, &"no other", segments.get(255).is_none());
}

/// The segments of 39,015 letters and another text.
fn segments_of(alloc: Global, more: &str) -> Result<Segments, SplitFault> {
    let text = repeated(alloc, "a", 39_015, more)?;
    cut_text(alloc, &text, Width::Eight)
}

#[test]
fn cuts_the_longest_text(rt: HostRuntime) -> Result<(), Fail> {
    let segments = segments_of(rt.alloc(), "")?;
    are_255(&rt, &segments);
    Ok(())
}

#[test]
fn refuses_a_longer_text(rt: HostRuntime) {
    let fault = segments_of(rt.alloc(), "a").err();
    same(
        &rt,
        &"a letter more",
        &fault,
        &Some(SplitFault::TooManySegments),
    );
}

#[test]
fn splits_no_longer_text(rt: HostRuntime) -> Result<(), Fail> {
    let text = repeated(rt.alloc(), "a", 39_015, "a")?;
    let fault = split(rt.alloc(), &text, Width::Eight).err();
    same(
        &rt,
        &"a letter more",
        &fault,
        &Some(SplitFault::TooManySegments),
    );
    Ok(())
}

/// Whether such a text has segments of these numbers of units, and they are read as the text.
fn is_repeated_cut(
    alloc: Global,
    letter: &str,
    times: usize,
    then: &str,
    counts: &[usize],
) -> Result<bool, SplitFault> {
    let text = repeated(alloc, letter, times, then)?;
    is_cut(alloc, &text, Width::Eight, counts)
}

/// The same, asked once more where memory ran out.
fn is_cut_at_last(
    alloc: Global,
    letter: &str,
    times: usize,
    then: &str,
    counts: &[usize],
) -> Result<bool, SplitFault> {
    match is_repeated_cut(alloc, letter, times, then, counts) {
        Ok(cut) => Ok(cut),
        Err(_) => is_repeated_cut(alloc, letter, times, then, counts),
    }
}

/// One growth is refused, whichever it is (docs/CONTRIBUTING.md says how): the text is then cut as
/// where none was refused.
#[test]
fn cuts_after_a_refused_growth(rt: HostRuntime) -> Result<(), Fail> {
    let gsm = is_cut_at_last(rt.alloc(), "a", 161, "", &[153, 8])?;
    let ucs2 = is_cut_at_last(rt.alloc(), "ж", 65, "😀жжжж", &[67, 4])?;
    holds(&rt, &"GSM", gsm);
    holds(&rt, &"UCS-2", ucs2);
    Ok(())
}
