//! Texts that are split into segments.

mod rows;

use crate::found::holds;
use rows::{
    Greatest, IN_ONE_PIECE, IN_PIECES, REFERENCES, Split, TOO_MANY, WIDE_IN_ONE_PIECE,
    WIDE_IN_PIECES,
};
use sms_trial::{answer_to, answers, expanded, is_expanded, says};
use std::alloc::Global;
use std::process::Abort;
use std::test::Fail;

/// The status and the answer for a text with a reference.
fn splitting_of(alloc: Global, reference: &str, text: &str) -> Result<(u8, String), Fail> {
    let text = expanded(alloc, text)?;
    let answered = answer_to(alloc, &["sms", "split", "--ref", reference, "--", &text]);
    drop(text);
    answered
}

/// Whether a text is split into segments with a reference.
fn is_split(alloc: Global, reference: &str, text: &str, lines: &str) -> Result<bool, Fail> {
    let (status, answer) = splitting_of(alloc, reference, text)?;
    let split = is_expanded(alloc, &answer, lines);
    drop(answer);
    Ok(split? && status == 0)
}

/// The text of each row is split into its segments.
fn are_split(rt: &impl Abort, alloc: Global, rows: &[Split]) -> Result<(), Fail> {
    for row in rows {
        let split = is_split(alloc, "0", row.text, row.lines)?;
        holds(rt, &row.text, split);
    }
    Ok(())
}

#[test]
fn splits_texts_in_one_piece(rt: HostRuntime) -> Result<(), Fail> {
    are_split(&rt, rt.alloc(), IN_ONE_PIECE.as_slice())
}

#[test]
fn splits_texts_in_pieces(rt: HostRuntime) -> Result<(), Fail> {
    are_split(&rt, rt.alloc(), IN_PIECES.as_slice())
}

#[test]
fn splits_wide_texts_in_one_piece(rt: HostRuntime) -> Result<(), Fail> {
    are_split(&rt, rt.alloc(), WIDE_IN_ONE_PIECE.as_slice())
}

#[test]
fn splits_wide_texts_in_pieces(rt: HostRuntime) -> Result<(), Fail> {
    are_split(&rt, rt.alloc(), WIDE_IN_PIECES.as_slice())
}

#[test]
fn splits_with_references(rt: HostRuntime) -> Result<(), Fail> {
    for row in REFERENCES.as_slice() {
        let split = is_split(rt.alloc(), row.reference, row.text, row.lines)?;
        holds(&rt, &row.text, split);
    }
    Ok(())
}

/// Whether a text has a status and an answer.
fn is_cut(alloc: Global, text: &str, wanted: u8, lines: &str) -> Result<bool, Fail> {
    answers(alloc, &["sms", "split", text], wanted, lines)
}

/// Whether a text is split into 255 segments, and the line of the last one begins so.
fn has_last(alloc: Global, text: &str, last: &str) -> Result<bool, Fail> {
    let (status, answer) = answer_to(alloc, &["sms", "split", text])?;
    Ok(status == 0 && answer.lines().count() == 255 && says(&answer, last))
}

/// Whether a text has 255 segments, and has too many with one more character.
fn has_no_room(alloc: Global, text: &mut String, row: &Greatest) -> Result<bool, Fail> {
    let split = has_last(alloc, text, row.last)?;
    text.push_str(row.character)?;
    Ok(split && is_cut(alloc, text, 1, "too many segments\n")?)
}

/// Whether as many characters as a row tells have 255 segments, and one more has too many.
fn is_greatest(alloc: Global, row: &Greatest) -> Result<bool, Fail> {
    let mut text = row.character.repeat(alloc, row.count)?;
    let full = has_no_room(alloc, &mut text, row);
    drop(text);
    full
}

#[test]
fn refuses_more_than_255_segments(rt: HostRuntime) -> Result<(), Fail> {
    for row in TOO_MANY.as_slice() {
        let greatest = is_greatest(rt.alloc(), row)?;
        holds(&rt, &row.character, greatest);
    }
    Ok(())
}
