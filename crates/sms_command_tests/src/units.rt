//! Units that are shown and encoded, and words that are explained.

mod rows;

use crate::found::{
    Shown, are_answered, are_answered_after_a_centre, holds, is_answered, is_missed,
};
use rows::{
    ADDRESSES, AFTER_CENTRES, BREAKING, DELIVERIES, DELIVERY_FLAGS, ENCODE_WORDS, ENCODED_OPTIONS,
    ENCODED_TEXTS, Encoded, Explained, HELLO, HELLO_SHOWN, LONG_TEXTS, LongText, NO_ADDRESSES,
    NO_DELIVERIES, NO_OPTIONS, NO_SUBMISSIONS, NotEncoded, ORIGINS, PLACES, SHOW_WORDS,
    SPLIT_WORDS, STAMPS, SUBMISSIONS, TEXTS, VALIDITIES, WHOLE_SUBMISSIONS, WHOLE_WORDS,
};
use sms_command::command;
use sms_trial::{answer_to, answers_with, expanded, is_expanded, says};
use std::alloc::{AllocError, Global};
use std::process::Abort;
use std::test::Fail;

/// Whether octets are shown as a unit with these lines.
fn is_shown(alloc: Global, kind: &str, octets: &str, lines: &str) -> Result<bool, Fail> {
    answers_with(alloc, &["sms", "show", kind, octets], 0, lines)
}

/// The octets of each row are shown as a unit with its lines, and perhaps others.
fn are_shown(rt: &impl Abort, alloc: Global, kind: &str, rows: &[Shown]) -> Result<(), Fail> {
    for row in rows {
        let shown = is_shown(alloc, kind, row.octets, row.lines)?;
        holds(rt, &(kind, row.octets), shown);
    }
    Ok(())
}

#[test]
fn shows_flags_of_deliveries(rt: HostRuntime) -> Result<(), Fail> {
    are_shown(&rt, rt.alloc(), "deliver", DELIVERY_FLAGS.as_slice())
}

#[test]
fn shows_origins_of_deliveries(rt: HostRuntime) -> Result<(), Fail> {
    are_shown(&rt, rt.alloc(), "deliver", ORIGINS.as_slice())
}

#[test]
fn shows_stamps_of_deliveries(rt: HostRuntime) -> Result<(), Fail> {
    are_shown(&rt, rt.alloc(), "deliver", STAMPS.as_slice())
}

#[test]
fn shows_texts_of_deliveries(rt: HostRuntime) -> Result<(), Fail> {
    are_shown(&rt, rt.alloc(), "deliver", TEXTS.as_slice())
}

#[test]
fn shows_headers_of_deliveries(rt: HostRuntime) -> Result<(), Fail> {
    are_shown(&rt, rt.alloc(), "deliver", PLACES.as_slice())
}

#[test]
fn shows_submissions(rt: HostRuntime) -> Result<(), Fail> {
    are_shown(&rt, rt.alloc(), "submit", SUBMISSIONS.as_slice())
}

#[test]
fn shows_validities_of_submissions(rt: HostRuntime) -> Result<(), Fail> {
    are_shown(&rt, rt.alloc(), "submit", VALIDITIES.as_slice())
}

#[test]
fn shows_hellohello(rt: HostRuntime) -> Result<(), Fail> {
    let shown = is_answered(rt.alloc(), "deliver", HELLO, HELLO_SHOWN, 0)?;
    holds(&rt, &HELLO, shown);
    Ok(())
}

#[test]
fn shows_whole_deliveries(rt: HostRuntime) -> Result<(), Fail> {
    are_answered(&rt, rt.alloc(), "deliver", DELIVERIES.as_slice(), 0)
}

#[test]
fn shows_whole_submissions(rt: HostRuntime) -> Result<(), Fail> {
    are_answered(&rt, rt.alloc(), "submit", WHOLE_SUBMISSIONS.as_slice(), 0)
}

#[test]
fn shows_what_stands_after_a_centre(rt: HostRuntime) -> Result<(), Fail> {
    are_answered_after_a_centre(&rt, rt.alloc(), AFTER_CENTRES.as_slice())
}

#[test]
fn refuses_what_is_no_delivery(rt: HostRuntime) -> Result<(), Fail> {
    are_answered(&rt, rt.alloc(), "deliver", NO_DELIVERIES.as_slice(), 1)
}

#[test]
fn refuses_what_is_no_submission(rt: HostRuntime) -> Result<(), Fail> {
    are_answered(&rt, rt.alloc(), "submit", NO_SUBMISSIONS.as_slice(), 1)
}

#[test]
fn misses_each_octet_of_a_delivery(rt: HostRuntime) -> Result<(), Fail> {
    for place in 0..28 {
        let front = HELLO.get(..2 * place).ok_or("no front")?;
        let missed = is_missed(rt.alloc(), "deliver", front)?;
        holds(&rt, &front, missed);
    }
    Ok(())
}

/// Whether words have the status of a row, and its part in their answer.
fn is_explained(alloc: Global, row: &Explained) -> Result<bool, Fail> {
    answers_with(alloc, row.words, row.status, row.part)
}

/// The words of each row have its status, and its part in their answer.
fn are_explained(rt: &impl Abort, alloc: Global, rows: &[Explained]) -> Result<(), Fail> {
    for row in rows {
        let explained = is_explained(alloc, row)?;
        holds(rt, &row.words, explained);
    }
    Ok(())
}

#[test]
fn explains_the_words(rt: HostRuntime) -> Result<(), Fail> {
    are_explained(&rt, rt.alloc(), WHOLE_WORDS.as_slice())
}

#[test]
fn explains_the_words_of_show(rt: HostRuntime) -> Result<(), Fail> {
    are_explained(&rt, rt.alloc(), SHOW_WORDS.as_slice())
}

#[test]
fn explains_the_words_of_encode(rt: HostRuntime) -> Result<(), Fail> {
    are_explained(&rt, rt.alloc(), ENCODE_WORDS.as_slice())
}

#[test]
fn explains_the_words_of_split(rt: HostRuntime) -> Result<(), Fail> {
    are_explained(&rt, rt.alloc(), SPLIT_WORDS.as_slice())
}

#[test]
fn fails_where_the_output_is_full(rt: HostRuntime) -> Result<(), Fail> {
    let words = ["sms", "show", "deliver", HELLO].as_slice();
    for room in 0..HELLO_SHOWN.len() {
        let mut space = [0; 400];
        let mut input = b"".as_slice();
        let mut output = &mut space[..room];
        let status = command(rt.alloc(), words, &mut input, &mut output);
        holds(&rt, &room, status == 3);
    }
    Ok(())
}

/// The words that ask for a unit.
fn words_of<'a>(
    alloc: Global,
    kind: &'a str,
    options: &[&'a str],
    address: &'a str,
    text: &'a str,
) -> Result<Vec<&'a str>, AllocError> {
    let mut words = Vec::from_slice(alloc, &["sms", "encode", kind])?;
    words.extend_from_slice(options)?;
    words.extend_from_slice(&["--", address, text])?;
    Ok(words)
}

/// The status and the answer to `encode`.
fn encoding_of(
    alloc: Global,
    kind: &str,
    options: &[&str],
    address: &str,
    text: &str,
) -> Result<(u8, String), Fail> {
    let words = words_of(alloc, kind, options, address, text)?;
    let answered = answer_to(alloc, words.as_slice());
    drop(words);
    answered
}

/// Whether an answer is this line.
fn is_line(answer: &str, line: &str) -> bool {
    answer.strip_suffix('\n') == Some(line)
}

/// Whether words are encoded as the octets of a row.
fn is_encoded(alloc: Global, row: &Encoded) -> Result<bool, Fail> {
    let (status, answer) = encoding_of(alloc, row.kind, row.options, row.address, row.text)?;
    Ok(status == 0 && is_line(&answer, row.octets))
}

/// Whether lines have one of this name with this value, and not as the first.
fn has_line(alloc: Global, lines: &str, name: &str, value: &str) -> Result<bool, AllocError> {
    let line = ["\n", name, ": ", value, "\n"].concat(alloc)?;
    Ok(says(lines, &line))
}

/// Whether the lines of a kind of unit have this address and this text.
fn have_both(
    alloc: Global,
    lines: &str,
    kind: &str,
    address: &str,
    text: &str,
) -> Result<bool, AllocError> {
    let party = if kind == "submit" { "to" } else { "from" };
    Ok(has_line(alloc, lines, party, address)? && has_line(alloc, lines, "text", text)?)
}

/// Whether the octets of a row are shown with this address and this text.
fn comes_back(alloc: Global, row: &Encoded, address: &str, text: &str) -> Result<bool, Fail> {
    let (status, lines) = answer_to(alloc, &["sms", "show", row.kind, row.octets])?;
    let both = have_both(alloc, &lines, row.kind, address, text);
    drop(lines);
    Ok(both? && status == 0)
}

/// Whether a row of what cannot be encoded gives its status and its line.
fn is_refused(alloc: Global, row: &NotEncoded) -> Result<bool, Fail> {
    let (status, answer) = encoding_of(alloc, row.kind, row.options, row.address, row.text)?;
    Ok(status == row.status && is_line(&answer, row.line))
}

/// The words of each row are encoded as its octets, and these are shown as what went in.
fn are_encoded(rt: &impl Abort, alloc: Global, rows: &[Encoded]) -> Result<(), Fail> {
    for row in rows {
        let encoded = is_encoded(alloc, row)?;
        let shown = comes_back(alloc, row, row.address, row.text)?;
        holds(rt, &(row.address, row.text), encoded && shown);
    }
    Ok(())
}

#[test]
fn encodes_addresses(rt: HostRuntime) -> Result<(), Fail> {
    are_encoded(&rt, rt.alloc(), ADDRESSES.as_slice())
}

#[test]
fn encodes_options(rt: HostRuntime) -> Result<(), Fail> {
    are_encoded(&rt, rt.alloc(), ENCODED_OPTIONS.as_slice())
}

#[test]
fn encodes_texts(rt: HostRuntime) -> Result<(), Fail> {
    are_encoded(&rt, rt.alloc(), ENCODED_TEXTS.as_slice())
}

#[test]
fn escapes_what_would_break_a_line(rt: HostRuntime) -> Result<(), Fail> {
    for row in BREAKING.as_slice() {
        let encoded = is_encoded(rt.alloc(), &row.unit)?;
        let shown = comes_back(rt.alloc(), &row.unit, row.address, row.text)?;
        holds(&rt, &(row.address, row.text), encoded && shown);
    }
    Ok(())
}

/// The words of each row have its status and its line.
fn are_refused(rt: &impl Abort, alloc: Global, rows: &[NotEncoded]) -> Result<(), Fail> {
    for row in rows {
        let refused = is_refused(alloc, row)?;
        holds(rt, &(row.address, row.text), refused);
    }
    Ok(())
}

#[test]
fn refuses_what_is_no_address(rt: HostRuntime) -> Result<(), Fail> {
    are_refused(&rt, rt.alloc(), NO_ADDRESSES.as_slice())
}

#[test]
fn refuses_what_is_no_option(rt: HostRuntime) -> Result<(), Fail> {
    are_refused(&rt, rt.alloc(), NO_OPTIONS.as_slice())
}

/// The status and the answer to `encode` for a text of parts.
fn encoding_of_long(alloc: Global, row: &LongText) -> Result<(u8, String), Fail> {
    let text = expanded(alloc, row.text)?;
    let encoding = encoding_of(alloc, row.kind, &[], "", &text);
    drop(text);
    encoding
}

/// Whether a text of parts has the status and the answer of a row.
fn is_long(alloc: Global, row: &LongText) -> Result<bool, Fail> {
    let (status, answer) = encoding_of_long(alloc, row)?;
    let told = is_expanded(alloc, &answer, row.answer);
    drop(answer);
    Ok(told? && status == row.status)
}

#[test]
fn encodes_what_fits_one_piece(rt: HostRuntime) -> Result<(), Fail> {
    for row in LONG_TEXTS.as_slice() {
        let told = is_long(rt.alloc(), row)?;
        holds(&rt, &(row.kind, row.text), told);
    }
    Ok(())
}
