//! Units that are shown line by line, and words whose faults are explained.

mod listing;
mod rows;

use crate::found::holds;
use listing::{LISTED, LISTING, Listed};
use rows::{EXPLAINED, LINES};
use sms_trial::{Slow, are_fed, fed_from, fed_with, is_fed, says};
use std::alloc::{AllocError, Global};
use std::test::Fail;

#[test]
fn shows_lines(rt: HostRuntime) -> Result<(), Fail> {
    are_fed(rt.alloc(), LINES.as_slice())
}

#[test]
fn explains_faults(rt: HostRuntime) -> Result<(), Fail> {
    are_fed(rt.alloc(), EXPLAINED.as_slice())
}

/// Octets of a line that are no digits, and what is told of them: the first of two that are wrong,
/// one behind blanks, a blank within an octet, one that stands as an escape, octets that are no
/// UTF-8, there or behind, and a digit that is missing.
static WRONG: [(&[u8], &str); 9] = [
    (b"04gz", "line 1: bad hex at 2: g\n"),
    (b"04 \xC3\xA9", "line 1: bad hex at 3: é\n"),
    (b"0 4", "line 1: bad hex at 1:  \n"),
    (b"0\x00", "line 1: bad hex at 1: \\x00\n"),
    (b"04\\", "line 1: bad hex at 2: \\\\\n"),
    (b"04\x80", "line 1: bad hex at 2: \u{FFFD}\n"),
    (b"04x\xFF", "line 1: bad hex at 2: \u{FFFD}\n"),
    (b"04 0", "line 1: bad hex at 4: the end\n"),
    (b"040", "line 1: bad hex at 3: the end\n"),
];

/// Whether this is told of a line whose digits are wrong.
fn is_wrong(alloc: Global, line: &[u8], wanted: &str) -> Result<bool, Fail> {
    let mut input = line;
    let words = ["sms", "show", "deliver", "--lines", "--explain"];
    let (status, told) = fed_from(alloc, &words, &mut input)?;
    Ok(status == 1 && told.as_str() == wanted)
}

#[test]
fn explains_digits_that_are_wrong(rt: HostRuntime) -> Result<(), Fail> {
    for (line, wanted) in &WRONG {
        let told = is_wrong(rt.alloc(), line, wanted)?;
        holds(&rt, wanted, told);
    }
    Ok(())
}

/// Whether what is shown of a unit is from this sender, and has this date and this text.
fn is_listed(alloc: Global, shown: &str, listed: &Listed) -> Result<bool, AllocError> {
    let from = ["\nfrom: ", listed.from, "\n"].concat(alloc)?;
    let has_from = says(shown, &from);
    drop(from);
    Ok(has_from && is_dated(alloc, shown, listed)?)
}

/// Whether what is shown of a unit has this date and this text.
fn is_dated(alloc: Global, shown: &str, listed: &Listed) -> Result<bool, AllocError> {
    let date = ["\nstamp: ", listed.date, " +00:00\n"].concat(alloc)?;
    let has_date = says(shown, &date);
    drop(date);
    Ok(has_date && ends_in_text(alloc, shown, listed)?)
}

/// Whether what is shown of a unit ends in this text.
fn ends_in_text(alloc: Global, shown: &str, listed: &Listed) -> Result<bool, AllocError> {
    let text = ["\ntext: ", listed.text].concat(alloc)?;
    let ends = shown.trim_ascii_end().ends_with(text.as_str());
    drop(text);
    Ok(ends)
}

#[test]
fn shows_a_listing_of_27_units(rt: HostRuntime) -> Result<(), Fail> {
    let words = ["sms", "show", "deliver", "--lines", "--sca"];
    let (status, output) = fed_with(rt.alloc(), &words, LISTING)?;
    holds(&rt, &"status", status == 0);
    let mut units = output.split("\n\n");
    for listed in LISTED.as_slice() {
        let unit = units.next().unwrap_or("");
        let known = is_listed(rt.alloc(), unit, listed)?;
        holds(&rt, &listed.from, known);
    }
    holds(&rt, &"end", units.next().is_none());
    Ok(())
}

/// The status and the whole output of the listing, read so many octets at a time.
fn listing_by(alloc: Global, most: usize) -> Result<(u8, String), Fail> {
    let words = ["sms", "show", "deliver", "--lines", "--sca", "--json"];
    let mut input = Slow {
        octets: LISTING.as_bytes(),
        most,
        is_interrupted: false,
    };
    fed_from(alloc, &words, &mut input)
}

/// Whether the listing is told as at once, where it is read so many octets at a time.
fn is_same_by(alloc: Global, most: usize, whole: &str) -> Result<bool, Fail> {
    let (status, output) = listing_by(alloc, most)?;
    Ok(status == 0 && output.as_str() == whole)
}

#[test]
fn shows_the_same_however_it_is_read(rt: HostRuntime) -> Result<(), Fail> {
    let (_, whole) = listing_by(rt.alloc(), 100_000)?;
    for most in [1, 2, 7, 100, 1_000] {
        let same = is_same_by(rt.alloc(), most, &whole)?;
        holds(&rt, &most, same);
    }
    Ok(())
}

/// Whether a line of so many letters is told as too long or as no digits, and the next one is
/// taken.
fn is_long_line(alloc: Global, count: usize, fault: &str) -> Result<bool, Fail> {
    let line = "x".repeat(alloc, count)?;
    let input = [line.as_str(), "\n-\n"].concat(alloc)?;
    drop(line);
    let told = ["line 1: ", fault, "\n\nline 2: at 0: short\n"].concat(alloc)?;
    let words = ["sms", "show", "deliver", "--lines"];
    let fed = is_fed(alloc, &words, &input, 1, &told);
    drop(told);
    drop(input);
    fed
}

#[test]
fn passes_over_lines_that_are_too_long(rt: HostRuntime) -> Result<(), Fail> {
    for (count, fault) in [
        (4_096, "bad hex"),
        (4_097, "line too long"),
        (65_536, "line too long"),
        (70_000, "line too long"),
        (200_000, "line too long"),
    ] {
        let told = is_long_line(rt.alloc(), count, fault)?;
        holds(&rt, &count, told);
    }
    Ok(())
}
