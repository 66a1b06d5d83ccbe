//! Texts on both sides of each cut.

use crate::found::{holds, same};
use sms_join::SplitFault;
use sms_language::{Locking, Single, Tables};
use sms_national::{NationalSegments, cut_under};
use sms_tpdu::{Body, UserData, Width};
use std::alloc::{AllocError, Global};
use std::process::Abort;
use std::test::Fail;

pub const DEFAULT: Tables = Tables {
    locking: Locking::Default,
    single: Single::Default,
};

pub const TURKISH_SINGLE: Tables = Tables {
    locking: Locking::Default,
    single: Single::Turkish,
};

pub const TURKISH_LOCKING: Tables = Tables {
    locking: Locking::Turkish,
    single: Single::Default,
};

pub const TURKISH_BOTH: Tables = Tables {
    locking: Locking::Turkish,
    single: Single::Turkish,
};

pub const SPANISH: Tables = Tables {
    locking: Locking::Default,
    single: Single::Spanish,
};

pub const PORTUGUESE_SINGLE: Tables = Tables {
    locking: Locking::Default,
    single: Single::Portuguese,
};

pub const PORTUGUESE_LOCKING: Tables = Tables {
    locking: Locking::Portuguese,
    single: Single::Default,
};

pub const PORTUGUESE_BOTH: Tables = Tables {
    locking: Locking::Portuguese,
    single: Single::Portuguese,
};

/// A text: a letter a number of times, another text, and an `a` a number of times; and how many
/// septets its segments have with references of eight bits, and of sixteen.
struct Cut {
    tables: Tables,
    letter: &'static str,
    times: usize,
    then: &'static str,
    again: usize,
    eight: &'static [usize],
    sixteen: &'static [usize],
}

/// Texts on both sides of each cut: 160 septets, 155 with one element, 152 with two; beside a place
/// 153, 149 and 146, or 152, 148 and 145.
static CUTS: [Cut; 18] = [
    Cut {
        tables: DEFAULT,
        letter: "a",
        times: 160,
        then: "",
        again: 0,
        eight: &[160],
        sixteen: &[160],
    },
    Cut {
        tables: DEFAULT,
        letter: "a",
        times: 161,
        then: "",
        again: 0,
        eight: &[153, 8],
        sixteen: &[152, 9],
    },
    Cut {
        tables: TURKISH_SINGLE,
        letter: "a",
        times: 0,
        then: "",
        again: 0,
        eight: &[0],
        sixteen: &[0],
    },
    Cut {
        tables: TURKISH_SINGLE,
        letter: "a",
        times: 155,
        then: "",
        again: 0,
        eight: &[155],
        sixteen: &[155],
    },
    Cut {
        tables: TURKISH_SINGLE,
        letter: "a",
        times: 156,
        then: "",
        again: 0,
        eight: &[149, 7],
        sixteen: &[148, 8],
    },
    Cut {
        tables: TURKISH_SINGLE,
        letter: "a",
        times: 298,
        then: "",
        again: 0,
        eight: &[149, 149],
        sixteen: &[148, 148, 2],
    },
    Cut {
        tables: TURKISH_SINGLE,
        letter: "a",
        times: 148,
        then: "ş",
        again: 10,
        eight: &[148, 12],
        sixteen: &[148, 12],
    },
    Cut {
        tables: TURKISH_SINGLE,
        letter: "a",
        times: 147,
        then: "ş",
        again: 10,
        eight: &[149, 10],
        sixteen: &[147, 12],
    },
    Cut {
        tables: TURKISH_LOCKING,
        letter: "ş",
        times: 155,
        then: "",
        again: 0,
        eight: &[155],
        sixteen: &[155],
    },
    Cut {
        tables: TURKISH_LOCKING,
        letter: "ş",
        times: 156,
        then: "",
        again: 0,
        eight: &[149, 7],
        sixteen: &[148, 8],
    },
    Cut {
        tables: TURKISH_BOTH,
        letter: "ğ",
        times: 152,
        then: "",
        again: 0,
        eight: &[152],
        sixteen: &[152],
    },
    Cut {
        tables: TURKISH_BOTH,
        letter: "ğ",
        times: 153,
        then: "",
        again: 0,
        eight: &[146, 7],
        sixteen: &[145, 8],
    },
    Cut {
        tables: SPANISH,
        letter: "á",
        times: 77,
        then: "",
        again: 1,
        eight: &[155],
        sixteen: &[155],
    },
    Cut {
        tables: SPANISH,
        letter: "á",
        times: 78,
        then: "",
        again: 0,
        eight: &[148, 8],
        sixteen: &[148, 8],
    },
    Cut {
        tables: PORTUGUESE_SINGLE,
        letter: "ã",
        times: 78,
        then: "",
        again: 1,
        eight: &[148, 9],
        sixteen: &[148, 9],
    },
    Cut {
        tables: PORTUGUESE_LOCKING,
        letter: "ã",
        times: 156,
        then: "€",
        again: 0,
        eight: &[149, 8],
        sixteen: &[148, 9],
    },
    Cut {
        tables: PORTUGUESE_BOTH,
        letter: "ã",
        times: 145,
        then: "Φ",
        again: 6,
        eight: &[145, 8],
        sixteen: &[145, 8],
    },
    Cut {
        tables: PORTUGUESE_BOTH,
        letter: "ã",
        times: 144,
        then: "Φ",
        again: 7,
        eight: &[146, 7],
        sixteen: &[144, 9],
    },
];

/// A letter a number of times, and another text.
pub fn repeated(
    alloc: Global,
    letter: &str,
    count: usize,
    more: &str,
) -> Result<String, AllocError> {
    let mut text = String::new(alloc);
    for _ in 0..count {
        text.push_str(letter)?;
    }
    text.push_str(more)?;
    Ok(text)
}

/// The text of a row.
fn text_of(alloc: Global, row: &Cut) -> Result<String, AllocError> {
    let mut text = repeated(alloc, row.letter, row.times, row.then)?;
    for _ in 0..row.again {
        text.push_str("a")?;
    }
    Ok(text)
}

/// How many septets user data have after their header.
fn count_in(user: &UserData) -> usize {
    match &user.body {
        Body::Septets(septets) => septets.as_slice().len(),
        Body::Octets(_) => 0,
    }
}

/// How many septets each segment has, under reference 7.
pub fn counts_of(alloc: Global, segments: &NationalSegments) -> Result<Vec<usize>, AllocError> {
    let mut counts = Vec::new(alloc);
    for index in 0..segments.len() {
        if let Some(user) = segments.user(alloc, index, 7)? {
            counts.push(count_in(&user))?;
        }
    }
    Ok(counts)
}

/// How many septets each segment of a text has.
pub fn cut_counts(
    alloc: Global,
    text: &str,
    tables: Tables,
    width: Width,
) -> Result<Vec<usize>, Fail> {
    match cut_under(alloc, text, tables, width)? {
        Some(segments) => Ok(counts_of(alloc, &segments)?),
        None => Err("a character is in neither table".into()),
    }
}

/// A text has the segments of its row.
fn cuts(rt: &impl Abort, alloc: Global, text: &str, row: &Cut) -> Result<(), Fail> {
    let eight = cut_counts(alloc, text, row.tables, Width::Eight)?;
    let sixteen = cut_counts(alloc, text, row.tables, Width::Sixteen)?;
    same(rt, &("eight bits", text), &eight.as_slice(), &row.eight);
    same(
        rt,
        &("sixteen bits", text),
        &sixteen.as_slice(),
        &row.sixteen,
    );
    Ok(())
}

#[test]
fn cuts_texts(rt: HostRuntime) -> Result<(), Fail> {
    for row in CUTS.as_slice() {
        let text = text_of(rt.alloc(), row)?;
        cuts(&rt, rt.alloc(), &text, row)?;
    }
    Ok(())
}

/// How many segments so many letters have under the Turkish single shift table.
fn len_of(alloc: Global, count: usize) -> Result<usize, SplitFault> {
    let text = repeated(alloc, "a", count, "")?;
    match cut_under(alloc, &text, TURKISH_SINGLE, Width::Eight)? {
        Some(segments) => Ok(segments.len()),
        None => Ok(0),
    }
}

/// 255 times 149 septets.
#[test]
fn cuts_the_longest_text(rt: HostRuntime) {
    same(
        &rt,
        &"the longest",
        &len_of(rt.alloc(), 37_995).ok(),
        &Some(255),
    );
    let fault = len_of(rt.alloc(), 37_996).err();
    same(
        &rt,
        &"a letter more",
        &fault,
        &Some(SplitFault::TooManySegments),
    );
}

#[test]
fn cuts_no_text_without_septets(rt: HostRuntime) -> Result<(), Fail> {
    let found = cut_under(rt.alloc(), "aж", TURKISH_BOTH, Width::Eight)?;
    holds(&rt, &"aж", found.is_none());
    Ok(())
}
