//! The alphabet of each coding scheme.

mod rows;

use crate::found::is;
use rows::{ROWS, Schemes};
use sms_field::{Alphabet, alphabet_of};
use std::process::Abort;

/// A coding scheme names this alphabet.
fn names(rt: &impl Abort, dcs: u8, alphabet: Alphabet) {
    is(rt, dcs, alphabet_of(dcs), alphabet);
}

/// The coding schemes of a row name its alphabet.
fn all_name(rt: &impl Abort, row: &Schemes) {
    for dcs in row.first..=row.last {
        names(rt, dcs, row.alphabet);
    }
}

/// A row begins here.
fn begins(rt: &impl Abort, first: u8, at: u16) {
    is(rt, first, u16::from(first), at);
}

/// The coding scheme after the last one of a row.
fn after(last: u8) -> u16 {
    u16::from(last) + 1
}

#[test]
fn every_coding_scheme(rt: HostRuntime) {
    let mut next = 0;
    for row in ROWS.as_slice() {
        begins(&rt, row.first, next);
        all_name(&rt, row);
        next = after(row.last);
    }
    is(&rt, "the end", next, 256);
}
