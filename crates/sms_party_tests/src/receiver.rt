//! Packets that come to a phone.

ghost use Rattle.std.specs.Prelude.{◌<◌};

mod growths;
mod rows;

use crate::answer::{is_answer, none_differs};
use crate::receiver::rows::{AGES, FULL, FULL_STORE, REFUSALS, Row, TEXTS, WIDTHS};
use sms_party::{Entry, Receiver};
use std::alloc::Global;
use std::process::Abort;
use std::test::Fail;

/// How much a phone holds.
struct Limits {
    open_max: usize,
    remembered: usize,
    store: usize,
    ghost some_sets: { 0 < open_max },
    ghost some_keys: { 0 < remembered },
}

/// Whether a store has these texts.
fn has_texts(store: &[Entry], texts: &[&str]) -> bool {
    for (entry, text) in store.iter().zip(texts) {
        if entry.text.as_str() != *text {
            return false;
        }
    }
    store.len() == texts.len()
}

/// Whether a row is answered as it says, by a phone that ages before it.
fn is_answered(phone: &mut Receiver, row: &Row) -> bool {
    phone.age(row.now);
    let told = phone.receive(row.now, row.octets);
    is_answer(&told, row.answer, row.packets) && has_texts(phone.store(), row.store)
}

/// Plays the rows, and says which one is answered otherwise, if any is.
fn differs(phone: &mut Receiver, rows: &[Row]) -> Option<&'static str> {
    for row in rows {
        if !is_answered(phone, row) {
            return Some(row.name);
        }
    }
    None
}

/// The rows are answered as they say, by a new phone.
fn plays(rt: &impl Abort, alloc: Global, limits: &Limits, rows: &[Row]) -> Result<(), Fail> {
    let mut phone = Receiver::new(alloc, limits.open_max, limits.remembered, limits.store)?;
    none_differs(rt, differs(&mut phone, rows));
    Ok(())
}

/// Room for as many as there may be.
const MANY: Limits = Limits {
    open_max: 16,
    remembered: 32,
    store: 500,
};

/// Room for one of each.
const ONE: Limits = Limits {
    open_max: 1,
    remembered: 1,
    store: 1,
};

#[test]
fn refuses_what_is_no_text(rt: HostRuntime) -> Result<(), Fail> {
    plays(&rt, rt.alloc(), &MANY, REFUSALS.as_slice())
}

#[test]
fn stores_texts(rt: HostRuntime) -> Result<(), Fail> {
    plays(&rt, rt.alloc(), &MANY, TEXTS.as_slice())
}

#[test]
fn stores_texts_of_each_width(rt: HostRuntime) -> Result<(), Fail> {
    plays(&rt, rt.alloc(), &MANY, WIDTHS.as_slice())
}

#[test]
fn refuses_what_has_no_room(rt: HostRuntime) -> Result<(), Fail> {
    plays(&rt, rt.alloc(), &ONE, FULL.as_slice())
}

#[test]
fn refuses_what_a_full_store_has_no_room_for(rt: HostRuntime) -> Result<(), Fail> {
    plays(&rt, rt.alloc(), &ONE, FULL_STORE.as_slice())
}

#[test]
fn drops_old_sets(rt: HostRuntime) -> Result<(), Fail> {
    plays(&rt, rt.alloc(), &ONE, AGES.as_slice())
}
