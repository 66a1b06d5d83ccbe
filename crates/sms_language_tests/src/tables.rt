//! Each code of each table, read and written.

mod rows;

use crate::found::{is, is_septet};
use crate::tables::rows::{
    PORTUGUESE_LOCKING, PORTUGUESE_SINGLE, SPANISH_SINGLE, TURKISH_LOCKING, TURKISH_SINGLE,
};
use sms_language::{
    LOCKING_SHIFT, Locking, SINGLE_SHIFT, Single, Tables, septets_of_text, text_of_septets,
};
use std::alloc::Global;
use std::process::Abort;
use std::test::Fail;

/// A code of a table and its character.
pub type Entry = (u8, &'static str);

/// The tables of the default alphabet, of which an element of a header has changed one.
fn told(identifier: u8, language: u8) -> Tables {
    let default = Tables {
        locking: Locking::Default,
        single: Single::Default,
    };
    default.told_by(identifier, &[language])
}

/// The code alone is the character, and is what the character is written as.
fn is_locking(rt: &impl Abort, alloc: Global, tables: Tables, row: Entry) -> Result<(), Fail> {
    let (code, character) = row;
    is_septet(rt, character, code);
    let text = text_of_septets(alloc, &[code], tables)?;
    is(rt, character, text.as_str(), character);
    let septets = septets_of_text(alloc, character, tables)?;
    let found = septets.ok_or("no septets")?;
    is(rt, character, found.as_slice(), [code].as_slice());
    Ok(())
}

/// The code after the escape is the character.
fn is_single(rt: &impl Abort, alloc: Global, tables: Tables, row: Entry) -> Result<(), Fail> {
    let (code, character) = row;
    is_septet(rt, character, code);
    let text = text_of_septets(alloc, &[0x1B, code], tables)?;
    is(rt, character, text.as_str(), character);
    Ok(())
}

#[test]
fn turkish_locking(rt: HostRuntime) -> Result<(), Fail> {
    for entry in &TURKISH_LOCKING {
        is_locking(&rt, rt.alloc(), told(LOCKING_SHIFT, 1), *entry)?;
    }
    Ok(())
}

#[test]
fn portuguese_locking(rt: HostRuntime) -> Result<(), Fail> {
    for entry in &PORTUGUESE_LOCKING {
        is_locking(&rt, rt.alloc(), told(LOCKING_SHIFT, 3), *entry)?;
    }
    Ok(())
}

#[test]
fn turkish_single(rt: HostRuntime) -> Result<(), Fail> {
    for entry in &TURKISH_SINGLE {
        is_single(&rt, rt.alloc(), told(SINGLE_SHIFT, 1), *entry)?;
    }
    Ok(())
}

#[test]
fn spanish_single(rt: HostRuntime) -> Result<(), Fail> {
    for entry in &SPANISH_SINGLE {
        is_single(&rt, rt.alloc(), told(SINGLE_SHIFT, 2), *entry)?;
    }
    Ok(())
}

#[test]
fn portuguese_single(rt: HostRuntime) -> Result<(), Fail> {
    for entry in &PORTUGUESE_SINGLE {
        is_single(&rt, rt.alloc(), told(SINGLE_SHIFT, 3), *entry)?;
    }
    Ok(())
}

/// A language that has no such table changes nothing: Spanish has no locking shift table, and 4 is
/// none of the three.
#[test]
fn other_languages(rt: HostRuntime) -> Result<(), Fail> {
    is(&rt, "none", told(LOCKING_SHIFT, 2), told(SINGLE_SHIFT, 0));
    is(&rt, "none", told(LOCKING_SHIFT, 4), told(SINGLE_SHIFT, 4));
    is(&rt, "none", told(0x26, 1), told(0x00, 1));
    is(&rt, "none", told(0x26, 1).locking, Locking::Default);
    is(&rt, "none", told(0x26, 1).single, Single::Default);
    Ok(())
}
