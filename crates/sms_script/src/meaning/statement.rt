//! What a line of a script says.

ghost use Rattle.std.specs.Prelude.{◌≡◌};
ghost use Rattle.sms_script.specs.Meaning.Limits.{greatest};

use crate::meaning::event::{Event, Text};
use sms_field::Address;

/// How many messages the centre holds.
pub const HELD_LIMIT: u64 = 1_000;

/// How many sets of a phone are open.
pub const OPEN_LIMIT: u64 = 16;

/// How many keys a phone remembers.
pub const REMEMBERED_LIMIT: u64 = 32;

/// How many texts the store of a phone holds.
pub const STORE_LIMIT: u64 = 500;

/// A limit that a script may make smaller.
#[derive(Clone, Copy, Debug, PartialEq, Eq)]
pub enum Limit {
    /// Messages held by the centre.
    Held,
    /// Open sets of a phone.
    Open,
    /// Remembered keys of a phone.
    Remembered,
    /// Texts in the store of a phone.
    Store,
}

impl Limit {
    /// How far the table goes where a script does not make it smaller.
    pub fn greatest(self) -> u64
        ensures { result ≡ greatest self }
    {
        match self {
            Limit::Held => HELD_LIMIT,
            Limit::Open => OPEN_LIMIT,
            Limit::Remembered => REMEMBERED_LIMIT,
            Limit::Store => STORE_LIMIT,
        }
    }
}

/// A phone, as a script declares it.
#[derive(Debug, Drop)]
pub struct Phone {
    pub name: Text,
    pub address: Address,
}

/// What a line says.
#[derive(Debug, Drop)]
pub enum Statement {
    /// An empty line, or a comment.
    Nothing,
    Limit(Limit, u64),
    /// Where the clock stands at the start, in seconds since 2000-01-01 00:00:00 UTC.
    Clock(u64),
    /// Packets are printed as their length.
    Brief,
    /// Segments have references of 16 bits.
    Wide,
    /// Duplicates are to be rejected from the first submission on.
    Reject,
    Phone(Phone),
    Event(Event),
}
