//! The events of a script, and what they carry.

ghost use Rattle.std.specs.Prelude.{◌≡◌, IfOk};
ghost use Rattle.std.specs.String.{string_bytes};

use sms_field::{Address, Octets};
use std::alloc::{AllocError, Global};
use std::marker::Model;

/// An event. Phones are counted from 0, packets from 1.
#[derive(Debug, Drop)]
pub enum Event {
    /// A text is typed at a phone.
    Compose {
        phone: usize,
        /// Whom it is for (TP-DA).
        target: Address,
        text: Text,
    },
    /// The packet of this number is brought where it goes.
    Carry(u64),
    /// The phone has waited long enough for an answer.
    Timeout(usize),
    /// The centre is to hand a message to the phone.
    Push(usize),
    /// The clock goes on by these seconds.
    Tick(u64),
    /// Octets that nobody put out are brought up to the centre, as from the phone, or down to the
    /// phone.
    Inject {
        up: bool,
        phone: usize,
        octets: Octets,
    },
}

/// A text, which contracts see as its octets in UTF-8.
#[derive(Debug, Drop)]
pub struct Text {
    value: String,
}

impl Model for Text {
    ghost use Rattle.std.specs.Prelude.{List, ℕ};
    ghost use Rattle.std.specs.String.{string_bytes};

    ghost Value = { List ℕ };

    ghost view = { λ t. string_bytes t.value };
}

impl Text {
    /// A copy of the text.
    pub fn copy(alloc: Global, text: &str) -> Result<Text, AllocError>
        ensures { IfOk result (λ t. t ≡ text.now) }
    {
        let value = text.to_string(alloc)?;
        Ok(Text { value })
    }

    /// The text.
    pub fn as_str(&self) -> &str
        ensures { result.now ≡ self.now }
    {
        self.value.as_str()
    }

    /// The text itself.
    pub fn into_string(self) -> String
        ensures { string_bytes result ≡ self }
    {
        self.value
    }
}
