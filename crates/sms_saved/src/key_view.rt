//! Keys whose addresses are lent.

ghost use Rattle.std.specs.Prelude.{◌≡◌};
ghost use Rattle.sms_saved.specs.Fits.{KeyFits};
ghost use Rattle.sms_saved.specs.Views.{seen_key};

use crate::address::AddressOctets;
use crate::state::{Key, Message};

/// What a message is known by, with its addresses where they lie.
#[derive(Clone, Copy, Debug, PartialEq, Eq)]
pub struct KeyView<'a> {
    /// Whom it is from (TP-OA).
    pub origin: &'a [u8],
    /// For whom it is, if this is told.
    pub recipient: Option<&'a [u8]>,
    /// Which of the sender's messages it is.
    pub message: Message,
}

/// The key of a message that finished, with its addresses where they lie.
#[derive(Clone, Copy, Debug, PartialEq, Eq)]
pub struct RememberedView<'a> {
    /// What it is known by.
    pub key: KeyView<'a>,
    /// When it finished, in seconds.
    pub moment: u64,
}

impl Key {
    /// The key, whose addresses are lent.
    pub fn as_view(&self) -> KeyView<'_>
        ensures { seen_key result ≡ self.now }
    {
        let recipient = match &self.recipient {
            None => None,
            Some(octets) => Some(octets.as_slice()),
        };
        KeyView {
            origin: self.origin.as_slice(),
            recipient,
            message: self.message,
        }
    }
}

impl<'a> KeyView<'a> {
    /// The key, which has its addresses.
    pub(crate) fn to_key(&self) -> Key
        requires { KeyFits (seen_key self.now) }
        ensures { result ≡ seen_key self.now }
    {
        let recipient = match self.recipient {
            None => None,
            Some(octets) => Some(AddressOctets::of(octets)),
        };
        Key {
            origin: AddressOctets::of(self.origin),
            recipient,
            message: self.message,
        }
    }
}
