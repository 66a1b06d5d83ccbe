//! The first octet of a CP message.

ghost use Rattle.std.specs.Prelude.{◌≡◌, ◌<◌, IfOk};
ghost use Rattle.sms_relay.specs.Transaction.{transaction, transaction_octet};

use crate::fault::RelayFault;
use sms_field::{bit_weight, has_bit};

/// The protocol discriminator of short messages.
const SMS: u8 = 9;

/// The transaction of a CP message (3GPP TS 24.011, 8.1.2).
#[derive(Clone, Copy)]
pub struct Transaction {
    /// TI flag: the message goes to the side that opened the transaction.
    pub flag: bool,
    /// TI value, 0 to 6.
    pub value: u8,
}

impl Transaction {
    /// What the first octet of a CP message says.
    pub fn from_octet(octet: u8) -> Result<Transaction, RelayFault>
        ensures is { result ≡ transaction octet }
        ensures in_range { IfOk result (λ t. t.value < 7) }
    {
        if octet % 16 != SMS {
            return Err(RelayFault::NotSms);
        }
        let value = octet / 16 % 8;
        if value == 7 {
            return Err(RelayFault::BadTransaction);
        }
        Ok(Transaction {
            flag: has_bit(octet, 7),
            value,
        })
    }

    /// The first octet of a CP message in this transaction.
    pub fn to_octet(self) -> u8
        requires { self.value < 7 }
        ensures { result ≡ transaction_octet self }
    {
        bit_weight(7, self.flag) + 16 * self.value + SMS
    }
}
