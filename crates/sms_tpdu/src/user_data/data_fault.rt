//! What is wrong with user data whose septets stand one an octet.

use sms_field::Reason;
use thiserror::Error;

/// What is wrong with user data whose septets stand one an octet.
#[derive(Clone, Copy, Debug, PartialEq, Eq, Error)]
pub enum DataFault {
    /// Octets are missing at the end.
    #[error("short")]
    Short,
    /// The user data are too long.
    #[error("data too long")]
    DataTooLong,
    /// The user data header is too long.
    #[error("header too long")]
    HeaderTooLong,
    /// An octet of 128 and more is no septet.
    #[error("bad septet")]
    BadSeptet,
}

impl Reason for DataFault {
    ghost use Rattle.sms_tpdu.specs.declared.user_data.data_fault.DataFault.TheVariants.{Short};

    ghost short = { Short };

    fn short() -> DataFault {
        DataFault::Short
    }
}
