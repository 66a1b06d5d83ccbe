//! Why a line of a script means nothing, and why a script is not played to its end.

ghost use Rattle.std.specs.Prelude.{◌≡◌};
ghost use Rattle.sms_script.specs.declared.fault.MeaningFault.TheVariants.{Memory, Script};
ghost use Rattle.sms_script.specs.declared.fault.PlayFault.TheVariants as play_faults;

use std::alloc::{AllocError, AllocFailed};
use thiserror::Error;

/// Why a line of a script means nothing. Where several reasons apply, the first of them is given,
/// in the order in which they stand here up to the number of words, and from there on word by word.
#[derive(Clone, Copy, Debug, PartialEq, Eq, Error)]
pub enum ScriptFault {
    /// A script has at most 100,000 lines.
    #[error("too many lines")]
    TooManyLines,
    /// A line has at most 4,096 octets.
    #[error("line too long")]
    LineTooLong,
    /// The octets of the line are not UTF-8.
    #[error("not utf-8")]
    NotUtf8,
    /// The first word is no command, or `inject` stands without `up` or `down`.
    #[error("unknown command")]
    UnknownCommand,
    /// Settings and phones stand before the first event.
    #[error("setting after event")]
    SettingAfterEvent,
    /// Too many or too few words stand after the command.
    #[error("bad words")]
    BadWords,
    /// Not 1 to 10 decimal digits, or out of range.
    #[error("bad number")]
    BadNumber,
    /// Not 1 to 16 of `a` to `z` and `0` to `9`, a letter first; or `centre`.
    #[error("bad name")]
    BadName,
    /// Not the text of an address; or the address of a phone has a type above 1 or no digit.
    #[error("bad address")]
    BadAddress,
    /// Not two hexadecimal digits for each octet, nor `-`.
    #[error("bad hex")]
    BadHex,
    /// No phone has this name.
    #[error("unknown phone")]
    UnknownPhone,
    /// Another phone has this name.
    #[error("name taken")]
    NameTaken,
    /// Another phone has this address.
    #[error("address taken")]
    AddressTaken,
    /// A script has at most 100 phones.
    #[error("too many phones")]
    TooManyPhones,
}

/// Why a line has no meaning: it is at fault, or memory ran out.
#[derive(Clone, Copy, Debug, PartialEq, Eq, Error)]
pub enum MeaningFault {
    /// Memory ran out.
    #[error("out of memory")]
    Memory,
    /// The line is at fault.
    #[error("{0}")]
    Script(ScriptFault),
}

impl From<AllocError> for MeaningFault {
    ghost from_gives = { λ _ e. e ≡ Memory };

    fn from(_e: AllocError) -> MeaningFault {
        MeaningFault::Memory
    }
}

impl<T: Drop> From<AllocFailed<T>> for MeaningFault {
    ghost from_gives = { λ _ e. e ≡ Memory };

    fn from(_e: AllocFailed<T>) -> MeaningFault {
        MeaningFault::Memory
    }
}

impl From<ScriptFault> for MeaningFault {
    ghost from_gives = { λ why e. e ≡ Script why };

    fn from(why: ScriptFault) -> MeaningFault {
        MeaningFault::Script(why)
    }
}

/// Why a script is not played to its end.
#[derive(Clone, Copy, Debug, PartialEq, Eq, Error)]
pub enum PlayFault {
    /// A line means nothing. Lines are counted from 1.
    #[error("line {line}: {why}")]
    Script { line: u64, why: ScriptFault },
    /// The source failed.
    #[error("read failed")]
    Read,
    /// The sink failed, or took nothing.
    #[error("write failed")]
    Write,
    /// Memory ran out.
    #[error("out of memory")]
    Memory,
}

impl From<AllocError> for PlayFault {
    ghost from_gives = { λ _ e. e ≡ play_faults.Memory };

    fn from(_e: AllocError) -> PlayFault {
        PlayFault::Memory
    }
}

impl<T: Drop> From<AllocFailed<T>> for PlayFault {
    ghost from_gives = { λ _ e. e ≡ play_faults.Memory };

    fn from(_e: AllocFailed<T>) -> PlayFault {
        PlayFault::Memory
    }
}
