//! The unit that a party takes of what comes in a transaction that the other side has opened, or
//! why it takes none.

ghost use Rattle.std.specs.Prelude.{◌≡◌, ◌<◌, IfErr};
ghost use Rattle.sms_message.specs.Message.Request.{unit_from, unit_refused, submission_from, delivery_from, HasCause};

use crate::message::{Relay, TransferUnit};
use crate::{failure_cause, rp_cause};
use sms_relay::Side;
use sms_tpdu::{Deliver, Submit};

/// Why a party takes nothing of what comes.
#[derive(Clone, Copy, Debug, PartialEq, Eq)]
pub enum NotTaken {
    /// No message of this kind is waited for: it is dropped.
    Unmatched,
    /// It is refused, by an RP-ERROR.
    Refused {
        /// RP-Cause, below 128.
        cause: u8,
        /// TP-FCS of the report; `None` where the RP-ERROR has no report.
        failure: Option<u8>,
    },
}

/// The unit of an RP-DATA from this side, as far as it was read.
pub fn unit_from(side: Side, relay: Relay) -> Result<TransferUnit, NotTaken>
    ensures unit { result ≡ unit_from side relay }
    ensures cause { IfErr result HasCause }
{
    match relay {
        Relay::Transfer { side: from, unit } => match (side, from) {
            (Side::FromPhone, Side::FromPhone) => Ok(unit),
            (Side::ToPhone, Side::ToPhone) => Ok(unit),
            _ => {
                drop(unit);
                Err(NotTaken::Unmatched)
            }
        },
        Relay::UnknownType => Err(NotTaken::Refused {
            cause: rp_cause::MESSAGE_TYPE_NON_EXISTENT,
            failure: None,
        }),
        Relay::Unreadable => Err(NotTaken::Refused {
            cause: rp_cause::INVALID_MANDATORY_INFORMATION,
            failure: None,
        }),
        Relay::Answer { .. } => Err(NotTaken::Unmatched),
    }
}

/// Why a party does not take this unit, which is not of the kind that it takes.
fn unit_refused(cause: u8, unit: &TransferUnit) -> NotTaken
    ensures { result ≡ unit_refused cause unit.now }
{
    let failure = match unit {
        TransferUnit::BadUnit => failure_cause::UNSPECIFIED,
        _ => failure_cause::UNIT_NOT_SUPPORTED,
    };
    NotTaken::Refused {
        cause,
        failure: Some(failure),
    }
}

/// The SMS-SUBMIT, or the refusal of what is none, with this RP-Cause.
pub fn submission_from(cause: u8, unit: TransferUnit) -> Result<Submit, NotTaken>
    requires { cause < 128 }
    ensures submission { result ≡ submission_from cause unit }
    ensures cause { IfErr result HasCause }
{
    match unit {
        TransferUnit::Submit(submission) => Ok(submission),
        other => {
            let why = unit_refused(cause, &other);
            drop(other);
            Err(why)
        }
    }
}

/// The SMS-DELIVER, or the refusal of what is none, with this RP-Cause.
pub fn delivery_from(cause: u8, unit: TransferUnit) -> Result<Deliver, NotTaken>
    requires { cause < 128 }
    ensures delivery { result ≡ delivery_from cause unit }
    ensures cause { IfErr result HasCause }
{
    match unit {
        TransferUnit::Deliver(delivery) => Ok(delivery),
        other => {
            let why = unit_refused(cause, &other);
            drop(other);
            Err(why)
        }
    }
}
