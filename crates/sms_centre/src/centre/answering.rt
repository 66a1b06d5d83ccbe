//! The packets of the centre's answers to submissions.

ghost use Rattle.std.specs.Prelude.{◌<◌, true, None, Some};
ghost use Rattle.sms_field.specs.Time.Computed.{end_of_2099};
ghost use Rattle.sms_relay.specs.declared.side.Side.TheVariants.{ToPhone};
ghost use Rattle.sms_message.specs.Message.Answers.{answers, submit_error_of, submit_ack_of};
ghost use Rattle.sms_message.specs.Does.{Puts};
ghost use Rattle.sms_message.specs.Few.{FewPackets};
ghost use Rattle.sms_message.specs.declared.outcome.Outcome.TheVariants.{Held, Refused};

use crate::centre::stamping::stamp_of;
use sms_message::packets::{answered_in, wrapped};
use sms_message::{Dropped, Outcome, Spare, Step, Tag};
use sms_relay::{Side, wrap_answer_in};
use sms_tpdu::{SubmitAck, SubmitError};

/// A CP-ACK, and an RP-ERROR with a report.
pub(crate) fn refusal(
    spare: &mut Spare,
    now: u64,
    tag: Tag,
    cause: u8,
    failure: u8,
) -> Result<Step, Dropped>
    requires value { tag.value < 7 }
    requires moment { now < end_of_2099 }
    requires cause { cause < 128 }
    ensures puts { Puts (Refused cause (Some failure))
        (answers ToPhone tag (Some cause) (Some (submit_error_of failure now))) result }
    ensures few { FewPackets result }
{
    let report = SubmitError {
        has_header: false,
        cause: failure,
        stamp: stamp_of(now),
        pid: None,
        dcs: None,
        user: None,
    };
    let packet = wrap_answer_in(
        spare.room(),
        true,
        tag.value,
        Side::ToPhone,
        tag.reference,
        Some(cause),
        Some(&report),
    );
    let packet = wrapped(packet)?;
    let outcome = Outcome::Refused {
        cause,
        failure: Some(failure),
    };
    answered_in(spare, outcome, tag, packet)
}

/// A CP-ACK, and an RP-ACK with a report.
pub(crate) fn approval(spare: &mut Spare, tag: Tag, stamp: u64) -> Result<Step, Dropped>
    requires value { tag.value < 7 }
    requires moment { stamp < end_of_2099 }
    ensures puts { Puts Held (answers ToPhone tag None (Some (submit_ack_of stamp))) result }
    ensures few { FewPackets result }
{
    let report = SubmitAck {
        has_header: false,
        cause: (),
        stamp: stamp_of(stamp),
        pid: None,
        dcs: None,
        user: None,
    };
    let packet = wrap_answer_in(
        spare.room(),
        true,
        tag.value,
        Side::ToPhone,
        tag.reference,
        None,
        Some(&report),
    );
    let packet = wrapped(packet)?;
    answered_in(spare, Outcome::Held, tag, packet)
}
