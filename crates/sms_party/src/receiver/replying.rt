//! The packets of a phone's answers to deliveries.

ghost use Rattle.std.specs.Prelude.{◌≡◌, ◌<◌, map, true, Some, None, IfOk, IfErr};
ghost use Rattle.sms_message.specs.Does.{Puts, CarriesEach};
ghost use Rattle.sms_message.specs.Message.Answers.{answers, deliver_error_of, plain_ack};
ghost use Rattle.sms_message.specs.Message.Carrying.{Carries};
ghost use Rattle.sms_message.specs.declared.message.Message.TheVariants.{Data};
ghost use Rattle.sms_message.specs.declared.message.Relay.TheVariants.{Answer};
ghost use Rattle.sms_relay.specs.declared.side.Side.TheVariants.{FromPhone};
ghost use Rattle.sms_message.specs.declared.outcome.Dropped.TheVariants.{Memory};
ghost use Rattle.sms_message.specs.declared.outcome.Outcome.TheVariants.{Refused};

use sms_message::packets::{acknowledgement_in, answered_in, both, wrapped};
use sms_message::{Dropped, Outcome, Packets, Spare, Step, Tag, failure_cause, rp_cause};
use sms_relay::{Side, wrap_answer_in};
use sms_tpdu::{DeliverAck, DeliverError};

/// The RP-ERROR of a phone, with a report.
fn error_packet(spare: &mut Spare, tag: Tag, cause: u8, failure: u8) -> Result<Vec<u8>, Dropped>
    requires value { tag.value < 7 }
    requires cause { cause < 128 }
    ensures carries { IfOk result (λ p. Carries p.items
        (Data true tag (Answer FromPhone (Some cause) (Some (deliver_error_of failure))))) }
    ensures err { IfErr result (λ e. e ≡ Memory) }
{
    let report = DeliverError {
        has_header: false,
        cause: failure,
        stamp: (),
        pid: None,
        dcs: None,
        user: None,
    };
    wrapped(wrap_answer_in(
        spare.room(),
        true,
        tag.value,
        Side::FromPhone,
        tag.reference,
        Some(cause),
        Some(&report),
    ))
}

/// The RP-ACK of a phone.
fn ack_packet(spare: &mut Spare, tag: Tag) -> Result<Vec<u8>, Dropped>
    requires value { tag.value < 7 }
    ensures carries { IfOk result (λ p. Carries p.items
        (Data true tag (Answer FromPhone None (Some plain_ack)))) }
    ensures err { IfErr result (λ e. e ≡ Memory) }
{
    let report = DeliverAck {
        has_header: false,
        cause: (),
        stamp: (),
        pid: None,
        dcs: None,
        user: None,
    };
    wrapped(wrap_answer_in(
        spare.room(),
        true,
        tag.value,
        Side::FromPhone,
        tag.reference,
        None,
        Some(&report),
    ))
}

/// A CP-ACK, and an RP-ERROR with a report.
pub(crate) fn refusal(spare: &mut Spare, tag: Tag, cause: u8, failure: u8) -> Result<Step, Dropped>
    requires value { tag.value < 7 }
    requires cause { cause < 128 }
    ensures { Puts (Refused cause (Some failure))
        (answers FromPhone tag (Some cause) (Some (deliver_error_of failure))) result }
{
    let packet = error_packet(spare, tag, cause, failure)?;
    let outcome = Outcome::Refused {
        cause,
        failure: Some(failure),
    };
    answered_in(spare, outcome, tag, packet)
}

/// The refusal of a message or a segment that no room is left for.
pub(crate) fn no_room(spare: &mut Spare, tag: Tag) -> Result<Step, Dropped>
    requires value { tag.value < 7 }
    ensures { Puts (Refused 22 (Some 0xD3))
        (answers FromPhone tag (Some 22) (Some (deliver_error_of 0xD3))) result }
{
    refusal(
        spare,
        tag,
        rp_cause::MEMORY_CAPACITY_EXCEEDED,
        failure_cause::MEMORY_CAPACITY_EXCEEDED,
    )
}

/// A CP-ACK, and an RP-ACK with a report: what a piece that is taken is answered, whatever becomes
/// of it.
pub(crate) fn approval(spare: &mut Spare, tag: Tag) -> Result<Packets, Dropped>
    requires value { tag.value < 7 }
    ensures carries { IfOk result (λ ps. CarriesEach (map (λ packet. packet.items) ps.items)
        (answers FromPhone tag None (Some plain_ack))) }
    ensures err { IfErr result (λ e. e ≡ Memory) }
{
    let packet = ack_packet(spare, tag)?;
    let note = acknowledgement_in(spare, true, tag.value)?;
    Ok(both(spare.alloc(), note, packet))
}
