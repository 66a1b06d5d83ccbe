//! Packets that every party puts out.

ghost use Rattle.std.specs.Prelude.{◌≡◌, ◌≢◌, ◌<◌, ◌∷◌, [], ℕ, true, None, Some, Ok, Err, IfOk, IfErr, Option};
ghost use Rattle.sms_relay.specs.declared.side.Side.{Side as Sides};
ghost use Rattle.sms_relay.specs.declared.fault.WrapFault.TheVariants.{DataTooLong};
ghost use Rattle.sms_message.specs.declared.message.Message.TheVariants.{Note, Data};
ghost use Rattle.sms_message.specs.declared.message.Relay.TheVariants.{Answer};
ghost use Rattle.sms_message.specs.declared.message.Report.{Report};
ghost use Rattle.sms_message.specs.Message.Carrying.{Carries, centre_address};
ghost use Rattle.sms_message.specs.Message.Answers.{answers};
ghost use Rattle.sms_message.specs.Does.{Puts};
ghost use Rattle.sms_message.specs.declared.outcome.Dropped.TheVariants.{Memory};
ghost use Rattle.sms_message.specs.declared.outcome.Outcome.TheVariants.{Refused};

use crate::message::Tag;
use crate::outcome::{Dropped, Outcome, Packets, Step};
use crate::spare::Spare;
use arrayvec::ArrayVec;
use sms_field::{Digits, RpAddress};
use sms_relay::{Side, WrapFault, wrap_acknowledgement_in, wrap_answer_in};
use sms_tpdu::SubmitError;
use std::alloc::Global;

/// A packet that was wrapped, where what was wrapped is not too long.
pub fn wrapped(packet: Result<Vec<u8>, WrapFault>) -> Result<Vec<u8>, Dropped>
    requires { packet ≢ Err DataTooLong }
    ensures packet { IfOk result (λ octets. packet ≡ Ok octets) }
    ensures err { IfErr result (λ e. e ≡ Memory) }
{
    match packet {
        Ok(octets) => Ok(octets),
        Err(WrapFault::Memory) => Err(Dropped::Memory),
        Err(WrapFault::DataTooLong) => unreachable!(),
    }
}

/// The address of the centre, +1000.
pub fn address_of_centre() -> RpAddress
    ensures { result ≡ centre_address }
{
    RpAddress {
        type_of_number: 1,
        plan: 1,
        digits: Digits::new(&[1, 0, 0, 0]),
    }
}

/// A CP-ACK.
pub fn acknowledgement(alloc: Global, flag: bool, value: u8) -> Result<Vec<u8>, Dropped>
    requires { value < 7 }
    ensures carries { IfOk result (λ p. Carries p.items (Note flag value)) }
    ensures err { IfErr result (λ e. e ≡ Memory) }
{
    let mut spare = Spare::new(alloc);
    acknowledgement_in(&mut spare, flag, value)
}

/// A CP-ACK, in the room of a list that is spare where there is one.
pub fn acknowledgement_in(spare: &mut Spare, flag: bool, value: u8) -> Result<Vec<u8>, Dropped>
    requires { value < 7 }
    ensures carries { IfOk result (λ p. Carries p.items (Note flag value)) }
    ensures err { IfErr result (λ e. e ≡ Memory) }
{
    Ok(wrap_acknowledgement_in(spare.room(), flag, value)?)
}

/// No packets.
pub fn no_packets(alloc: Global) -> Packets
    ensures { result.items ≡ [] }
{
    ArrayVec::new_in(alloc)
}

/// A packet alone.
pub fn alone(alloc: Global, packet: Vec<u8>) -> Packets
    ensures items { result.items ≡ packet ∷ [] }
{
    let mut packets = ArrayVec::new_in(alloc);
    packets.push(packet);
    packets
}

/// Two packets.
pub fn both(alloc: Global, first: Vec<u8>, second: Vec<u8>) -> Packets
    ensures items { result.items ≡ first ∷ second ∷ [] }
{
    ArrayVec::from_array_in(alloc, [first, second])
}

/// A CP-ACK, and the answer in this packet.
pub fn answered(alloc: Global, outcome: Outcome, tag: Tag, packet: Vec<u8>) -> Result<Step, Dropped>
    requires { tag.value < 7 }
    ensures { (side : Sides) (cause : Option ℕ) (report : Option Report)
        → Carries packet.items (Data true tag (Answer side cause report))
        → Puts outcome (answers side tag cause report) result }
{
    let mut spare = Spare::new(alloc);
    answered_in(&mut spare, outcome, tag, packet)
}

/// A CP-ACK, in the room of a list that is spare where there is one, and the answer in this packet.
pub fn answered_in(
    spare: &mut Spare,
    outcome: Outcome,
    tag: Tag,
    packet: Vec<u8>,
) -> Result<Step, Dropped>
    requires { tag.value < 7 }
    ensures { (side : Sides) (cause : Option ℕ) (report : Option Report)
        → Carries packet.items (Data true tag (Answer side cause report))
        → Puts outcome (answers side tag cause report) result }
{
    let note = acknowledgement_in(spare, true, tag.value)?;
    let packets = both(spare.alloc(), note, packet);
    Ok(Step { outcome, packets })
}

/// A CP-ACK, and an RP-ERROR of this side without user data.
pub fn relay_refusal(alloc: Global, side: Side, tag: Tag, cause: u8) -> Result<Step, Dropped>
    requires value { tag.value < 7 }
    requires cause { cause < 128 }
    ensures { Puts (Refused cause None) (answers side tag (Some cause) None) result }
{
    let mut spare = Spare::new(alloc);
    relay_refusal_in(&mut spare, side, tag, cause)
}

/// A CP-ACK, and an RP-ERROR of this side without user data, in the room of lists that are spare
/// where there are such.
pub fn relay_refusal_in(spare: &mut Spare, side: Side, tag: Tag, cause: u8) -> Result<Step, Dropped>
    requires value { tag.value < 7 }
    requires cause { cause < 128 }
    ensures { Puts (Refused cause None) (answers side tag (Some cause) None) result }
{
    let report: Option<&SubmitError> = None;
    let packet = wrap_answer_in(
        spare.room(),
        true,
        tag.value,
        side,
        tag.reference,
        Some(cause),
        report,
    );
    let packet = wrapped(packet)?;
    let outcome = Outcome::Refused {
        cause,
        failure: None,
    };
    answered_in(spare, outcome, tag, packet)
}
