//! Packets written around units.

ghost use Rattle.std.specs.Prelude.{◌≡◌, ◌≤◌, length, Some, None, Err, IfOk, IfErr, MatchResult, OnErr};
ghost use Rattle.sms_relay.specs.Cp.Value.{IsCpBody};
ghost use Rattle.sms_relay.specs.Rp.{SpellsRp};
ghost use Rattle.sms_relay.specs.Rp.UserData.{IsOptionalUserData, IsUserData};
ghost use Rattle.sms_relay.specs.declared.cp.CpBody.TheVariants as cp;
ghost use Rattle.sms_c.specs.HandedOut.{ArePut, LackRoom};
ghost use Rattle.sms_c.specs.SeenRelay as seen;
ghost use Rattle.sms_c.specs.Fitting.{IsAnswered};
ghost use Rattle.sms_c.specs.Status.{IsNotRoom, status_in};
ghost use Rattle.sms_c.specs.Wrapping.{unit_in, OfCp, OfRelay};
ghost use Rattle.sms_c.specs.WrappingFaults.{envelope_fault, transaction_fault, unit_fault, IsTold};
ghost use Rattle.sms_c.specs.declared.status.Failure.TheVariants.{Memory, NoRoom};

mod answer;
mod connection;
pub mod data;

use crate::handed_out::hand_out;
use crate::status::Failure;
use sms_relay::{CpBody, CpMessage, RpMessage, Side, USER_DATA_MAX};
use sms_tpdu::{Octets, Unit};
use std::alloc::{AllocError, Global};

/// The transaction of a packet, and the reference of its message.
#[repr(C)]
#[derive(Clone, Copy)]
pub struct Envelope {
    /// TI flag: 0 from the side that opened the transaction.
    pub flag: u8,
    /// TI value, 0 to 6.
    pub value: u8,
    /// 0 from the phone, 1 to it.
    pub side: u8,
    /// RP-Message Reference.
    pub reference: u8,
}

/// Looks at the transaction of a packet.
fn check_transaction(envelope: Envelope) -> Result<(), Failure>
    ensures { MatchResult result (λ _. transaction_fault envelope ≡ None)
        (λ why. transaction_fault envelope ≡ Some why) }
{
    if envelope.value > 6 || envelope.flag > 1 {
        return Err(Failure::OutOfRange);
    }
    Ok(())
}

/// The side of a packet, whose transaction is looked at before.
pub fn side_of(envelope: Envelope) -> Result<Side, Failure>
    ensures fault { MatchResult result (λ _. envelope_fault envelope ≡ None)
        (λ why. envelope_fault envelope ≡ Some why) }
    ensures side { IfOk result (λ found. envelope.side ≡ seen.side_number found) }
{
    check_transaction(envelope)?;
    match envelope.side {
        0 => Ok(Side::FromPhone),
        1 => Ok(Side::ToPhone),
        _ => Err(Failure::OutOfRange),
    }
}

/// Puts out a packet around a message of the connection.
pub fn put_packet(
    alloc: Global,
    envelope: Envelope,
    body: CpBody,
    out: &mut [u8],
    needed: &mut usize,
) -> Result<(), Failure>
    requires { IsCpBody body }
    ensures told { IsTold (status_in result) (transaction_fault envelope) }
    ensures put { IfOk result (λ _. OfCp envelope body
        (ArePut out.old out.new needed.new)) }
    ensures no_room { result ≡ Err NoRoom → OfCp envelope body
        (LackRoom out.old out.new needed.new) }
    ensures none { OnErr result (out.new ≡ out.old) }
    ensures needed { IfErr result (λ why. IsNotRoom why → needed.new ≡ needed.old) }
{
    check_transaction(envelope)?;
    let message = CpMessage {
        flag: envelope.flag == 1,
        value: envelope.value,
        body,
    };
    let octets = message.write(alloc)?;
    hand_out(&octets, out, needed)
}

/// The octets of a message of the relay, as user data.
#[tactic(auto, using(crate::proofs::Packets::message_few))]
fn relayed(alloc: Global, message: RpMessage) -> Result<Octets, Failure>
    ensures spelled { IfOk result (SpellsRp message) }
    ensures fits { IfOk result (λ octets. IsCpBody (cp.Transfer octets)) }
    ensures memory { IfErr result (λ why. why ≡ Memory) }
{
    let octets = message.write(alloc)?;
    Ok(Octets::from_slice(alloc, &octets)?)
}

/// Puts out a packet around a message of the relay.
pub fn put_message(
    alloc: Global,
    envelope: Envelope,
    message: RpMessage,
    out: &mut [u8],
    needed: &mut usize,
) -> Result<(), Failure>
    requires { transaction_fault envelope ≡ None }
    ensures answered { IsAnswered (status_in result) }
    ensures put { IfOk result (λ _. OfRelay envelope message
        (ArePut out.old out.new needed.new)) }
    ensures no_room { result ≡ Err NoRoom → OfRelay envelope message
        (LackRoom out.old out.new needed.new) }
    ensures none { OnErr result (out.new ≡ out.old) }
    ensures needed { IfErr result (λ why. IsNotRoom why → needed.new ≡ needed.old) }
{
    let user = relayed(alloc, message)?;
    put_packet(alloc, envelope, CpBody::Transfer(user), out, needed)
}

/// Looks at how many octets a unit has.
pub fn check_unit(unit: &[u8]) -> Result<(), Failure>
    ensures { MatchResult result
        (λ _. (unit_fault unit.now ≡ None) × (length unit.now ≤ 233))
        (λ why. unit_fault unit.now ≡ Some why) }
{
    if unit.len() > usize::from(USER_DATA_MAX) {
        return Err(Failure::TooLong);
    }
    Ok(())
}

/// The octets of a unit.
pub fn unit_of(alloc: Global, unit: &[u8]) -> Result<Octets, AllocError>
    requires { length unit.now ≤ 233 }
    ensures unit { IfOk result (λ octets. octets ≡ unit.now) }
    ensures fits { IfOk result IsUserData }
{
    Octets::from_slice(alloc, unit)
}

/// The octets of a unit, where there is one.
pub fn some_unit(alloc: Global, unit: &[u8]) -> Result<Option<Octets>, AllocError>
    requires { length unit.now ≤ 233 }
    ensures unit { IfOk result (λ octets. octets ≡ unit_in unit.now) }
    ensures fits { IfOk result IsOptionalUserData }
{
    if unit.is_empty() {
        return Ok(None);
    }
    Ok(Some(unit_of(alloc, unit)?))
}
