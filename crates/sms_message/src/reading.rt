//! The message as which octets are read.

ghost use Rattle.std.specs.Prelude.{◌≡◌, ◌<◌, ℕ, List, ◌∷◌, Option, is_some, IfOk, IfErr, OnErr, MatchOption};
ghost use Rattle.sms_text.specs.Octets.{IsOctets};
ghost use Rattle.sms_field.specs.Field.{HasReading};
ghost use Rattle.sms_field.specs.Reading.{Reads};
ghost use Rattle.sms_relay.specs.Rp.{rp_message};
ghost use Rattle.sms_relay.specs.Carried.InnerSeen.{seen_inner};
ghost use Rattle.sms_relay.specs.Carried.Unwrapped.{IsReadAs};
ghost use Rattle.sms_relay.specs.declared.side.Side.TheVariants.{FromPhone, ToPhone};
ghost use Rattle.sms_message.specs.declared.message.Report.{Report};
ghost use Rattle.sms_message.specs.declared.message.Relay.TheVariants.{Answer};
ghost use Rattle.sms_field.specs.Reading.Values.{AreOptionalOctets};
ghost use Rattle.sms_message.specs.Message.Reading.{ReadsAs, ReadsUnit, ReadsSomeReport, ReadsReport, ReadsRelay, IsLongData, HasTag};
ghost use Rattle.sms_message.specs.declared.outcome.Dropped.TheVariants.{Memory};

use crate::look::look_at;
use crate::message::{Message, Relay, Report, TransferUnit};
use crate::outcome::Dropped;
use sms_field::Refusal;
use sms_relay::{InnerView, RelayFault, RpBodyView, RpView, Side};
use sms_tpdu::{
    Deliver, DeliverAck, DeliverError, OctetsView, Submit, SubmitAck, SubmitError, Unit, UnitFault,
};
use std::alloc::Global;

/// The unit of a transfer from a phone.
fn submission_in(alloc: Global, octets: &[u8]) -> Result<TransferUnit, Dropped>
    ensures read { IfOk result (ReadsUnit FromPhone octets.now) }
    ensures err { IfErr result (λ e. e ≡ Memory) }
{
    match Submit::read(alloc, octets) {
        Ok((submission, _)) => Ok(TransferUnit::Submit(submission)),
        Err(Refusal::Memory) => Err(Dropped::Memory),
        Err(Refusal::At { why, .. }) => match why {
            UnitFault::WrongType => Ok(TransferUnit::OtherUnit),
            _ => Ok(TransferUnit::BadUnit),
        },
    }
}

/// The unit of a transfer to a phone.
fn delivery_in(alloc: Global, octets: &[u8]) -> Result<TransferUnit, Dropped>
    ensures read { IfOk result (ReadsUnit ToPhone octets.now) }
    ensures err { IfErr result (λ e. e ≡ Memory) }
{
    match Deliver::read(alloc, octets) {
        Ok((delivery, _)) => Ok(TransferUnit::Deliver(delivery)),
        Err(Refusal::Memory) => Err(Dropped::Memory),
        Err(Refusal::At { why, .. }) => match why {
            UnitFault::WrongType => Ok(TransferUnit::OtherUnit),
            _ => Ok(TransferUnit::BadUnit),
        },
    }
}

/// The unit of a transfer.
fn unit_in(alloc: Global, side: Side, octets: &[u8]) -> Result<TransferUnit, Dropped>
    ensures read { IfOk result (ReadsUnit side octets.now) }
    ensures err { IfErr result (λ e. e ≡ Memory) }
{
    match side {
        Side::FromPhone => submission_in(alloc, octets),
        Side::ToPhone => delivery_in(alloc, octets),
    }
}

/// A value that the octets are read as, if there is one.
fn read_if<U: Unit>(alloc: Global, octets: &[u8]) -> Result<Option<U>, Dropped>
    ensures read { IfOk result (λ o. MatchOption o (¬ HasReading U.field octets.now)
        (λ v. (used : ℕ) × Reads U.field v octets.now used)) }
    ensures err { IfErr result (λ e. e ≡ Memory) }
{
    match U::read(alloc, octets) {
        Ok((value, _)) => Ok(Some(value)),
        Err(Refusal::Memory) => Err(Dropped::Memory),
        Err(Refusal::At { .. }) => Ok(None),
    }
}

/// The report of an answer.
fn report_in(
    alloc: Global,
    side: Side,
    is_error: bool,
    octets: &[u8],
) -> Result<Option<Report>, Dropped>
    ensures read { IfOk result (λ r. (cause : Option ℕ) → is_some cause ≡ is_error
        → ReadsSomeReport side cause octets.now r) }
    ensures err { IfErr result (λ e. e ≡ Memory) }
{
    match (side, is_error) {
        (Side::ToPhone, false) => Ok(read_if(alloc, octets)?.map(Report::SubmitAck)),
        (Side::ToPhone, true) => Ok(read_if(alloc, octets)?.map(Report::SubmitError)),
        (Side::FromPhone, false) => Ok(read_if(alloc, octets)?.map(Report::DeliverAck)),
        (Side::FromPhone, true) => Ok(read_if(alloc, octets)?.map(Report::DeliverError)),
    }
}

/// The answer of a side, and its report if it has one.
fn answer_in(
    alloc: Global,
    side: Side,
    cause: Option<u8>,
    user: &Option<OctetsView<'_>>,
) -> Result<Relay, Dropped>
    requires { AreOptionalOctets user.now }
    ensures read { IfOk result (λ r. (report : Option Report) × (r ≡ Answer side cause report)
        × ReadsReport side cause user.now report) }
    ensures err { IfErr result (λ e. e ≡ Memory) }
{
    let report = match user {
        Some(user) => report_in(alloc, side, cause.is_some(), user.as_slice())?,
        None => None,
    };
    Ok(Relay::Answer {
        side,
        cause,
        report,
    })
}

/// What an RP message says.
fn relay_of(alloc: Global, message: &RpView<'_>) -> Result<Relay, Dropped>
    ensures read { IfOk result (λ relay. (octets : List ℕ) (used : ℕ)
        → Reads rp_message message.now octets used
        → ReadsRelay octets message.now.reference relay) }
    ensures err { IfErr result (λ e. e ≡ Memory) }
{
    let side = message.side;
    match &message.body {
        RpBodyView::Transfer { user, .. } => {
            let unit = unit_in(alloc, side, user.as_slice())?;
            Ok(Relay::Transfer { side, unit })
        }
        RpBodyView::Ack { user } => answer_in(alloc, side, None, user),
        RpBodyView::Fail { cause, user, .. } => answer_in(alloc, side, Some(*cause), user),
    }
}

/// What the octets of a CP-DATA are read as, where they are read so.
pub(crate) fn relay_in(alloc: Global, inner: &InnerView<'_>) -> Result<Relay, Dropped>
    ensures read { IfOk result (λ relay. (first second : ℕ) (rest : List ℕ)
        → IsOctets (first ∷ second ∷ rest)
        → IsReadAs (first ∷ second ∷ rest) (seen_inner inner.now)
        → ReadsRelay (first ∷ second ∷ rest) second relay) }
    ensures err { IfErr result (λ e. e ≡ Memory) }
{
    match inner {
        InnerView::Relay(message) => relay_of(alloc, message),
        InnerView::Bad { why, .. } => match why {
            RelayFault::UnknownType => Ok(Relay::UnknownType),
            _ => Ok(Relay::Unreadable),
        },
        InnerView::Empty => Ok(Relay::Unreadable),
    }
}

/// The message as which octets are read. Memory is asked for a CP-DATA of two octets or more alone.
pub fn read_message(alloc: Global, octets: &[u8]) -> Result<Message, Dropped>
    ensures read { IfOk result (ReadsAs octets.now) }
    ensures tagged { IfOk result HasTag }
    ensures err { IfErr result (λ e. e ≡ Memory) }
    ensures data { OnErr result (IsLongData octets.now) }
{
    look_at(octets).message(alloc)
}
