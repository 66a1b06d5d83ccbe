//! RP messages, seen in their octets.

ghost use Rattle.std.specs.Prelude.{◌≡◌, None, IfOk, IfErr, IsOk};
ghost use Rattle.sms_field.specs.Reading.Answer.{SeesAs};
ghost use Rattle.sms_field.specs.Reading.{Reads};
ghost use Rattle.sms_field.specs.Reading.WholeAnswer.{IsFaultOf, SeesExactly};
ghost use Rattle.sms_relay.specs.Rp.Value.{IsRpBody};
ghost use Rattle.sms_relay.specs.Rp.{rp_data, rp_error, rp_body, rp_message};
ghost use Rattle.sms_relay.specs.Rp.Seen.{seen_rp_body};
ghost use Rattle.sms_relay.specs.declared.rp.view.RpBodyView.TheVariants as seen;
ghost use Rattle.sms_relay.specs.declared.fault.RelayFault.TheVariants.{Short};

use crate::address::address_seen_at;
use crate::cause::cause_at;
use crate::fault::RelayFault;
use crate::rp::{RpBody, RpMessage};
use crate::rp_kind::{RpKind, RpType};
use crate::side::Side;
use crate::user::{optional_user_data_at, user_data_at};
use sms_field::{Cursor, Fault, RpAddressView};
use sms_tpdu::{OctetsView, View, see};
use std::alloc::{AllocError, Global};
use std::marker::Model;

/// The length octet where the side has no address.
const NO_ADDRESS: u8 = 0;

/// What an RP message holds, where it lies. User data are at most 233 octets.
#[derive(Drop)]
pub enum RpBodyView<'a> {
    /// RP-DATA (3GPP TS 24.011, 7.3.1).
    Transfer {
        /// The address of the service centre: RP-Destination Address from a phone, and
        /// RP-Originator Address to one.
        address: Option<RpAddressView<'a>>,
        /// RP-User Data, a transfer unit.
        user: OctetsView<'a>,
    },
    /// RP-ACK (7.3.3).
    Ack {
        /// RP-User Data, if there are any.
        user: Option<OctetsView<'a>>,
    },
    /// RP-ERROR (7.3.4).
    Fail {
        /// The cause value of RP-Cause (8.2.5.4), 0 to 127.
        cause: u8,
        /// The diagnostic field of RP-Cause.
        diagnostic: Option<u8>,
        /// RP-User Data, if there are any.
        user: Option<OctetsView<'a>>,
    },
}

/// A message of the relay, in its octets. Contracts see it as the message.
#[derive(Drop)]
pub struct RpView<'a> {
    /// The direction, which RP-MTI tells (8.2.2).
    pub side: Side,
    /// RP-Message Reference, which an answer repeats to tell what it answers.
    pub reference: u8,
    /// What the message holds, whose kind RP-MTI tells too.
    pub body: RpBodyView<'a>,
}

impl<'a> Model for RpView<'a> {
    ghost use Rattle.sms_relay.specs.Rp.Value.{RpValue, IsRpMessage};
    ghost use Rattle.sms_relay.specs.Rp.Seen.{seen_rp_body};

    ghost Value = { RpValue };

    ghost view = { λ m. record {
      side = m.side;
      reference = m.reference;
      body = seen_rp_body m.body;
    } };

    ghost invariant = { λ m. IsRpMessage (record {
      side = m.side;
      reference = m.reference;
      body = seen_rp_body m.body;
    }) };
}

/// The body of an RP-DATA.
#[tactic(auto, unfolding(crate::specs::Rp::rp_data))]
fn data_at<'a>(input: &mut Cursor<'a>, side: Side) -> Result<RpBodyView<'a>, Fault<RelayFault>>
    ensures fits { IfOk result (λ body. IsRpBody (seen_rp_body body)) }
    ensures read { SeesAs seen_rp_body (rp_data side) input.old result input.new }
{
    match side {
        Side::FromPhone => {
            input.take_octet_up_to(NO_ADDRESS, RelayFault::BadAddress)?;
            let address = address_seen_at(input)?;
            let user = user_data_at(input)?;
            Ok(RpBodyView::Transfer { address, user })
        }
        Side::ToPhone => {
            let address = address_seen_at(input)?;
            input.take_octet_up_to(NO_ADDRESS, RelayFault::BadAddress)?;
            let user = user_data_at(input)?;
            Ok(RpBodyView::Transfer { address, user })
        }
    }
}

/// The body of an RP-ERROR.
#[tactic(auto, unfolding(crate::specs::Rp::rp_error))]
fn error_at<'a>(input: &mut Cursor<'a>) -> Result<RpBodyView<'a>, Fault<RelayFault>>
    ensures fits { IfOk result (λ body. IsRpBody (seen_rp_body body)) }
    ensures read { SeesAs seen_rp_body rp_error input.old result input.new }
{
    let (cause, diagnostic) = cause_at(input)?;
    let user = optional_user_data_at(input)?;
    Ok(RpBodyView::Fail {
        cause,
        diagnostic,
        user,
    })
}

/// The body of a message of a type.
#[tactic(auto, unfolding(crate::specs::Rp::rp_body))]
fn body_at<'a>(input: &mut Cursor<'a>, named: RpType) -> Result<RpBodyView<'a>, Fault<RelayFault>>
    ensures fits { IfOk result (λ body. IsRpBody (seen_rp_body body)) }
    ensures read { SeesAs seen_rp_body (rp_body named.kind named.side) input.old result input.new }
{
    match named.kind {
        RpKind::Data => data_at(input, named.side),
        RpKind::Ack => {
            let user = optional_user_data_at(input)?;
            Ok(RpBodyView::Ack { user })
        }
        RpKind::Error => error_at(input),
    }
}

impl<'a> RpBodyView<'a> {
    /// The body itself.
    pub fn to_value(&self, alloc: Global) -> Result<RpBody, AllocError>
        ensures is { IfOk result (λ body. body ≡ seen_rp_body self.now) }
        ensures ack { self.now ≡ seen.Ack None → IsOk result }
    {
        match self {
            RpBodyView::Transfer { address, user } => {
                let address = RpAddressView::some_to_value(alloc, address)?;
                let user = user.to_value(alloc)?;
                Ok(RpBody::Transfer { address, user })
            }
            RpBodyView::Ack { user } => {
                let user = OctetsView::some_to_value(alloc, user)?;
                Ok(RpBody::Ack { user })
            }
            RpBodyView::Fail {
                cause,
                diagnostic,
                user,
            } => {
                let user = OctetsView::some_to_value(alloc, user)?;
                Ok(RpBody::Fail {
                    cause: *cause,
                    diagnostic: *diagnostic,
                    user,
                })
            }
        }
    }
}

impl<'a> View<'a> for RpView<'a> {
    type Owned = RpMessage;

    ghost value = { λ m. m };

    #[tactic(auto, unfolding(crate::specs::Rp::rp_message))]
    fn read_at(input: &mut Cursor<'a>) -> Result<RpView<'a>, Fault<RelayFault>> {
        let named = input.take_octet_by(RpType::from_octet)?;
        let reference = input.take_octet()?;
        let body = body_at(input, named)?;
        Ok(RpView {
            side: named.side,
            reference,
            body,
        })
    }

    fn to_value(&self, alloc: Global) -> Result<RpMessage, AllocError> {
        let body = self.body.to_value(alloc)?;
        Ok(RpMessage {
            side: self.side,
            reference: self.reference,
            body,
        })
    }
}

impl<'a> RpView<'a> {
    /// Sees a message at the front of the octets, and says how many it takes.
    #[inline(always)]
    pub fn read(input: &'a [u8]) -> Result<(RpView<'a>, usize), Fault<RelayFault>>
        ensures found { IfOk result (λ x. Reads rp_message x.0 input.now x.1) }
        ensures refused { IfErr result (IsFaultOf rp_message Short input.now) }
        ensures exact { SeesExactly (λ view. view) rp_message input.now result }
    {
        see(input)
    }
}
