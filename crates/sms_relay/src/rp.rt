//! RP messages.

ghost use Rattle.std.specs.Prelude.{◌≡◌, ◌≤◌, ◌++◌, length, OnOk};
ghost use Rattle.sms_relay.specs.declared.side.Side.{Side};
ghost use Rattle.sms_relay.specs.Rp.Value.{IsRpBody, IsRpMessage};
ghost use Rattle.sms_relay.specs.Rp.{kind_of, rp_body_octets, rp_octets};

pub mod view;

use crate::address::put_address;
use crate::cause::put_cause;
use crate::fault::RelayFault;
use crate::rp::view::RpView;
use crate::rp_kind::{RpKind, RpType};
use crate::side::Side;
use crate::user::{put_optional_user_data, put_user_data, room_for_user_data};
use sms_field::{Cursor, Refusal, RpAddress};
use sms_tpdu::{Octets, Unit, View};
use std::alloc::{AllocError, Global};
use std::marker::Model;

/// What an RP message holds. User data are at most 233 octets.
#[derive(Drop)]
pub enum RpBody {
    /// RP-DATA (3GPP TS 24.011, 7.3.1).
    Transfer {
        /// The address of the service centre: RP-Destination Address from a phone, and
        /// RP-Originator Address to one.
        address: Option<RpAddress>,
        /// RP-User Data, a transfer unit.
        user: Octets,
    },
    /// RP-ACK (7.3.3).
    Ack {
        /// RP-User Data, if there are any.
        user: Option<Octets>,
    },
    /// RP-ERROR (7.3.4).
    Fail {
        /// The cause value of RP-Cause (8.2.5.4), 0 to 127.
        cause: u8,
        /// The diagnostic field of RP-Cause.
        diagnostic: Option<u8>,
        /// RP-User Data, if there are any.
        user: Option<Octets>,
    },
}

/// A message of the relay between phone and network (3GPP TS 24.011, 7.3).
#[derive(Drop)]
pub struct RpMessage {
    /// The direction, which RP-MTI tells (8.2.2).
    pub side: Side,
    /// RP-Message Reference, which an answer repeats to tell what it answers.
    pub reference: u8,
    /// What the message holds, whose kind RP-MTI tells too.
    pub body: RpBody,
}

impl Model for RpMessage {
    ghost use Rattle.sms_relay.specs.Rp.Value.{RpValue, IsRpMessage};

    ghost Value = { RpValue };

    ghost view = { λ m. record { side = m.side; reference = m.reference; body = m.body } };

    ghost invariant = { λ m. IsRpMessage (record {
      side = m.side;
      reference = m.reference;
      body = m.body;
    }) };
}

/// The kind of a message with this body.
fn kind_of_body(body: &RpBody) -> RpKind
    ensures { result ≡ kind_of body.now }
{
    match body {
        RpBody::Transfer { .. } => RpKind::Data,
        RpBody::Ack { .. } => RpKind::Ack,
        RpBody::Fail { .. } => RpKind::Error,
    }
}

/// Room for a body.
fn room_for_body(body: &RpBody) -> usize
    requires { IsRpBody body.now }
    ensures { (side : Side) → length (rp_body_octets side body.now) ≤ result }
{
    match body {
        RpBody::Transfer { user, .. } => 14 + user.as_slice().len(),
        RpBody::Ack { user } => room_for_user_data(user),
        RpBody::Fail { user, .. } => 3 + room_for_user_data(user),
    }
}

/// Adds the octets of a body.
fn put_body(out: &mut Vec<u8>, side: Side, body: &RpBody) -> Result<(), AllocError>
    requires { IsRpBody body.now }
    ensures { OnOk result (out.new.items ≡ out.old.items ++ rp_body_octets side body.now) }
{
    match body {
        RpBody::Transfer { address, user } => {
            match side {
                Side::FromPhone => {
                    out.push(0)?;
                    put_address(out, address)?;
                }
                Side::ToPhone => {
                    put_address(out, address)?;
                    out.push(0)?;
                }
            }
            put_user_data(out, user)
        }
        RpBody::Ack { user } => put_optional_user_data(out, user),
        RpBody::Fail {
            cause,
            diagnostic,
            user,
        } => {
            put_cause(out, *cause, *diagnostic)?;
            put_optional_user_data(out, user)
        }
    }
}

/// Room for a message.
fn room_for_message(message: &RpMessage) -> usize {
    room_for_body(&message.body).saturating_add(2)
}

/// Adds the octets of a message.
fn put_message(out: &mut Vec<u8>, message: &RpMessage) -> Result<(), AllocError>
    ensures valid { IsRpMessage message.now }
    ensures added { OnOk result (out.new.items ≡ out.old.items ++ rp_octets message.now) }
{
    let named = RpType {
        kind: kind_of_body(&message.body),
        side: message.side,
    };
    out.extend_from_slice(&[named.to_octet(), message.reference])?;
    put_body(out, message.side, &message.body)
}

impl Unit for RpMessage {
    ghost use Rattle.sms_relay.specs.Rp.{rp_message, SpellsRp, MayFollow};
    ghost use Rattle.sms_relay.specs.Inside.RpLaws.{rp_laws};

    type Why = RelayFault;

    ghost field = { rp_message };

    ghost spells = { SpellsRp };

    ghost may_follow = { MayFollow };

    fn read_at(alloc: Global, input: &mut Cursor) -> Result<RpMessage, Refusal<RelayFault>> {
        let view = RpView::read_at(input)?;
        Ok(view.to_value(alloc)?)
    }

    fn write(&self, alloc: Global) -> Result<Vec<u8>, AllocError> {
        let mut out = Vec::with_capacity(alloc, room_for_message(self))?;
        put_message(&mut out, self)?;
        Ok(out)
    }

    ghost laws = { rp_laws };
}
