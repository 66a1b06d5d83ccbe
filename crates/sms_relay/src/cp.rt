//! CP messages.

ghost use Rattle.std.specs.Prelude.{◌≡◌, ◌≤◌, ◌++◌, length, OnOk};
ghost use Rattle.sms_relay.specs.Cp.Value.{IsCpBody};
ghost use Rattle.sms_relay.specs.Cp.{kind_of, cp_body_octets};

pub mod view;

use crate::cp::view::CpView;
use crate::cp_kind::CpKind;
use crate::fault::RelayFault;
use crate::transaction::Transaction;
use sms_field::{Cursor, Refusal};
use sms_tpdu::{Octets, Unit, View};
use std::alloc::{AllocError, Global};
use std::marker::Model;

/// The most octets of CP-User Data: what their length octet can say (3GPP TS 24.011, 8.1.4.1).
pub const CP_USER_DATA_MAX: usize = 255;

/// What a CP message holds.
#[derive(Drop)]
pub enum CpBody {
    /// CP-DATA: CP-User Data of at most 255 octets (3GPP TS 24.011, 7.2.1).
    Transfer(Octets),
    /// CP-ACK (7.2.2).
    Ack,
    /// CP-ERROR with CP-Cause (7.2.3).
    Fail(u8),
}

/// A message of the connection between phone and network (3GPP TS 24.011, 7.2).
#[derive(Drop)]
pub struct CpMessage {
    /// TI flag, of the transaction identifier: the message goes to the side that opened the
    /// transaction.
    pub flag: bool,
    /// TI value, of the transaction identifier, 0 to 6.
    pub value: u8,
    /// What the message holds, whose kind the message type tells.
    pub body: CpBody,
}

impl Model for CpMessage {
    ghost use Rattle.sms_relay.specs.Cp.Value.{CpValue, IsCpMessage};

    ghost Value = { CpValue };

    ghost view = { λ m. record { flag = m.flag; value = m.value; body = m.body } };

    ghost invariant = { λ m. IsCpMessage (record {
      flag = m.flag;
      value = m.value;
      body = m.body;
    }) };
}

/// The kind of a message with this body.
fn kind_of_body(body: &CpBody) -> CpKind
    ensures { result ≡ kind_of body.now }
{
    match body {
        CpBody::Transfer(_) => CpKind::Data,
        CpBody::Ack => CpKind::Ack,
        CpBody::Fail(_) => CpKind::Error,
    }
}

/// Room for a body.
fn room_for_body(body: &CpBody) -> usize
    ensures { length (cp_body_octets body.now) ≤ result }
{
    match body {
        CpBody::Transfer(octets) => 1 + octets.as_slice().len(),
        CpBody::Ack | CpBody::Fail(_) => 1,
    }
}

/// Adds the octets of a body.
fn put_body(out: &mut Vec<u8>, body: &CpBody) -> Result<(), AllocError>
    requires { IsCpBody body.now }
    ensures { OnOk result (out.new.items ≡ out.old.items ++ cp_body_octets body.now) }
{
    match body {
        CpBody::Transfer(octets) => {
            let octets = octets.as_slice();
            out.push(octets.len() as u8)?;
            out.extend_from_slice(octets)
        }
        CpBody::Ack => Ok(()),
        CpBody::Fail(cause) => out.extend_from_slice(&[*cause]),
    }
}

impl Unit for CpMessage {
    ghost use Rattle.sms_relay.specs.Cp.{cp_message, SpellsCp};
    ghost use Rattle.sms_relay.specs.Inside.CpLaws.{cp_laws};

    type Why = RelayFault;

    ghost field = { cp_message };

    ghost spells = { SpellsCp };

    fn read_at(alloc: Global, input: &mut Cursor) -> Result<CpMessage, Refusal<RelayFault>> {
        let view = CpView::read_at(input)?;
        Ok(view.to_value(alloc)?)
    }

    fn write(&self, alloc: Global) -> Result<Vec<u8>, AllocError> {
        let transaction = Transaction {
            flag: self.flag,
            value: self.value,
        };
        let room = room_for_body(&self.body).saturating_add(2);
        let mut out = Vec::with_capacity(alloc, room)?;
        out.extend_from_slice(&[transaction.to_octet(), kind_of_body(&self.body).to_octet()])?;
        put_body(&mut out, &self.body)?;
        Ok(out)
    }

    ghost laws = { cp_laws };
}
