//! CP messages, seen in their octets.

ghost use Rattle.std.specs.Prelude.{◌≡◌, ℕ, IfOk, IfErr, IsOk};
ghost use Rattle.sms_field.specs.Reading.Answer.{SeesAs};
ghost use Rattle.sms_field.specs.Reading.{Reads};
ghost use Rattle.sms_field.specs.Reading.WholeAnswer.{IsFaultOf, SeesExactly};
ghost use Rattle.sms_relay.specs.Cp.Value.{IsCpBody};
ghost use Rattle.sms_relay.specs.Cp.{cp_body, cp_message};
ghost use Rattle.sms_relay.specs.Cp.Seen.{seen_cp_body};
ghost use Rattle.sms_relay.specs.declared.cp.view.CpBodyView.TheVariants as seen;
ghost use Rattle.sms_relay.specs.declared.fault.RelayFault.TheVariants.{Short};

use crate::cp::{CpBody, CpMessage};
use crate::cp_kind::CpKind;
use crate::fault::RelayFault;
use crate::transaction::Transaction;
use crate::user::octets_at;
use sms_field::{Cursor, Fault};
use sms_tpdu::{OctetsView, View, see};
use std::alloc::{AllocError, Global};
use std::marker::Model;

/// What a CP message holds, where it lies.
#[derive(Drop)]
pub enum CpBodyView<'a> {
    /// CP-DATA: CP-User Data of at most 255 octets (3GPP TS 24.011, 7.2.1).
    Transfer(OctetsView<'a>),
    /// CP-ACK (7.2.2).
    Ack,
    /// CP-ERROR with CP-Cause (7.2.3).
    Fail(u8),
}

/// A message of the connection, in its octets. Contracts see it as the message.
#[derive(Drop)]
pub struct CpView<'a> {
    /// TI flag, of the transaction identifier: the message goes to the side that opened the
    /// transaction.
    pub flag: bool,
    /// TI value, of the transaction identifier, 0 to 6.
    pub value: u8,
    /// What the message holds, whose kind the message type tells.
    pub body: CpBodyView<'a>,
}

impl<'a> Model for CpView<'a> {
    ghost use Rattle.sms_relay.specs.Cp.Value.{CpValue, IsCpMessage};
    ghost use Rattle.sms_relay.specs.Cp.Seen.{seen_cp_body};

    ghost Value = { CpValue };

    ghost view = { λ m. record { flag = m.flag; value = m.value; body = seen_cp_body m.body } };

    ghost invariant = { λ m. IsCpMessage (record {
      flag = m.flag;
      value = m.value;
      body = seen_cp_body m.body;
    }) };
}

/// The body of a message of a kind.
#[tactic(auto, unfolding(crate::specs::Cp::cp_body))]
fn body_at<'a>(input: &mut Cursor<'a>, kind: CpKind) -> Result<CpBodyView<'a>, Fault<RelayFault>>
    ensures fits { IfOk result (λ body. IsCpBody (seen_cp_body body)) }
    ensures read { SeesAs seen_cp_body (cp_body kind) input.old result input.new }
{
    match kind {
        CpKind::Data => {
            let count = input.take_octet()?;
            let octets = octets_at(input, count)?;
            Ok(CpBodyView::Transfer(octets))
        }
        CpKind::Ack => Ok(CpBodyView::Ack),
        CpKind::Error => {
            let cause = input.take_octet()?;
            Ok(CpBodyView::Fail(cause))
        }
    }
}

impl<'a> CpBodyView<'a> {
    /// The body itself.
    pub fn to_value(&self, alloc: Global) -> Result<CpBody, AllocError>
        ensures is { IfOk result (λ body. body ≡ seen_cp_body self.now) }
        ensures ack { self.now ≡ seen.Ack → IsOk result }
        ensures fail { (cause : ℕ) → self.now ≡ seen.Fail cause → IsOk result }
    {
        match self {
            CpBodyView::Transfer(octets) => Ok(CpBody::Transfer(octets.to_value(alloc)?)),
            CpBodyView::Ack => Ok(CpBody::Ack),
            CpBodyView::Fail(cause) => Ok(CpBody::Fail(*cause)),
        }
    }
}

impl<'a> View<'a> for CpView<'a> {
    type Owned = CpMessage;

    ghost value = { λ m. m };

    #[tactic(auto, unfolding(crate::specs::Cp::cp_message))]
    fn read_at(input: &mut Cursor<'a>) -> Result<CpView<'a>, Fault<RelayFault>> {
        let transaction = input.take_octet_by(Transaction::from_octet)?;
        let kind = input.take_octet_by(CpKind::from_octet)?;
        let body = body_at(input, kind)?;
        Ok(CpView {
            flag: transaction.flag,
            value: transaction.value,
            body,
        })
    }

    fn to_value(&self, alloc: Global) -> Result<CpMessage, AllocError> {
        let body = self.body.to_value(alloc)?;
        Ok(CpMessage {
            flag: self.flag,
            value: self.value,
            body,
        })
    }
}

impl<'a> CpView<'a> {
    /// Sees a message at the front of the octets, and says how many it takes.
    pub fn read(input: &'a [u8]) -> Result<(CpView<'a>, usize), Fault<RelayFault>>
        ensures found { IfOk result (λ x. Reads cp_message x.0 input.now x.1) }
        ensures refused { IfErr result (IsFaultOf cp_message Short input.now) }
        ensures exact { SeesExactly (λ view. view) cp_message input.now result }
    {
        see(input)
    }
}
