//! SMS-SUBMIT, seen in its octets.

ghost use Rattle.std.specs.Prelude.{IfOk, IfErr};
ghost use Rattle.sms_field.specs.Coding.{alphabet_at};
ghost use Rattle.sms_tpdu.specs.UserData.Text.{text_of_body, AnswersText};
ghost use Rattle.sms_field.specs.Reading.{Reads};
ghost use Rattle.sms_field.specs.Reading.WholeAnswer.{IsFaultOf, SeesExactly};
ghost use Rattle.sms_tpdu.specs.Submit.{submit};
ghost use Rattle.sms_tpdu.specs.declared.fault.UnitFault.TheVariants.{Short};

use crate::address::address_seen_at;
use crate::fault::UnitFault;
use crate::submit::Submit;
use crate::submit::flags::SubmitFlags;
use crate::submit::validity::validity_at;
use crate::user_data::view::UserDataView;
use crate::view::{View, see};
use sms_field::{AddressView, Cursor, Fault, Validity, alphabet_of};
use std::alloc::{AllocError, Global};
use std::marker::Model;

/// An SMS-SUBMIT where it lies in its octets. Contracts see it as the message.
#[derive(Drop)]
pub struct SubmitView<'a> {
    /// TP-RD: a repeat is to be rejected.
    pub reject: bool,
    /// TP-VPF and TP-VP: how long the service centre shall try to deliver.
    pub validity: Validity,
    /// TP-SRR: a status report is wanted.
    pub report: bool,
    /// TP-RP: a reply goes by the same service centre.
    pub reply: bool,
    /// TP-MR: the reference by which the phone tells its submissions apart.
    pub reference: u8,
    /// TP-DA: the recipient.
    pub target: AddressView<'a>,
    /// TP-PID: the protocol identifier.
    pub pid: u8,
    /// TP-DCS: the data coding scheme.
    pub dcs: u8,
    /// TP-UDHI, TP-UDL and TP-UD: septets exactly where the data coding scheme says the 7-bit
    /// alphabet, else octets.
    pub user: UserDataView<'a>,
}

impl<'a> Model for SubmitView<'a> {
    ghost use Rattle.sms_tpdu.specs.Submit.{Submission, IsSubmittable};

    ghost Value = { Submission };

    ghost view = { λ s. record {
      reject = s.reject;
      validity = s.validity;
      report = s.report;
      reply = s.reply;
      reference = s.reference;
      target = s.target;
      pid = s.pid;
      dcs = s.dcs;
      user = s.user;
    } };

    ghost invariant = { λ s. IsSubmittable (record {
      reject = s.reject;
      validity = s.validity;
      report = s.report;
      reply = s.reply;
      reference = s.reference;
      target = s.target;
      pid = s.pid;
      dcs = s.dcs;
      user = s.user;
    }) };
}

impl<'a> View<'a> for SubmitView<'a> {
    type Owned = Submit;

    ghost value = { λ s. s };

    #[tactic(auto, unfolding(crate::specs::Submit::submit))]
    fn read_at(input: &mut Cursor<'a>) -> Result<SubmitView<'a>, Fault<UnitFault>> {
        let flags = input.take_octet_by(SubmitFlags::from_octet)?;
        let reference = input.take_octet()?;
        let target = address_seen_at(input)?;
        let pid = input.take_octet()?;
        let dcs = input.take_octet()?;
        let validity = validity_at(input, flags.format)?;
        let user = UserDataView::read_at(input, flags.header, alphabet_of(dcs))?;
        Ok(SubmitView {
            reject: flags.reject,
            validity,
            report: flags.report,
            reply: flags.reply,
            reference,
            target,
            pid,
            dcs,
            user,
        })
    }

    fn to_value(&self, alloc: Global) -> Result<Submit, AllocError> {
        let target = self.target.to_value(alloc)?;
        let user = self.user.to_value(alloc)?;
        Ok(Submit {
            reject: self.reject,
            validity: self.validity,
            report: self.report,
            reply: self.reply,
            reference: self.reference,
            target,
            pid: self.pid,
            dcs: self.dcs,
            user,
        })
    }
}

impl<'a> SubmitView<'a> {
    /// Sees a submission at the front of the octets, and says how many it takes.
    #[inline(always)]
    pub fn read(input: &'a [u8]) -> Result<(SubmitView<'a>, usize), Fault<UnitFault>>
        ensures found { IfOk result (λ x. Reads submit x.0 input.now x.1) }
        ensures refused { IfErr result (IsFaultOf submit Short input.now) }
        ensures exact { SeesExactly (λ view. view) submit input.now result }
    {
        see(input)
    }

    /// The text that the message carries, made straight from its octets; none where its data coding
    /// scheme tells another alphabet than the default one and UCS-2.
    pub fn text(&self, alloc: Global) -> Result<Option<String>, AllocError>
        ensures { let text = text_of_body (alphabet_at self.now.dcs) self.now.user.body in
            AnswersText text result }
    {
        self.user.body().text(alloc, alphabet_of(self.dcs))
    }
}
