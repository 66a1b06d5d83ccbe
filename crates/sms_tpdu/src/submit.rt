//! SMS-SUBMIT.

ghost use Rattle.std.specs.Prelude.{◌≡◌, ◌∷◌, ◌++◌, OnOk};
ghost use Rattle.sms_field.specs.Address.{address_octets};
ghost use Rattle.sms_tpdu.specs.Submit.{submit, flags_in};
ghost use Rattle.sms_tpdu.specs.Submit.Flags.{submit_octet};
ghost use Rattle.sms_tpdu.specs.Submit.ValidityPeriod.{validity_octets};

pub mod flags;
pub mod front;
pub mod spans;
pub mod validity;
pub mod view;

use crate::fault::UnitFault;
use crate::submit::flags::SubmitFlags;
use crate::submit::front::{FRONT_MAX, put_front};
use crate::submit::validity::ValidityFormat;
use crate::submit::view::SubmitView;
use crate::unit::Unit;
use crate::user_data::UserData;
use crate::user_data::writing::{put_user_data, room_for_user_data};
use crate::view::View;
use sms_field::{Address, Cursor, Refusal, Validity};
use std::alloc::{AllocError, Global};
use std::marker::Model;

/// SMS-SUBMIT: a message on its way from a phone to a service centre (TS 23.040, 9.2.2.2).
#[derive(Drop)]
pub struct Submit {
    /// TP-RD: a repeat is to be rejected.
    pub reject: bool,
    /// TP-VPF and TP-VP: how long the service centre shall try to deliver.
    pub validity: Validity,
    /// TP-SRR: a status report is wanted.
    pub report: bool,
    /// TP-RP: a reply goes by the same service centre.
    pub reply: bool,
    /// TP-MR: the reference by which the phone tells its submissions apart.
    pub reference: u8,
    /// TP-DA: the recipient.
    pub target: Address,
    /// TP-PID: the protocol identifier.
    pub pid: u8,
    /// TP-DCS: the data coding scheme.
    pub dcs: u8,
    /// TP-UDHI, TP-UDL and TP-UD: septets exactly where the data coding scheme says the 7-bit
    /// alphabet, else octets.
    pub user: UserData,
}

impl Model for Submit {
    ghost use Rattle.sms_tpdu.specs.Submit.{Submission, IsSubmittable};

    ghost Value = { Submission };

    ghost view = { λ s. record {
      reject = s.reject;
      validity = s.validity;
      report = s.report;
      reply = s.reply;
      reference = s.reference;
      target = s.target;
      pid = s.pid;
      dcs = s.dcs;
      user = s.user;
    } };

    ghost invariant = { λ s. IsSubmittable (record {
      reject = s.reject;
      validity = s.validity;
      report = s.report;
      reply = s.reply;
      reference = s.reference;
      target = s.target;
      pid = s.pid;
      dcs = s.dcs;
      user = s.user;
    }) };
}

impl Submit {
    /// The flags in the first octet.
    fn flags(&self) -> SubmitFlags
        ensures { result ≡ flags_in self.now }
    {
        SubmitFlags {
            reject: self.reject,
            format: ValidityFormat::of(&self.validity),
            report: self.report,
            header: self.user.header.is_some(),
            reply: self.reply,
        }
    }

    /// Adds the octets before the user data.
    fn put_front(&self, out: &mut Vec<u8>) -> Result<(), AllocError>
        ensures { OnOk result (out.new.items ≡ out.old.items ++
            (submit_octet (flags_in self.now) ∷ self.now.reference ∷
            (address_octets self.now.target ++
            (self.now.pid ∷ self.now.dcs ∷ validity_octets self.now.validity)))) }
    {
        put_front(
            out,
            self.flags(),
            self.reference,
            &self.target,
            self.pid,
            self.dcs,
            &self.validity,
        )?;
        Ok(())
    }
}

impl Unit for Submit {
    ghost use Rattle.sms_tpdu.specs.Submit.{submit, SpellsSubmit};
    ghost use Rattle.sms_tpdu.specs.Inside.SubmitLaws.{submit_laws};

    type Why = UnitFault;

    ghost field = { submit };

    ghost spells = { SpellsSubmit };

    fn read_at(alloc: Global, input: &mut Cursor) -> Result<Submit, Refusal<UnitFault>> {
        let view = SubmitView::read_at(input)?;
        Ok(view.to_value(alloc)?)
    }

    fn write(&self, alloc: Global) -> Result<Vec<u8>, AllocError> {
        let room = room_for_user_data(&self.user).saturating_add(FRONT_MAX);
        let mut out = Vec::with_capacity(alloc, room)?;
        self.write_to(&mut out)?;
        Ok(out)
    }

    fn write_to(&self, out: &mut Vec<u8>) -> Result<(), AllocError> {
        self.put_front(out)?;
        put_user_data(out, &self.user)?;
        Ok(())
    }

    ghost laws = { submit_laws };
}
