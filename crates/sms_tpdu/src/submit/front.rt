//! What stands before the user data of an SMS-SUBMIT, and user data that are lent after it.

ghost use Rattle.std.specs.Prelude.{◌≡◌, ◌∷◌, ◌++◌, IfOk, IfSome, OnOk};
ghost use Rattle.sms_field.specs.Address.{address_octets};
ghost use Rattle.sms_field.specs.Coding.{alphabet_at};
ghost use Rattle.sms_tpdu.specs.Submit.{SpellsSubmit};
ghost use Rattle.sms_tpdu.specs.Submit.Flags.{submit_octet};
ghost use Rattle.sms_tpdu.specs.Submit.Front.{submission_of, front_flags};
ghost use Rattle.sms_tpdu.specs.Submit.ValidityPeriod.{validity_octets};
ghost use Rattle.sms_tpdu.specs.UserData.{FitsAlphabet};
ghost use Rattle.sms_tpdu.specs.UserData.Lent.{units_body, user_after, IsReferenceInRange};

use crate::submit::flags::SubmitFlags;
use crate::submit::validity::{ValidityFormat, put_validity};
use crate::user_data::concat::Concat;
use crate::user_data::lent::UnitsView;
use crate::user_data::writing::{put_lent, room_for_units};
use sms_field::{Address, Validity};
use std::alloc::{AllocError, Global};
use std::marker::Model;

/// The most octets before the user data.
pub const FRONT_MAX: usize = 23;

/// The fields of an SMS-SUBMIT but its user data (TS 23.040, 9.2.2.2).
#[derive(Drop)]
pub struct SubmitFront {
    /// TP-RD: a repeat is to be rejected.
    pub reject: bool,
    /// TP-VPF and TP-VP: how long the service centre shall try to deliver.
    pub validity: Validity,
    /// TP-SRR: a status report is wanted.
    pub report: bool,
    /// TP-RP: a reply goes by the same service centre.
    pub reply: bool,
    /// TP-MR: the reference by which the phone tells its submissions apart.
    pub reference: u8,
    /// TP-DA: the recipient.
    pub target: Address,
    /// TP-PID: the protocol identifier.
    pub pid: u8,
    /// TP-DCS: the data coding scheme.
    pub dcs: u8,
}

impl Model for SubmitFront {
    ghost use Rattle.sms_tpdu.specs.Submit.Front.{Front, IsFront};

    ghost Value = { Front };

    ghost view = { λ f. record {
      reject = f.reject;
      validity = f.validity;
      report = f.report;
      reply = f.reply;
      reference = f.reference;
      target = f.target;
      pid = f.pid;
      dcs = f.dcs;
    } };

    ghost invariant = { λ f. IsFront (record {
      reject = f.reject;
      validity = f.validity;
      report = f.report;
      reply = f.reply;
      reference = f.reference;
      target = f.target;
      pid = f.pid;
      dcs = f.dcs;
    }) };
}

/// Adds the octets before the user data.
pub fn put_front(
    out: &mut Vec<u8>,
    flags: SubmitFlags,
    reference: u8,
    target: &Address,
    pid: u8,
    dcs: u8,
    validity: &Validity,
) -> Result<(), AllocError>
    ensures { OnOk result (out.new.items ≡ out.old.items ++
        (submit_octet flags ∷ reference ∷ (address_octets target.now ++
        (pid ∷ dcs ∷ validity_octets validity.now)))) }
{
    out.extend_from_slice(&[flags.to_octet(), reference])?;
    target.write_to(out)?;
    out.extend_from_slice(&[pid, dcs])?;
    put_validity(out, validity)
}

impl SubmitFront {
    ghost use Rattle.sms_tpdu.specs.Submit.Front.{IsFront};

    /// The flags in the first octet.
    fn flags(&self, header: bool) -> SubmitFlags
        ensures { result ≡ front_flags self.now header }
    {
        SubmitFlags {
            reject: self.reject,
            format: ValidityFormat::of(&self.validity),
            report: self.report,
            header,
            reply: self.reply,
        }
    }

    /// Adds the octets before the user data, which have a header or none.
    fn put(&self, out: &mut Vec<u8>, header: bool) -> Result<(), AllocError>
        ensures spelled { IsFront self.now }
        ensures octets { OnOk result (out.new.items ≡ out.old.items ++
            (submit_octet (front_flags self.now header) ∷ self.now.reference ∷
            (address_octets self.now.target ++
            (self.now.pid ∷ self.now.dcs ∷ validity_octets self.now.validity)))) }
    {
        put_front(
            out,
            self.flags(header),
            self.reference,
            &self.target,
            self.pid,
            self.dcs,
            &self.validity,
        )?;
        Ok(())
    }

    /// The octets of the SMS-SUBMIT with user data whose units are lent: the header of the place,
    /// where one is given, and the units packed straight after it (TS 23.040, 9.2.3.24.1 and
    /// 9.2.3.24.8).
    ///
    /// The units are septets exactly where TP-DCS says the 7-bit alphabet. They have at most 160
    /// septets, those that the header takes among them, or 140 octets. With `Width::Eight` the
    /// reference of the place is below 256.
    pub fn write_with(
        &self,
        alloc: Global,
        place: Option<Concat>,
        units: UnitsView<'_>,
    ) -> Result<Vec<u8>, AllocError>
        requires reference { IfSome place IsReferenceInRange }
        requires fits { FitsAlphabet (alphabet_at self.now.dcs)
            (user_after place (units_body units)) }
        ensures { IfOk result (λ octets. SpellsSubmit
            (submission_of self.now (user_after place (units_body units.entry))) octets.items) }
    {
        self.write_with_in(Vec::new(alloc), place, units)
    }

    /// The octets of the SMS-SUBMIT with user data whose units are lent, as `write_with` has them,
    /// written in the room of a list: whatever stood in it is gone.
    pub fn write_with_in(
        &self,
        room: Vec<u8>,
        place: Option<Concat>,
        units: UnitsView<'_>,
    ) -> Result<Vec<u8>, AllocError>
        requires reference { IfSome place IsReferenceInRange }
        requires fits { FitsAlphabet (alphabet_at self.now.dcs)
            (user_after place (units_body units)) }
        ensures { IfOk result (λ octets. SpellsSubmit
            (submission_of self.now (user_after place (units_body units.entry))) octets.items) }
    {
        let mut out = room;
        out.clear();
        out.reserve(FRONT_MAX + room_for_units(place, units))?;
        self.put(&mut out, place.is_some())?;
        put_lent(&mut out, place, units)?;
        Ok(out)
    }
}
