//! What stands before the user data of an SMS-DELIVER, and user data that are lent after it.

ghost use Rattle.std.specs.Prelude.{◌≡◌, ◌∷◌, ◌++◌, IfOk, OnOk};
ghost use Rattle.sms_field.specs.Address.{address_octets};
ghost use Rattle.sms_field.specs.Coding.{alphabet_at};
ghost use Rattle.sms_tpdu.specs.Deliver.{SpellsDeliver};
ghost use Rattle.sms_tpdu.specs.Deliver.Flags.{deliver_octet};
ghost use Rattle.sms_tpdu.specs.Deliver.Front.{delivery_with, front_flags};
ghost use Rattle.sms_tpdu.specs.UserData.{FitsAlphabet};

use crate::deliver::flags::DeliverFlags;
use crate::user_data::UserData;
use crate::user_data::writing::{put_user_data, room_for_user_data};
use sms_field::{Address, Stamp};
use std::alloc::AllocError;
use std::marker::Model;

/// The most octets before the user data.
pub const FRONT_MAX: usize = 22;

/// The fields of an SMS-DELIVER but its user data (TS 23.040, 9.2.2.1).
#[derive(Drop)]
pub struct DeliverFront {
    /// TP-MMS: more messages wait in the service centre.
    pub more: bool,
    /// TP-LP: the message was forwarded before, or was made because of another one.
    pub looped: bool,
    /// TP-SRI: a status report will go to the sender.
    pub report: bool,
    /// TP-RP: a reply goes by the same service centre.
    pub reply: bool,
    /// TP-OA: the sender.
    pub origin: Address,
    /// TP-PID: the protocol identifier.
    pub pid: u8,
    /// TP-DCS: the data coding scheme.
    pub dcs: u8,
    /// TP-SCTS: when the service centre took the message.
    pub stamp: Stamp,
}

impl Model for DeliverFront {
    ghost use Rattle.sms_tpdu.specs.Deliver.Front.{Front, IsFront};

    ghost Value = { Front };

    ghost view = { λ f. record {
      more = f.more;
      looped = f.looped;
      report = f.report;
      reply = f.reply;
      origin = f.origin;
      pid = f.pid;
      dcs = f.dcs;
      stamp = f.stamp;
    } };

    ghost invariant = { λ f. IsFront (record {
      more = f.more;
      looped = f.looped;
      report = f.report;
      reply = f.reply;
      origin = f.origin;
      pid = f.pid;
      dcs = f.dcs;
      stamp = f.stamp;
    }) };
}

/// Adds the octets before the user data.
pub fn put_front(
    out: &mut Vec<u8>,
    flags: DeliverFlags,
    origin: &Address,
    pid: u8,
    dcs: u8,
    stamp: Stamp,
) -> Result<(), AllocError>
    ensures { OnOk result (out.new.items ≡ out.old.items ++
        (deliver_octet flags ∷ (address_octets origin.now ++ (pid ∷ dcs ∷ stamp)))) }
{
    out.push(flags.to_octet())?;
    origin.write_to(out)?;
    out.extend_from_slice(&[pid, dcs])?;
    out.extend_from_slice(&stamp.octets())
}

impl DeliverFront {
    ghost use Rattle.sms_tpdu.specs.Deliver.Front.{IsFront};

    /// The flags in the first octet.
    fn flags(&self, header: bool) -> DeliverFlags
        ensures { result ≡ front_flags self.now header }
    {
        DeliverFlags {
            more: self.more,
            looped: self.looped,
            report: self.report,
            header,
            reply: self.reply,
        }
    }

    /// Adds the octets before the user data, which have a header or none.
    fn put(&self, out: &mut Vec<u8>, header: bool) -> Result<(), AllocError>
        ensures spelled { IsFront self.now }
        ensures octets { OnOk result (out.new.items ≡ out.old.items ++
            (deliver_octet (front_flags self.now header) ∷ (address_octets self.now.origin ++
            (self.now.pid ∷ self.now.dcs ∷ self.now.stamp)))) }
    {
        put_front(
            out,
            self.flags(header),
            &self.origin,
            self.pid,
            self.dcs,
            self.stamp,
        )?;
        Ok(())
    }

    /// The octets of the SMS-DELIVER with user data that are lent, written in the room of a list:
    /// whatever stood in it is gone.
    ///
    /// The user data are septets exactly where TP-DCS says the 7-bit alphabet. They have at most
    /// 160 septets, those that the header takes among them, or 140 octets.
    pub fn write_with_in(&self, room: Vec<u8>, user: &UserData) -> Result<Vec<u8>, AllocError>
        requires { FitsAlphabet (alphabet_at self.now.dcs) user.now }
        ensures { IfOk result (λ octets.
            SpellsDeliver (delivery_with self.now user.now) octets.items) }
    {
        let mut out = room;
        out.clear();
        out.reserve(room_for_user_data(user).saturating_add(FRONT_MAX))?;
        self.put(&mut out, user.header.is_some())?;
        put_user_data(&mut out, user)?;
        Ok(out)
    }
}
