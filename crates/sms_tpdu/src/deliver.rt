//! SMS-DELIVER.

ghost use Rattle.std.specs.Prelude.{◌≡◌, ◌∷◌, ◌++◌, OnOk};
ghost use Rattle.sms_field.specs.Address.{address_octets};
ghost use Rattle.sms_tpdu.specs.Deliver.{deliver, flags_in};
ghost use Rattle.sms_tpdu.specs.Deliver.Flags.{deliver_octet};

pub mod flags;
pub mod front;
pub mod spans;
pub mod view;

use crate::deliver::flags::DeliverFlags;
use crate::deliver::front::{FRONT_MAX, put_front};
use crate::deliver::view::DeliverView;
use crate::fault::UnitFault;
use crate::unit::Unit;
use crate::user_data::UserData;
use crate::user_data::writing::{put_user_data, room_for_user_data};
use crate::view::View;
use sms_field::{Address, Cursor, Refusal, Stamp};
use std::alloc::{AllocError, Global};
use std::marker::Model;

/// SMS-DELIVER: a message on its way from a service centre to a phone (TS 23.040, 9.2.2.1).
#[derive(Drop)]
pub struct Deliver {
    /// TP-MMS: more messages wait in the service centre.
    pub more: bool,
    /// TP-LP: the message was forwarded before, or was made because of another one. A centre does
    /// not forward it again.
    pub looped: bool,
    /// TP-SRI: a status report will go to the sender.
    pub report: bool,
    /// TP-RP: a reply goes by the same service centre.
    pub reply: bool,
    /// TP-OA: the sender.
    pub origin: Address,
    /// TP-PID: the protocol identifier.
    pub pid: u8,
    /// TP-DCS: the data coding scheme.
    pub dcs: u8,
    /// TP-SCTS: when the service centre took the message.
    pub stamp: Stamp,
    /// TP-UDHI, TP-UDL and TP-UD: septets exactly where the data coding scheme says the 7-bit
    /// alphabet, else octets.
    pub user: UserData,
}

impl Model for Deliver {
    ghost use Rattle.sms_tpdu.specs.Deliver.{Delivery, IsDeliverable};

    ghost Value = { Delivery };

    ghost view = { λ d. record {
      more = d.more;
      looped = d.looped;
      report = d.report;
      reply = d.reply;
      origin = d.origin;
      pid = d.pid;
      dcs = d.dcs;
      stamp = d.stamp;
      user = d.user;
    } };

    ghost invariant = { λ d. IsDeliverable (record {
      more = d.more;
      looped = d.looped;
      report = d.report;
      reply = d.reply;
      origin = d.origin;
      pid = d.pid;
      dcs = d.dcs;
      stamp = d.stamp;
      user = d.user;
    }) };
}

impl Deliver {
    /// The flags in the first octet.
    fn flags(&self) -> DeliverFlags
        ensures { result ≡ flags_in self.now }
    {
        DeliverFlags {
            more: self.more,
            looped: self.looped,
            report: self.report,
            header: self.user.header.is_some(),
            reply: self.reply,
        }
    }

    /// Adds the octets before the user data.
    fn put_front(&self, out: &mut Vec<u8>) -> Result<(), AllocError>
        ensures { OnOk result (out.new.items ≡ out.old.items ++
            (deliver_octet (flags_in self.now) ∷ (address_octets self.now.origin ++
            (self.now.pid ∷ self.now.dcs ∷ self.now.stamp)))) }
    {
        put_front(
            out,
            self.flags(),
            &self.origin,
            self.pid,
            self.dcs,
            self.stamp,
        )
    }
}

impl Unit for Deliver {
    ghost use Rattle.sms_tpdu.specs.Deliver.{deliver, SpellsDeliver};
    ghost use Rattle.sms_tpdu.specs.Inside.DeliverLaws.{deliver_laws};

    type Why = UnitFault;

    ghost field = { deliver };

    ghost spells = { SpellsDeliver };

    fn read_at(alloc: Global, input: &mut Cursor) -> Result<Deliver, Refusal<UnitFault>> {
        let view = DeliverView::read_at(input)?;
        Ok(view.to_value(alloc)?)
    }

    fn write(&self, alloc: Global) -> Result<Vec<u8>, AllocError> {
        let room = room_for_user_data(&self.user).saturating_add(FRONT_MAX);
        let mut out = Vec::with_capacity(alloc, room)?;
        self.write_to(&mut out)?;
        Ok(out)
    }

    fn write_to(&self, out: &mut Vec<u8>) -> Result<(), AllocError> {
        self.put_front(out)?;
        put_user_data(out, &self.user)?;
        Ok(())
    }

    ghost laws = { deliver_laws };
}
