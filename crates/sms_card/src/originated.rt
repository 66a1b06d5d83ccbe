//! What the phone wrote, in a record.

ghost use Rattle.std.specs.Prelude.{◌≡◌, IfOk};
ghost use Rattle.sms_card.specs.Originated as formats;
ghost use Rattle.sms_card.specs.Originated.{SpellsOriginated};

pub mod view;

use crate::fault::RecordFault;
use sms_field::has_bit;
use sms_tpdu::{Command, Submit, Unit, UnitFault};
use std::alloc::{AllocError, Global};

/// A unit of the phone: TP-MTI tells which.
#[derive(Drop)]
pub enum OriginatedUnit {
    /// SMS-SUBMIT.
    Submit(Submit),
    /// SMS-COMMAND.
    Command(Command),
}

/// Which unit the phone wrote.
#[derive(Clone, Copy)]
pub enum OriginatedKind {
    /// SMS-SUBMIT.
    Submit,
    /// SMS-COMMAND.
    Command,
}

impl OriginatedKind {
    /// The kind that the first octet of a unit tells (TP-MTI).
    pub fn from_octet(octet: u8) -> Result<OriginatedKind, RecordFault>
        ensures { result ≡ formats.originated_kind octet }
    {
        match (has_bit(octet, 1), has_bit(octet, 0)) {
            (false, true) => Ok(OriginatedKind::Submit),
            (true, false) => Ok(OriginatedKind::Command),
            (false, false) => Err(RecordFault::Unit(UnitFault::WrongType)),
            (true, true) => Err(RecordFault::Unit(UnitFault::WrongType)),
        }
    }
}

impl OriginatedUnit {
    /// The octets of the unit.
    pub(crate) fn write(&self, alloc: Global) -> Result<Vec<u8>, AllocError>
        ensures { IfOk result (λ octets. SpellsOriginated self.now octets.items) }
    {
        match self {
            OriginatedUnit::Submit(submit) => submit.write(alloc),
            OriginatedUnit::Command(command) => command.write(alloc),
        }
    }
}
