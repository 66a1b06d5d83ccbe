//! SMS-COMMAND.

ghost use Rattle.std.specs.Prelude.{◌≡◌, ◌∷◌, ◌++◌, length, OnOk};
ghost use Rattle.sms_field.specs.Address.{address_octets};
ghost use Rattle.sms_tpdu.specs.Command.{command, flags_in};
ghost use Rattle.sms_tpdu.specs.Command.Flags.{command_octet};

pub mod flags;
pub mod kind;
pub mod spans;
pub mod view;

use crate::command::flags::CommandFlags;
use crate::command::view::CommandView;
use crate::fault::UnitFault;
use crate::unit::Unit;
use crate::view::View;
use sms_field::{Address, Cursor, Octets, Refusal};
use std::alloc::{AllocError, Global};
use std::marker::Model;

/// SMS-COMMAND: what a phone asks of the service centre about a message that it has submitted (TS
/// 23.040, 9.2.2.4).
#[derive(Drop)]
pub struct Command {
    /// TP-UDHI: the command data begin with a header.
    pub has_header: bool,
    /// TP-SRR: a status report is wanted.
    pub report: bool,
    /// TP-MR: the reference by which the phone tells its submissions and commands apart.
    pub reference: u8,
    /// TP-PID: the protocol identifier.
    pub pid: u8,
    /// TP-CT: what is asked; `CommandKind::of` says it in words.
    pub kind: u8,
    /// TP-MN: the reference of the message in question.
    pub message: u8,
    /// TP-DA: the recipient of that message.
    pub target: Address,
    /// TP-CDL and TP-CD: the data of the command, at most 157 octets.
    pub octets: Octets,
}

impl Model for Command {
    ghost use Rattle.sms_tpdu.specs.Command.{CommandValue, IsCommand};

    ghost Value = { CommandValue };

    ghost view = { λ c. record {
      has_header = c.has_header;
      report = c.report;
      reference = c.reference;
      pid = c.pid;
      kind = c.kind;
      message = c.message;
      target = c.target;
      octets = c.octets;
    } };

    ghost invariant = { λ c. IsCommand (record {
      has_header = c.has_header;
      report = c.report;
      reference = c.reference;
      pid = c.pid;
      kind = c.kind;
      message = c.message;
      target = c.target;
      octets = c.octets;
    }) };
}

/// The most octets before the command data.
const FRONT_MAX: usize = 18;

impl Command {
    /// The flags in the first octet.
    fn flags(&self) -> CommandFlags
        ensures { result ≡ flags_in self.now }
    {
        CommandFlags {
            report: self.report,
            header: self.has_header,
        }
    }

    /// Adds the octets before TP-CDL.
    fn put_front(&self, out: &mut Vec<u8>) -> Result<(), AllocError>
        ensures { OnOk result (out.new.items ≡ out.old.items ++
            (command_octet (flags_in self.now) ∷ self.now.reference ∷ self.now.pid ∷
            self.now.kind ∷ self.now.message ∷ address_octets self.now.target)) }
    {
        let flags = self.flags().to_octet();
        out.extend_from_slice(&[flags, self.reference, self.pid, self.kind, self.message])?;
        self.target.write_to(out)
    }

    /// Adds TP-CDL and TP-CD.
    fn put_data(&self, out: &mut Vec<u8>) -> Result<(), AllocError>
        ensures { OnOk result (out.new.items ≡ out.old.items ++
            (length self.now.octets ∷ self.now.octets)) }
    {
        let octets = self.octets.as_slice();
        out.push(octets.len() as u8)?;
        out.extend_from_slice(octets)
    }
}

/// Another type is `UnitFault::WrongType`, and command data above 157 octets are
/// `UnitFault::DataTooLong`.
impl Unit for Command {
    ghost use Rattle.sms_tpdu.specs.Command.{command, SpellsCommand};
    ghost use Rattle.sms_tpdu.specs.Inside.CommandLaws.{command_laws};

    type Why = UnitFault;

    ghost field = { command };

    ghost spells = { SpellsCommand };

    fn read_at(alloc: Global, input: &mut Cursor) -> Result<Command, Refusal<UnitFault>> {
        let view = CommandView::read_at(input)?;
        Ok(view.to_value(alloc)?)
    }

    fn write(&self, alloc: Global) -> Result<Vec<u8>, AllocError> {
        let room = self.octets.as_slice().len().saturating_add(FRONT_MAX);
        let mut out = Vec::with_capacity(alloc, room)?;
        self.put_front(&mut out)?;
        self.put_data(&mut out)?;
        Ok(out)
    }

    ghost laws = { command_laws };
}
