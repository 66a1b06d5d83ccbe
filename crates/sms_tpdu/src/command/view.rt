//! SMS-COMMAND, seen in its octets.

ghost use Rattle.std.specs.Prelude.{IfOk, IfErr};
ghost use Rattle.sms_field.specs.Reading.{Reads};
ghost use Rattle.sms_field.specs.Reading.WholeAnswer.{IsFaultOf, SeesExactly};
ghost use Rattle.sms_tpdu.specs.Command.{command};
ghost use Rattle.sms_tpdu.specs.declared.fault.UnitFault.TheVariants.{Short};

use crate::address::address_seen_at;
use crate::command::Command;
use crate::command::flags::CommandFlags;
use crate::fault::UnitFault;
use crate::user_data::view::body::OctetsView;
use crate::view::{View, see};
use sms_field::{AddressView, Cursor, Fault};
use std::alloc::{AllocError, Global};
use std::marker::Model;

/// The most octets of command data.
const DATA_MAX: u8 = 157;

/// An SMS-COMMAND where it lies in its octets. Contracts see it as the command.
#[derive(Drop)]
pub struct CommandView<'a> {
    /// TP-UDHI: the command data begin with a header.
    pub has_header: bool,
    /// TP-SRR: a status report is wanted.
    pub report: bool,
    /// TP-MR: the reference by which the phone tells its submissions and commands apart.
    pub reference: u8,
    /// TP-PID: the protocol identifier.
    pub pid: u8,
    /// TP-CT: what is asked; `CommandKind::of` says it in words.
    pub kind: u8,
    /// TP-MN: the reference of the message in question.
    pub message: u8,
    /// TP-DA: the recipient of that message.
    pub target: AddressView<'a>,
    /// TP-CDL and TP-CD: the data of the command, at most 157 octets.
    pub octets: OctetsView<'a>,
}

impl<'a> Model for CommandView<'a> {
    ghost use Rattle.sms_tpdu.specs.Command.{CommandValue, IsCommand};

    ghost Value = { CommandValue };

    ghost view = { λ c. record {
      has_header = c.has_header;
      report = c.report;
      reference = c.reference;
      pid = c.pid;
      kind = c.kind;
      message = c.message;
      target = c.target;
      octets = c.octets;
    } };

    ghost invariant = { λ c. IsCommand (record {
      has_header = c.has_header;
      report = c.report;
      reference = c.reference;
      pid = c.pid;
      kind = c.kind;
      message = c.message;
      target = c.target;
      octets = c.octets;
    }) };
}

impl<'a> View<'a> for CommandView<'a> {
    type Owned = Command;

    ghost value = { λ c. c };

    #[tactic(auto, unfolding(crate::specs::Command::command))]
    fn read_at(input: &mut Cursor<'a>) -> Result<CommandView<'a>, Fault<UnitFault>> {
        let flags = input.take_octet_by(CommandFlags::from_octet)?;
        let reference = input.take_octet()?;
        let pid = input.take_octet()?;
        let kind = input.take_octet()?;
        let message = input.take_octet()?;
        let target = address_seen_at(input)?;
        let count = input.take_octet_up_to(DATA_MAX, UnitFault::DataTooLong)?;
        let octets = input.take_octets(count as usize)?;
        Ok(CommandView {
            has_header: flags.header,
            report: flags.report,
            reference,
            pid,
            kind,
            message,
            target,
            octets: OctetsView::new(octets),
        })
    }

    fn to_value(&self, alloc: Global) -> Result<Command, AllocError> {
        let target = self.target.to_value(alloc)?;
        let octets = self.octets.to_value(alloc)?;
        Ok(Command {
            has_header: self.has_header,
            report: self.report,
            reference: self.reference,
            pid: self.pid,
            kind: self.kind,
            message: self.message,
            target,
            octets,
        })
    }
}

impl<'a> CommandView<'a> {
    /// Sees a command at the front of the octets, and says how many it takes.
    pub fn read(input: &'a [u8]) -> Result<(CommandView<'a>, usize), Fault<UnitFault>>
        ensures found { IfOk result (λ x. Reads command x.0 input.now x.1) }
        ensures refused { IfErr result (IsFaultOf command Short input.now) }
        ensures exact { SeesExactly (λ view. view) command input.now result }
    {
        see(input)
    }
}
