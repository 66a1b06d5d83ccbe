//! SMS-COMMAND (3GPP TS 23.040, 9.2.2.4).

ghost use Rattle.std.specs.Prelude.{◌≡◌, ◌<◌};
ghost use Rattle.sms_field.specs.Reading.{Reads};
ghost use Rattle.sms_field.specs.Reading.WholeAnswer.{IsFaultOf};
ghost use Rattle.sms_field.specs.declared.refusal.Fault.{Fault as TheFault};
ghost use Rattle.sms_tpdu.specs.Command.{CommandValue, command};
ghost use Rattle.sms_tpdu.specs.declared.fault.UnitFault.{UnitFault};
ghost use Rattle.sms_tpdu.specs.declared.fault.UnitFault.TheVariants.{Short};
ghost use Rattle.sms_c.specs.Status.{unit_refused as told};
ghost use Rattle.sms_c.specs.SeenCommand.{ShowsCommand};

use crate::parts::{AddressSeen, Span, address_seen, bit, some_span};
use crate::status::{OK, Refused, unit_refused};
use sms_tpdu::CommandView;

/// An SMS-COMMAND, and where its parts lie.
#[repr(C)]
#[derive(Clone, Copy)]
pub struct CommandSeen {
    /// TP-DA.
    pub target: AddressSeen,
    /// The octets of TP-CD.
    pub data: Span,
    /// The header at their front, after its length octet.
    pub header: Span,
    /// How many octets the unit takes.
    pub used: usize,
    /// TP-UDHI.
    pub has_header: u8,
    /// TP-SRR.
    pub report: u8,
    /// TP-MR.
    pub reference: u8,
    /// TP-PID.
    pub pid: u8,
    /// TP-CT.
    pub kind: u8,
    /// TP-MN.
    pub message: u8,
}

/// What C sees of an SMS-COMMAND that takes so many of the octets.
fn command_seen(octets: &[u8], view: &CommandView, used: usize) -> CommandSeen
    requires { Reads command view.now octets.now used }
    ensures used { result.used ≡ used }
    ensures shows { ShowsCommand view.now octets.now result }
{
    let spans = view.spans(octets, used);
    CommandSeen {
        target: address_seen(&view.target, spans.target),
        data: Span::at(spans.data.octets),
        header: some_span(spans.data.header),
        used,
        has_header: bit(view.has_header),
        report: bit(view.report),
        reference: view.reference,
        pid: view.pid,
        kind: view.kind,
        message: view.message,
    }
}

/// Sees an SMS-COMMAND at the front of the octets.
#[unsafe(no_mangle)]
pub extern "C" fn sms_command_read(
    octets: &[u8],
    out: &mut CommandSeen,
    refused: &mut Refused,
) -> u32
    ensures status { result < 2 }
    ensures untold { result ≡ 0 → refused.new ≡ refused.old }
    ensures read { result ≡ 0 → (value : CommandValue)
        × Reads command value octets.now out.new.used × ShowsCommand value octets.now out.new }
    ensures refused { result ≡ 1 → (fault : TheFault UnitFault)
        × IsFaultOf command Short octets.now fault × (refused.new ≡ told fault)
        × (out.new ≡ out.old) }
{
    match CommandView::read(octets) {
        Ok((view, used)) => {
            *out = command_seen(octets, &view, used);
            OK
        }
        Err(fault) => unit_refused(refused, fault),
    }
}
