//! The fields of a status report, and of a command, one a line.

ghost use Rattle.std.specs.Prelude.{◌≡◌};

use crate::fault::ShowFault;
use crate::reports::put_parts;
use crate::status_words::{CommandText, StatusText};
use crate::times::StampText;
use crate::units::put_party;
use sms_answer::{Answer, Hexadecimal, Lines, Octet};
use sms_tpdu::{CommandView, StatusReportView};
use std::alloc::Global;

/// The lines of what an SMS-STATUS-REPORT has before its address.
fn put_status_front(lines: &mut Lines, report: &StatusReportView<'_>)
    ensures { lines.new ≡ lines.old }
{
    lines.put_word("type", "status-report");
    lines.put("more", Answer(report.more));
    lines.put("loop", Answer(report.looped));
    lines.put("qualifier", Answer(report.qualifier));
    lines.put("header", Answer(report.has_header));
    lines.put("reference", Octet(report.reference));
}

/// The lines of an SMS-STATUS-REPORT.
pub fn put_status_report(
    alloc: Global,
    lines: &mut Lines,
    report: &StatusReportView<'_>,
) -> Result<(), ShowFault>
    ensures { lines.new ≡ lines.old }
{
    put_status_front(lines, report);
    put_party(alloc, lines, "recipient", &report.recipient)?;
    lines.put("stamp", StampText(report.stamp));
    lines.put("discharged", StampText(report.discharged));
    lines.put("status", StatusText(report.status));
    put_parts(lines, report.pid, report.dcs, &report.user);
    Ok(())
}

/// Writes the fields of an SMS-STATUS-REPORT.
pub fn show_status_report(alloc: Global, octets: &[u8], lines: &mut Lines) -> Result<(), ShowFault>
    ensures { lines.new ≡ lines.old }
{
    let (report, used) = StatusReportView::read(octets)?;
    put_status_report(alloc, lines, &report)?;
    lines.put_rest(octets.len() - used);
    Ok(())
}

/// The lines of what an SMS-COMMAND has before its address.
fn put_command_front(lines: &mut Lines, view: &CommandView<'_>)
    ensures { lines.new ≡ lines.old }
{
    lines.put_word("type", "command");
    lines.put("header", Answer(view.has_header));
    lines.put("report", Answer(view.report));
    lines.put("reference", Octet(view.reference));
    lines.put("pid", Octet(view.pid));
    lines.put("command", CommandText(view.kind));
    lines.put("message", Octet(view.message));
}

/// The lines of an SMS-COMMAND.
pub fn put_command(
    alloc: Global,
    lines: &mut Lines,
    view: &CommandView<'_>,
) -> Result<(), ShowFault>
    ensures { lines.new ≡ lines.old }
{
    put_command_front(lines, view);
    put_party(alloc, lines, "recipient", &view.target)?;
    let added = view.octets.as_slice();
    lines.put("length", added.len());
    lines.put("data", Hexadecimal(added));
    Ok(())
}

/// Writes the fields of an SMS-COMMAND.
pub fn show_command(alloc: Global, octets: &[u8], lines: &mut Lines) -> Result<(), ShowFault>
    ensures { lines.new ≡ lines.old }
{
    let (view, used) = CommandView::read(octets)?;
    put_command(alloc, lines, &view)?;
    lines.put_rest(octets.len() - used);
    Ok(())
}
