//! The fields of a report, one a line.

ghost use Rattle.std.specs.Prelude.{◌≡◌};

use crate::fault::ShowFault;
use crate::times::StampText;
use sms_answer::{Answer, Hexadecimal, Lines, Octet};
use sms_tpdu::{DeliverAckView, DeliverErrorView, ReportDataView, SubmitAckView, SubmitErrorView};

/// The lines of what a report need not have.
pub fn put_parts(
    lines: &mut Lines,
    pid: Option<u8>,
    dcs: Option<u8>,
    user: &Option<ReportDataView<'_>>,
)
    ensures { lines.new ≡ lines.old }
{
    if let Some(pid) = pid {
        lines.put("pid", Octet(pid));
    }
    if let Some(dcs) = dcs {
        lines.put("dcs", Octet(dcs));
    }
    if let Some(user) = user {
        lines.put("length", user.length);
        lines.put("user", Hexadecimal(user.octets));
    }
}

/// Writes the fields of an SMS-SUBMIT-REPORT under an acknowledgement.
pub fn show_submit_ack(octets: &[u8], lines: &mut Lines) -> Result<(), ShowFault>
    ensures { lines.new ≡ lines.old }
{
    let (report, used) = SubmitAckView::read(octets)?;
    lines.put_word("type", "submit-ack");
    lines.put("header", Answer(report.has_header));
    lines.put("stamp", StampText(report.stamp));
    put_parts(lines, report.pid, report.dcs, &report.user);
    lines.put_rest(octets.len() - used);
    Ok(())
}

/// Writes the fields of an SMS-SUBMIT-REPORT under an error.
pub fn show_submit_error(octets: &[u8], lines: &mut Lines) -> Result<(), ShowFault>
    ensures { lines.new ≡ lines.old }
{
    let (report, used) = SubmitErrorView::read(octets)?;
    lines.put_word("type", "submit-error");
    lines.put("header", Answer(report.has_header));
    lines.put("cause", Octet(report.cause));
    lines.put("stamp", StampText(report.stamp));
    put_parts(lines, report.pid, report.dcs, &report.user);
    lines.put_rest(octets.len() - used);
    Ok(())
}

/// Writes the fields of an SMS-DELIVER-REPORT under an acknowledgement.
pub fn show_deliver_ack(octets: &[u8], lines: &mut Lines) -> Result<(), ShowFault>
    ensures { lines.new ≡ lines.old }
{
    let (report, used) = DeliverAckView::read(octets)?;
    lines.put_word("type", "deliver-ack");
    lines.put("header", Answer(report.has_header));
    put_parts(lines, report.pid, report.dcs, &report.user);
    lines.put_rest(octets.len() - used);
    Ok(())
}

/// Writes the fields of an SMS-DELIVER-REPORT under an error.
pub fn show_deliver_error(octets: &[u8], lines: &mut Lines) -> Result<(), ShowFault>
    ensures { lines.new ≡ lines.old }
{
    let (report, used) = DeliverErrorView::read(octets)?;
    lines.put_word("type", "deliver-error");
    lines.put("header", Answer(report.has_header));
    lines.put("cause", Octet(report.cause));
    put_parts(lines, report.pid, report.dcs, &report.user);
    lines.put_rest(octets.len() - used);
    Ok(())
}
