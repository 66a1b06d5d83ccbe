//! An indicator and the parts of a report, or nothing at all.

ghost use Rattle.std.specs.Prelude.{◌≡◌, ◌++◌, IfOk, OnOk};
ghost use Rattle.sms_field.specs.Reading.Answer.{Sees};
ghost use Rattle.sms_tpdu.specs.Report.AnnouncedParts.{AreParts};
ghost use Rattle.sms_tpdu.specs.Report.Indicated as formats;
ghost use Rattle.sms_tpdu.specs.Report.Indicated.{indicated_parts, optional_parts_octets};

use crate::fault::UnitFault;
use crate::report::indicator::{Indicator, indicator_at};
use crate::report::parts::{PartsView, ReportData};
use crate::report::writing::{indicator_of, put_parts};
use sms_field::{Cursor, Fault};
use std::alloc::AllocError;

/// An indicator, and the parts that it says are there.
#[tactic(auto, unfolding(crate::specs::Report::Indicated::indicated_parts))]
fn indicated_parts_at<'a>(input: &mut Cursor<'a>) -> Result<PartsView<'a>, Fault<UnitFault>>
    ensures fit { IfOk result AreParts }
    ensures read { Sees indicated_parts input.old result input.new }
{
    let there = indicator_at(input)?;
    PartsView::read_at(input, there)
}

/// A report's parts where none is there.
fn no_parts<'a>() -> PartsView<'a>
    ensures { result ≡ formats.no_parts }
{
    PartsView {
        pid: None,
        dcs: None,
        user: None,
    }
}

/// The parts after their indicator, or none where no octet follows.
pub fn optional_parts_at<'a>(input: &mut Cursor<'a>) -> Result<PartsView<'a>, Fault<UnitFault>>
    ensures fit { IfOk result AreParts }
    ensures read { Sees formats.optional_parts input.old result input.new }
{
    if input.rest().is_empty() {
        return Ok(no_parts());
    }
    indicated_parts_at(input)
}

/// Whether one of the parts is there.
fn is_any(there: Indicator) -> bool
    ensures { result ≡ formats.is_any there }
{
    there.pid || there.dcs || there.user
}

/// Adds an indicator and the parts of a report, where one of them is there.
pub fn put_optional_parts(
    out: &mut Vec<u8>,
    pid: Option<u8>,
    dcs: Option<u8>,
    user: &Option<ReportData>,
) -> Result<(), AllocError>
    ensures { OnOk result (out.new.items ≡ out.old.items ++
        optional_parts_octets (record { pid = pid; dcs = dcs; user = user.now })) }
{
    let there = indicator_of(pid, dcs, user);
    if is_any(there) {
        out.push(there.to_octet())?;
        put_parts(out, pid, dcs, user)?;
    }
    Ok(())
}
