//! How the parts of a report that are there are written.

ghost use Rattle.std.specs.Prelude.{◌≡◌, ◌≤◌, ℕ, ◌++◌, length, Option, OnOk};
ghost use Rattle.sms_tpdu.specs.Report.AnnouncedParts as formats;
ghost use Rattle.sms_tpdu.specs.Report.AnnouncedParts.{octet_if_some, data_if_some, parts_octets};

use crate::report::indicator::Indicator;
use crate::report::parts::ReportData;
use std::alloc::AllocError;

/// The indicator of these parts.
pub fn indicator_of(pid: Option<u8>, dcs: Option<u8>, user: &Option<ReportData>) -> Indicator
    ensures { result ≡ formats.indicator_of (record { pid = pid; dcs = dcs; user = user.now }) }
{
    Indicator {
        pid: pid.is_some(),
        dcs: dcs.is_some(),
        user: user.is_some(),
    }
}

/// Room for the parts of a report.
pub fn room_for_parts(user: &Option<ReportData>) -> usize
    ensures { (pid dcs : Option ℕ) →
        length (parts_octets (record { pid = pid; dcs = dcs; user = user.now })) ≤ result }
{
    match user {
        Some(user) => 3 + user.octets.as_slice().len(),
        None => 2,
    }
}

/// Adds an octet, where it is there.
fn put_octet(out: &mut Vec<u8>, octet: Option<u8>) -> Result<(), AllocError>
    ensures { OnOk result (out.new.items ≡ out.old.items ++ octet_if_some octet) }
{
    if let Some(octet) = octet {
        out.push(octet)?;
    }
    Ok(())
}

/// Adds the data of a report, where they are there.
fn put_data(out: &mut Vec<u8>, user: &Option<ReportData>) -> Result<(), AllocError>
    ensures { OnOk result (out.new.items ≡ out.old.items ++ data_if_some user.now) }
{
    if let Some(user) = user {
        out.push(user.length)?;
        out.extend_from_slice(user.octets.as_slice())?;
    }
    Ok(())
}

/// Adds the parts of a report that are there.
pub fn put_parts(
    out: &mut Vec<u8>,
    pid: Option<u8>,
    dcs: Option<u8>,
    user: &Option<ReportData>,
) -> Result<(), AllocError>
    ensures { OnOk result (out.new.items ≡ out.old.items ++
        parts_octets (record { pid = pid; dcs = dcs; user = user.now })) }
{
    put_octet(out, pid)?;
    put_octet(out, dcs)?;
    put_data(out, user)
}
