//! What is told before more is read.

ghost use Rattle.std.specs.Prelude.{◌≡◌, [], false, IfErr, OnOk};
ghost use Rattle.std.specs.Io.KnownBytes.{Appends};
ghost use Rattle.sms_feed.specs.Faults.{IsTold};
ghost use Rattle.sms_feed.specs.Shown.{Stays};

use crate::fault::FeedFault;
use sms_page::{Page, PageFault};
use std::io::Write;

/// Writes what stands on a page.
pub(crate) fn write_page<W: Write>(page: &mut Page, output: &mut W) -> Result<(), FeedFault>
    ensures stays { OnOk result
        (Stays (W.contents output.old) page.old (W.contents output.new) page.new) }
    ensures empty { OnOk result (page.new ≡ record { octets = []; is_cut = false }) }
    ensures whole { OnOk result
        (Appends (W.contents output.old) (W.contents output.new) page.old.octets) }
{
    page.write_to(output)?;
    Ok(())
}

/// Writes what stands on the page, and flushes the output.
pub(crate) fn write_out<W: Write>(page: &mut Page, output: &mut W) -> Result<(), FeedFault>
    ensures page { OnOk result ((page.old.is_cut ≡ false)
        × (page.new ≡ record { octets = []; is_cut = false })
        × Appends (W.contents output.old) (W.contents output.new) page.old.octets) }
    ensures written { IfErr result (λ fault. IsTold fault (W.contents output.old) page.old
        (W.contents output.new)) }
{
    page.write_to(output)?;
    output.flush().map_err(PageFault::Output)?;
    Ok(())
}
