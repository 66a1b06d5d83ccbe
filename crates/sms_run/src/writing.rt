//! What stands on the page before and after a line.

ghost use Rattle.std.specs.Prelude.{OnOk};
ghost use Rattle.sms_feed.specs.Shown.{Stays};

use sms_feed::FeedFault;
use sms_page::Page;
use std::io::Write;

/// Writes what stands on a page that has no room for what is told of a line.
pub(crate) fn make_room<W: Write>(page: &mut Page, output: &mut W) -> Result<(), FeedFault>
    ensures { OnOk result
        (Stays (W.contents output.old) page.old (W.contents output.new) page.new) }
{
    if !page.has_room() {
        page.write_to(output)?;
    }
    Ok(())
}

/// Writes what stands on a page that is full.
pub(crate) fn write_full<W: Write>(page: &mut Page, output: &mut W) -> Result<(), FeedFault>
    ensures { OnOk result
        (Stays (W.contents output.old) page.old (W.contents output.new) page.new) }
{
    if page.is_full() {
        page.write_to(output)?;
    }
    Ok(())
}
