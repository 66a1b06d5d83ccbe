//! Lines that are taken one after another.

ghost use Rattle.std.specs.Prelude.{◌≡◌, ℕ, List, [], Option, Some, OnOk, false, option_copied};
ghost use Rattle.std.specs.Io.KnownBytes.{Appends};
ghost use Rattle.sms_script.specs.Lines.{lines};
ghost use Rattle.sms_page.specs.Page.{PageValue};
ghost use Rattle.sms_feed.specs.Feed.{Awaits};
ghost use Rattle.sms_feed.specs.Takers.{Hands, HandsOne, HandsToEnd, HandsToOutput, standing};

use crate::chatter::is_nothing;
use crate::fault::FeedFault;
use crate::feed::Feed;
use crate::line::Line;
use crate::taker::Taker;
use crate::writing::write_page;
use sms_page::{Page, PageFault};
use std::alloc::Global;
use std::io::{Error, ErrorKind, Read, Write};

/// Hands on a line that has a unit. Empty lines, and what a modem says, are passed over.
fn take_line<T: Taker>(taker: &mut T, line: Line<'_>, page: &mut Page) -> Result<(), T::Fault>
    ensures { OnOk result (Hands T.takes taker.old line.entry.number
        (option_copied line.entry.octets) page.old taker.new page.new) }
{
    let Some(octets) = line.octets else {
        return taker.take(line.number, None, page);
    };
    let octets = octets.trim_ascii();
    if is_nothing(octets) {
        return Ok(());
    }
    taker.take(line.number, Some(octets), page)
}

/// Hands on a line. Where memory runs out for what is told of it while more stands on the page,
/// that is written, and the line is handed on once more with an empty page.
fn take_or_again<T: Taker, W: Write>(
    taker: &mut T,
    line: Line<'_>,
    page: &mut Page,
    output: &mut W,
) -> Result<(), T::Fault>
    ensures { OnOk result (HandsOne T.takes
        (standing taker.old (W.contents output.old) page.old)
        line.entry.number (option_copied line.entry.octets)
        (standing taker.new (W.contents output.new) page.new)) }
{
    let (before, was_cut) = (page.count(), page.is_cut());
    take_line(taker, line, page)?;
    if before == 0 || was_cut || !page.is_cut() || !taker.tells_again() {
        return Ok(());
    }
    page.back_to(before);
    write_page(page, output)?;
    take_line(taker, line, page)
}

/// Hands on a line, and writes what is told where it is time. Empty lines, and what a modem says
/// around units, are passed over.
pub fn take_one<T: Taker, W: Write>(
    taker: &mut T,
    line: Line<'_>,
    page: &mut Page,
    output: &mut W,
) -> Result<(), T::Fault>
    ensures { OnOk result (HandsOne T.takes
        (standing taker.old (W.contents output.old) page.old)
        line.entry.number (option_copied line.entry.octets)
        (standing taker.new (W.contents output.new) page.new)) }
{
    if !page.has_room() {
        write_page(page, output)?;
    }
    take_or_again(taker, line, page, output)?;
    if page.is_full() {
        write_page(page, output)?;
    }
    Ok(())
}

/// Hands on the lines that an input has, and what is told at the end.
fn take_all<T: Taker, R: Read, W: Write>(
    taker: &mut T,
    feed: &mut Feed,
    page: &mut Page,
    input: &mut R,
    output: &mut W,
) -> Result<(), T::Fault>
    ensures { (octets : List ℕ) → Awaits feed.old (R.remaining input.old) octets
        → OnOk result (HandsToEnd T.takes T.ends
        (standing taker.old (W.contents output.old) page.old)
        feed.old.number (lines octets)
        (standing taker.new (W.contents output.new) page.new)) }
{
    for _ in 0..u64::MAX {
        if !feed.advance(input, page, output)? {
            return taker.finish(page);
        }
        take_one(taker, feed.line(), page, output)?;
    }
    Err(T::Fault::from(FeedFault::Read(Error::from(ErrorKind::Other))))
}

/// Hands on the lines that an input has, each once and in order, and writes what is told of them.
/// Where it ends early, what was told before stands.
pub fn take_lines<T: Taker, R: Read, W: Write>(
    alloc: Global,
    taker: &mut T,
    input: &mut R,
    output: &mut W,
) -> Result<(), T::Fault>
    ensures { (octets : List ℕ) → R.remaining input.old ≡ Some octets
        → OnOk result (HandsToOutput T.takes T.ends taker.old (W.contents output.old)
        (lines octets) taker.new (W.contents output.new)) }
{
    let mut feed = match Feed::new(alloc) {
        Ok(feed) => feed,
        Err(_) => return Err(T::Fault::from(FeedFault::Page(PageFault::Memory))),
    };
    let mut page = Page::new(alloc);
    let taken = take_all(taker, &mut feed, &mut page, input, output);
    let written = write_page(&mut page, output);
    drop(page);
    drop(feed);
    written?;
    taken
}
