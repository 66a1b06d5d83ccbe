//! Lines that are worked through one after another.

ghost use Rattle.std.specs.Prelude.{◌≡◌, ℕ, List, Some, OnErr, OnOk};
ghost use Rattle.sms_script.specs.Lines.{lines};
ghost use Rattle.sms_feed.specs.Feed.{Awaits};
ghost use Rattle.sms_feed.specs.Takers.{standing};
ghost use Rattle.sms_work.specs.Working.{WorksInPart, WorksToEnd};

use crate::worker::Worker;
use sms_feed::{Feed, FeedFault};
use sms_page::{Page, PageFault};
use std::alloc::Global;
use std::io::{Error, ErrorKind, Read, Write};

/// Works through the lines that a feed has, and what comes at the end.
fn work_on<T: Worker, R: Read, W: Write>(
    worker: &mut T,
    feed: &mut Feed,
    page: &mut Page,
    input: &mut R,
    output: &mut W,
) -> Result<(), T::Fault>
    ensures works { (octets : List ℕ) → Awaits feed.old (R.remaining input.old) octets
        → OnOk result (WorksToEnd T.does T.ends
        (standing worker.old (W.contents output.old) page.old) feed.old.number (lines octets)
        (standing worker.new (W.contents output.new) page.new)) }
    ensures early { (octets : List ℕ) → Awaits feed.old (R.remaining input.old) octets
        → OnErr result (WorksInPart T.does T.fails T.fails_at_end
        (standing worker.old (W.contents output.old) page.old) feed.old.number (lines octets)
        (standing worker.new (W.contents output.new) page.new)) }
{
    for _ in 0..u64::MAX {
        if !feed.advance(input, page, output)? {
            return worker.finish(page, output);
        }
        worker.take(feed.line(), page, output)?;
    }
    Err(T::Fault::from(FeedFault::Read(Error::from(ErrorKind::Other))))
}

/// Works through the lines that an input has, each once and in order, and what comes at the end.
/// Before more is read, which may take long, what stands on the page is written, and the output
/// flushed. What stands on the page at the end stays there.
pub fn work_through<T: Worker, R: Read, W: Write>(
    alloc: Global,
    worker: &mut T,
    page: &mut Page,
    input: &mut R,
    output: &mut W,
) -> Result<(), T::Fault>
    ensures works { (octets : List ℕ) → R.remaining input.old ≡ Some octets
        → OnOk result (WorksToEnd T.does T.ends
        (standing worker.old (W.contents output.old) page.old) 0 (lines octets)
        (standing worker.new (W.contents output.new) page.new)) }
    ensures early { (octets : List ℕ) → R.remaining input.old ≡ Some octets
        → OnErr result (WorksInPart T.does T.fails T.fails_at_end
        (standing worker.old (W.contents output.old) page.old) 0 (lines octets)
        (standing worker.new (W.contents output.new) page.new)) }
{
    let mut feed = match Feed::new(alloc) {
        Ok(feed) => feed,
        Err(_) => return Err(T::Fault::from(FeedFault::Page(PageFault::Memory))),
    };
    let worked = work_on(worker, &mut feed, page, input, output);
    drop(feed);
    worked
}
