//! Why an input gives no line.

ghost use Rattle.std.specs.Prelude.{◌≡◌};
ghost use Rattle.sms_feed.specs.declared.fault.FeedFault.TheVariants.{Page};

use sms_page::PageFault;
use std::io;

/// Why an input gives no line.
#[derive(Clone, Copy, Debug)]
pub enum FeedFault {
    /// What stands on the page was not written, or is not whole.
    Page(PageFault),
    /// The input gives no more.
    Read(io::Error),
}

impl From<PageFault> for FeedFault {
    ghost from_gives = { λ fault given. given ≡ Page fault };

    fn from(fault: PageFault) -> FeedFault {
        FeedFault::Page(fault)
    }
}
