//! What works through lines.

ghost use Rattle.std.specs.Prelude.{ℕ, List, Option, OnErr, OnOk, option_copied};
ghost use Rattle.sms_feed.specs.Takers.{Standing, standing};

use sms_feed::{FeedFault, Line};
use sms_page::Page;
use std::io::Write;

/// What works through lines, one after another, with the output at hand.
pub trait Worker: Drop {
    /// Why a line, or the end, ends all.
    type Fault: From<FeedFault> + Drop;

    /// What it does with a line, by the number of the line and its octets, or none where these are
    /// too many: how it, the output and the page stand before and after.
    ghost does: { Standing Self → ℕ → Option (List ℕ) → Standing Self → Type 0 };

    /// What it does where it fails at a line.
    ghost fails: { Standing Self → ℕ → Option (List ℕ) → Standing Self → Type 0 };

    /// What it does when no line is left.
    ghost ends: { Standing Self → Standing Self → Type 0 };

    /// What it does where it fails when no line is left.
    ghost fails_at_end: { Standing Self → Standing Self → Type 0 };

    /// Takes a line. What is told of it comes to the page, or is written.
    fn take<W: Write>(
        &mut self,
        line: Line<'_>,
        page: &mut Page,
        output: &mut W,
    ) -> Result<(), Self::Fault>
        ensures done { OnOk result (does
            (standing self.old (W.contents output.old) page.old)
            line.entry.number (option_copied line.entry.octets)
            (standing self.new (W.contents output.new) page.new)) }
        ensures failed { OnErr result (fails
            (standing self.old (W.contents output.old) page.old)
            line.entry.number (option_copied line.entry.octets)
            (standing self.new (W.contents output.new) page.new)) };

    /// Ends, when no line is left.
    fn finish<W: Write>(&mut self, page: &mut Page, output: &mut W) -> Result<(), Self::Fault>
        ensures ended { OnOk result (ends
            (standing self.old (W.contents output.old) page.old)
            (standing self.new (W.contents output.new) page.new)) }
        ensures failed { OnErr result (fails_at_end
            (standing self.old (W.contents output.old) page.old)
            (standing self.new (W.contents output.new) page.new)) };
}
