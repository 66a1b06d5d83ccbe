//! What takes lines.

ghost use Rattle.std.specs.Prelude.{ℕ, List, Option, OnOk, option_copied};
ghost use Rattle.sms_page.specs.Page.{PageValue};

use crate::fault::FeedFault;
use sms_page::Page;

/// What takes lines, one after another, and tells of each.
pub trait Taker: Drop {
    /// Why a line, or what is told of it, ends all.
    type Fault: From<FeedFault> + Drop;

    /// What it does with a line, by the number of the line and its octets, or none where these are
    /// too many: how it and the page stand before and after.
    ghost takes: { Self → ℕ → Option (List ℕ) → PageValue → Self → PageValue → Type 0 };

    /// What it does when no line is left: how it and the page stand before and after.
    ghost ends: { Self → PageValue → Self → PageValue → Type 0 };

    /// Takes a line, or nothing of one that is too long, and adds what is told of it to the page.
    fn take(
        &mut self,
        number: u64,
        octets: Option<&[u8]>,
        page: &mut Page,
    ) -> Result<(), Self::Fault>
        ensures taken { OnOk result
            (takes self.old number (option_copied octets.entry) page.old self.new page.new) };

    /// Whether the same is told of a line that is taken once more.
    fn tells_again(&self) -> bool;

    /// Adds what is told at the end to the page.
    fn finish(&mut self, page: &mut Page) -> Result<(), Self::Fault>
        ensures ended { OnOk result (ends self.old page.old self.new page.new) };
}
