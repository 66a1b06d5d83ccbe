//! Lines that are shown, one after another.

ghost use Rattle.std.specs.Prelude.{◌≡◌, List, ℕ, Some, OnOk, false};
ghost use Rattle.std.specs.Io.KnownBytes.{Appends};
ghost use Rattle.sms_script.specs.Lines.{lines};
ghost use Rattle.sms_page.specs.Page.{maybe};
ghost use Rattle.sms_show.specs.Showing.{TellsLines, gap};

use crate::asked::Shown;
use crate::entry::put_answer;
use crate::fault::ShowFault;
use sms_feed::{Taker, take_lines};
use sms_page::Page;
use sms_told::Form;
use std::alloc::Global;
use std::io::{Read, Write};
use std::marker::Model;

/// Shows lines, one after another.
#[derive(Drop)]
pub struct Showing<'a> {
    alloc: Global,
    shown: Shown<'a>,
    /// Room for the octets of a line, which is kept.
    room: Vec<u8>,
    /// Whether something was shown.
    has_begun: bool,
    /// Whether a line was at fault.
    is_faulty: bool,
}

impl<'a> Model for Showing<'a> {
    ghost use Rattle.sms_show.specs.Showing.{ShowingValue};

    ghost Value = { ShowingValue };

    ghost view = { λ s. record { form = s.shown.form; has_begun = s.has_begun } };
}

impl Showing<'_> {
    /// Whether an empty line is due, which parts an answer in lines from what was shown before.
    fn is_parted(&self) -> bool
        ensures { maybe result 10 ≡ gap self.now.form self.now.has_begun }
    {
        match self.shown.form {
            Form::Plain => self.has_begun,
            Form::Json => false,
        }
    }
}

impl Taker for Showing<'_> {
    ghost use Rattle.std.specs.Prelude.{◌≡◌};
    ghost use Rattle.sms_show.specs.Showing.{ShowsLine};

    type Fault = ShowFault;

    ghost takes = { λ old number line page new page_then. ShowsLine old number page new page_then };

    ghost ends = { λ old page new page_then. (new ≡ old) × (page_then ≡ page) };

    fn take(&mut self, number: u64, line: Option<&[u8]>, page: &mut Page) -> Result<(), ShowFault> {
        let line = line.ok_or(ShowFault::LineTooLong);
        page.put_wanted(self.is_parted(), b'\n');
        let room = &mut self.room;
        let is_faulty = put_answer(self.alloc, &self.shown, Some(number), line, room, page)?;
        self.is_faulty |= is_faulty;
        self.has_begun |= !page.is_cut();
        Ok(())
    }

    fn tells_again(&self) -> bool {
        true
    }

    fn finish(&mut self, _page: &mut Page) -> Result<(), ShowFault> {
        Ok(())
    }
}

/// Writes what the lines of an input are shown as, with an empty line between them, and says whether
/// one was at fault.
pub fn show_lines<R: Read, W: Write>(
    alloc: Global,
    shown: Shown<'_>,
    input: &mut R,
    output: &mut W,
) -> Result<bool, ShowFault>
    ensures { (octets : List ℕ) → R.remaining input.old ≡ Some octets
        → OnOk result ((text : List ℕ) × TellsLines shown.entry.form false 0 (lines octets) text
        × Appends (W.contents output.old) (W.contents output.new) text) }
{
    let mut showing = Showing {
        alloc,
        shown,
        room: Vec::new(alloc),
        has_begun: false,
        is_faulty: false,
    };
    let taken = take_lines(alloc, &mut showing, input, output);
    let is_faulty = showing.is_faulty;
    drop(showing);
    taken?;
    Ok(is_faulty)
}
