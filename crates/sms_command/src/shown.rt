//! Units that are shown, one or many.

ghost use Rattle.std.specs.Prelude.{◌≡◌, OnOk, if◌then◌else◌};
ghost use Rattle.sms_command.specs.Inside.Shows.{WritesAnswer, WritesShown};
ghost use Rattle.sms_command.specs.declared.shown.Done.TheVariants.{Faulty, Whole};

use crate::fault::Fault;
use sms_page::Page;
use sms_show::{Shown, put_answer, show_lines};
use std::alloc::Global;
use std::io::{Read, Write};

/// Whether all that was asked for was done.
#[derive(Clone, Copy, Debug, PartialEq, Eq)]
pub enum Done {
    /// All.
    Whole,
    /// Some of the input was at fault, and was told so.
    Faulty,
}

impl Done {
    /// All is done where nothing was at fault.
    pub fn unless(is_faulty: bool) -> Done
        ensures { result ≡ (if is_faulty then Faulty else Whole) }
    {
        if is_faulty { Done::Faulty } else { Done::Whole }
    }
}

/// Writes what the octets of a word are shown as. Where they are at fault, the members before the
/// fault stand.
fn show_one<W: Write>(
    alloc: Global,
    shown: &Shown<'_>,
    word: &str,
    output: &mut W,
) -> Result<Done, Fault>
    ensures { OnOk result
        (WritesAnswer shown.now.form (W.contents output.old) (W.contents output.new)) }
{
    let mut room = Vec::new(alloc);
    let mut page = Page::new(alloc);
    let told = put_answer(
        alloc,
        shown,
        None,
        Ok(word.as_bytes()),
        &mut room,
        &mut page,
    );
    let written = page.write_to(output);
    drop(page);
    written?;
    Ok(Done::unless(told?))
}

/// Writes what octets are shown as: those of a word, or those of each line of the input.
pub fn show<R: Read, W: Write>(
    alloc: Global,
    shown: Shown<'_>,
    input: &mut R,
    output: &mut W,
) -> Result<Done, Fault>
    ensures { OnOk result (WritesShown shown.entry.form shown.entry.has_lines
        (R.remaining input.old) (W.contents output.old) (W.contents output.new)) }
{
    if shown.has_wrong_option() {
        return Err(Fault::WrongOption);
    }
    if shown.has_lines {
        Ok(Done::unless(show_lines(alloc, shown, input, output)?))
    } else {
        show_one(alloc, &shown, shown.octets, output)
    }
}
