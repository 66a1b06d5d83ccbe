//! Why there is no answer.

ghost use Rattle.std.specs.Prelude.{◌≡◌, OnErr};
ghost use Rattle.sms_told.specs.declared.form.Form.TheVariants.{Plain};
ghost use Rattle.sms_answer.specs.Answer.{Ends};

use crate::line::Line;
use sms_page::Page;
use std::alloc::{AllocError, Global};

/// Why there is no answer.
pub trait Reason {
    /// What the program says.
    fn words(&self, alloc: Global) -> Result<String, AllocError>;

    /// Puts what explains it behind the words.
    fn explain(&self, line: &mut Line)
        ensures { line.new ≡ line.old };

    /// Where it lies, counted from the first octet of its layer, if it lies at a place.
    fn place(&self) -> Option<usize>;

    /// What the program says, without a place.
    fn reason(&self, alloc: Global) -> Result<String, AllocError>;
}

/// Puts the number of a line of input, where it is given.
fn put_number(line: &mut Line, number: Option<u64>)
    ensures { line.new ≡ line.old }
{
    if let Some(number) = number {
        line.put(b"line ");
        line.put_decimal(number);
        line.put(b": ");
    }
}

/// Puts the words of a reason, after the number of the line of input where that is given, and what
/// explains it behind them where that is wanted.
pub(crate) fn put_words<R: Reason>(
    line: &mut Line,
    number: Option<u64>,
    is_explained: bool,
    words: &str,
    reason: &R,
)
    ensures { line.new ≡ line.old }
{
    put_number(line, number);
    line.put_escaped(words);
    if is_explained {
        reason.explain(line);
    }
}

/// Adds the line of a reason to a page, after the number of the line of input where that is given.
/// Where memory for its words runs out, nothing is added.
pub fn put_reason<R: Reason>(
    alloc: Global,
    number: Option<u64>,
    is_explained: bool,
    reason: &R,
    page: &mut Page,
) -> Result<(), AllocError>
    ensures line { Ends (record { front = page.old; form = Plain; number = number }) page.new }
    ensures refused { OnErr result (page.new ≡ page.old) }
{
    let words = reason.words(alloc)?;
    let mut line = Line::new(page.take(alloc));
    put_words(&mut line, number, is_explained, &words, reason);
    *page = line.into_page();
    Ok(())
}
