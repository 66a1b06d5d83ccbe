//! The members of an answer, each in a line.

ghost use Rattle.std.specs.Prelude.{◌≡◌, true};
ghost use Rattle.std.specs.List.{list_all};
ghost use Rattle.sms_page.specs.Plain.{is_plain};
ghost use Rattle.sms_told.specs.declared.form.Form.TheVariants.{Plain};
ghost use Rattle.sms_answer.specs.Answer.{Ends};

use crate::line::Line;
use crate::printed::Printed;
use crate::reason::{Reason, put_words};
use sms_page::Page;
use std::alloc::{AllocError, Global};
use std::marker::Model;

/// The members of an answer, each in a line.
#[derive(Drop)]
pub(crate) struct Rows {
    line: Line,
    /// How many octets stood on the page before the answer.
    base: usize,
    /// The number of the line of input that is answered, where that is told.
    number: Option<u64>,
}

impl Model for Rows {
    ghost use Rattle.std.specs.Prelude.{take};
    ghost use Rattle.sms_told.specs.declared.form.Form.TheVariants.{Plain};
    ghost use Rattle.sms_answer.specs.Answer.{AnswerValue};
    ghost use Rattle.sms_answer.specs.Inside.Writing.{AreLinesBehind};

    ghost Value = { AnswerValue };

    ghost view = { λ r. record {
      front = record { octets = take r.base r.line.octets; is_cut = r.line.is_cut };
      form = Plain;
      number = r.number;
    } };

    ghost invariant = { λ r. AreLinesBehind r.base r.line.octets };
}

impl Rows {
    /// Begins behind what stands on a page.
    pub(crate) fn new(page: Page, number: Option<u64>) -> Rows
        ensures { result ≡ record { front = page; form = Plain; number = number } }
    {
        let base = page.count();
        Rows {
            line: Line::new(page),
            base,
            number,
        }
    }

    /// Adds a member.
    #[inline(always)]
    pub(crate) fn put<V: Printed>(&mut self, name: &str, value: V)
        requires { list_all (is_plain 34) name.now ≡ true }
        ensures { self.new ≡ self.old }
    {
        self.line.put_name(name);
        value.plain(&mut self.line);
        self.line.end();
    }

    /// Adds a member whose value is a word.
    #[inline(always)]
    pub(crate) fn put_word(&mut self, name: &str, word: &str)
        requires name { list_all (is_plain 34) name.now ≡ true }
        requires word { list_all (is_plain 34) word.now ≡ true }
        ensures { self.new ≡ self.old }
    {
        self.line.put_name(name);
        self.line.put_word(word);
        self.line.end();
    }

    /// Ends the answer, and gives the page.
    pub(crate) fn finish(self) -> Page
        ensures { Ends self result }
    {
        self.line.into_page()
    }

    /// Adds the line of why there is no answer, after the number of the line of input where that
    /// is told. Where memory for its words runs out, nothing is added.
    pub(crate) fn put_reason<R: Reason>(
        &mut self,
        alloc: Global,
        is_explained: bool,
        reason: &R,
    ) -> Result<(), AllocError>
        ensures { self.new ≡ self.old }
    {
        let words = reason.words(alloc)?;
        put_words(&mut self.line, self.number, is_explained, &words, reason);
        self.line.end();
        Ok(())
    }
}
