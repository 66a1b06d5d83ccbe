//! The members of an answer, as those of an object of JSON.

ghost use Rattle.std.specs.Prelude.{◌≡◌, true};
ghost use Rattle.std.specs.List.{list_all};
ghost use Rattle.sms_page.specs.Plain.{is_plain};
ghost use Rattle.sms_page.specs.Object.{Writes};
ghost use Rattle.sms_told.specs.declared.form.Form.TheVariants.{Json};
ghost use Rattle.sms_answer.specs.Answer.{Ends};
ghost use Rattle.sms_answer.specs.Inside.Writing.{begun_tokens};

use sms_page::{Object, Page};
use std::marker::Model;

/// The members of an answer, as those of an object of JSON that stands in one line. Contracts see
/// what the answer begins with: it stays, whatever is written. Where memory runs out, nothing more
/// is written.
#[derive(Drop)]
pub struct Members {
    object: Object,
    /// How many octets stood on the page before the answer.
    base: usize,
    /// Whether memory had run out before.
    was_cut: bool,
    /// The number of the line of input that is answered, where that is told.
    number: Option<u64>,
}

impl Model for Members {
    ghost use Rattle.std.specs.Prelude.{take};
    ghost use Rattle.sms_told.specs.declared.form.Form.TheVariants.{Json};
    ghost use Rattle.sms_answer.specs.Answer.{AnswerValue};
    ghost use Rattle.sms_answer.specs.Inside.Writing.{IsObjectBehind};

    ghost Value = { AnswerValue };

    ghost view = { λ m. record {
      front = record { octets = take m.base m.object.page.octets; is_cut = m.was_cut };
      form = Json;
      number = m.number;
    } };

    ghost invariant = { λ m. IsObjectBehind m.base m.was_cut m.number m.object };
}

/// Begins the object, with the number of the line of input where that is told.
fn begin(object: &mut Object, number: Option<u64>)
    ensures { Writes object.old object.new (begun_tokens number) }
{
    object.open();
    if let Some(number) = number {
        object.number_named("line", number);
    }
}

impl Members {
    /// Begins behind what stands on a page.
    pub(crate) fn new(page: Page, number: Option<u64>) -> Members
        ensures { result ≡ record { front = page; form = Json; number = number } }
    {
        let base = page.count();
        let was_cut = page.is_cut();
        let mut object = Object::new(page);
        begin(&mut object, number);
        Members {
            object,
            base,
            was_cut,
            number,
        }
    }

    /// Memory ran out: nothing more is written.
    pub fn cut(&mut self)
        ensures { self.new ≡ self.old }
    {
        self.object.cut();
    }

    /// Begins an object.
    #[inline(always)]
    pub fn open(&mut self)
        ensures { self.new ≡ self.old }
    {
        self.object.open();
    }

    /// Ends an object.
    #[inline(always)]
    pub fn close(&mut self)
        ensures { self.new ≡ self.old }
    {
        self.object.close();
    }

    /// Begins a list.
    #[inline(always)]
    pub fn open_list(&mut self)
        ensures { self.new ≡ self.old }
    {
        self.object.open_list();
    }

    /// Ends a list.
    #[inline(always)]
    pub fn close_list(&mut self)
        ensures { self.new ≡ self.old }
    {
        self.object.close_list();
    }

    /// The name of a member, whose value comes next. It has no character that JSON escapes.
    #[inline(always)]
    pub fn name(&mut self, own: &str)
        requires { list_all (is_plain 34) own.now ≡ true }
        ensures { self.new ≡ self.old }
    {
        self.object.name(own);
    }

    /// A number.
    #[inline(always)]
    pub fn number(&mut self, number: u64)
        ensures { self.new ≡ self.old }
    {
        self.object.number(number);
    }

    /// A text.
    #[inline(always)]
    pub fn text(&mut self, text: &str)
        ensures { self.new ≡ self.old }
    {
        self.object.text(text);
    }

    /// A text that has no character that JSON escapes.
    #[inline(always)]
    pub fn plain_text(&mut self, text: &[u8])
        requires { list_all (is_plain 34) text.now ≡ true }
        ensures { self.new ≡ self.old }
    {
        self.object.plain_text(text);
    }

    /// What is so or not.
    #[inline(always)]
    pub fn flag(&mut self, flag: bool)
        ensures { self.new ≡ self.old }
    {
        self.object.flag(flag);
    }

    /// What is not there.
    #[inline(always)]
    pub fn nothing(&mut self)
        ensures { self.new ≡ self.old }
    {
        self.object.nothing();
    }

    /// Octets in upper case hexadecimal digits, as a text.
    #[inline(always)]
    pub fn octets(&mut self, octets: &[u8])
        ensures { self.new ≡ self.old }
    {
        self.object.octets(octets);
    }

    /// A member with a number.
    #[inline(always)]
    pub fn number_named(&mut self, own: &str, number: u64)
        requires { list_all (is_plain 34) own.now ≡ true }
        ensures { self.new ≡ self.old }
    {
        self.object.number_named(own, number);
    }

    /// A member with octets.
    #[inline(always)]
    pub fn octets_named(&mut self, own: &str, octets: &[u8])
        requires { list_all (is_plain 34) own.now ≡ true }
        ensures { self.new ≡ self.old }
    {
        self.object.octets_named(own, octets);
    }

    /// A member with a text.
    #[inline(always)]
    pub fn text_named(&mut self, own: &str, text: &str)
        requires { list_all (is_plain 34) own.now ≡ true }
        ensures { self.new ≡ self.old }
    {
        self.object.text_named(own, text);
    }

    /// Ends the object, and gives the page.
    pub(crate) fn finish(self) -> Page
        ensures { Ends self result }
    {
        let Members { mut object, .. } = self;
        object.close();
        object.into_line()
    }
}
