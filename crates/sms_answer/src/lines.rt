//! The members of an answer: one a line, or those of an object in JSON.

ghost use Rattle.std.specs.Prelude.{◌≡◌, Some, None, true};
ghost use Rattle.std.specs.List.{list_all};
ghost use Rattle.sms_page.specs.Plain.{is_plain};
ghost use Rattle.sms_answer.specs.Answer.{Ends};

use crate::layer::Layer;
use crate::members::Members;
use crate::printed::Printed;
use crate::reason::Reason;
use crate::rows::Rows;
use sms_page::Page;
use sms_told::Form;
use std::alloc::{AllocError, Global};
use std::marker::Model;

/// Where the members go.
#[derive(Drop)]
enum Out {
    Plain(Rows),
    Json(Members),
}

/// A writer of the members of one answer. Contracts see what the answer begins with: it stays,
/// whatever is put. Where memory runs out, nothing more is written, and the page is cut.
#[derive(Drop)]
pub struct Lines {
    out: Out,
    layer: Layer,
    /// Whether texts are read under the national language tables that their headers tell.
    heeds_languages: bool,
    /// Whether the layer lies in another one, and has no member yet.
    is_awaited: bool,
    /// How many layers lie in another one and have a member.
    inner: u8,
}

impl Model for Lines {
    ghost use Rattle.sms_answer.specs.Answer.{AnswerValue};
    ghost use Rattle.sms_answer.specs.Inside.Out.{answer_in};

    ghost Value = { AnswerValue };

    ghost view = { λ l. answer_in l.out };
}

/// Begins an answer behind what stands on a page.
fn begin(form: Form, page: Page, number: Option<u64>) -> Lines
    ensures { result ≡ record { front = page; form = form; number = number } }
{
    let out = match form {
        Form::Plain => Out::Plain(Rows::new(page, number)),
        Form::Json => Out::Json(Members::new(page, number)),
    };
    Lines {
        out,
        layer: Layer::Digits,
        heeds_languages: false,
        is_awaited: false,
        inner: 0,
    }
}

impl Lines {
    /// Begins an answer behind what stands on a page.
    pub fn new(form: Form, page: Page) -> Lines
        ensures { result ≡ record { front = page; form = form; number = None } }
    {
        begin(form, page, None)
    }

    /// Begins the answer to a line of input behind what stands on a page. In JSON its first member
    /// is the number of the line; in lines a fault alone tells it.
    pub fn numbered(form: Form, page: Page, number: u64) -> Lines
        ensures { result ≡ record { front = page; form = form; number = Some number } }
    {
        begin(form, page, Some(number))
    }

    /// Says whether texts are read under the national language tables that their headers tell.
    pub fn heed_languages(&mut self, heeded: bool)
        ensures { self.new ≡ self.old }
    {
        self.heeds_languages = heeded;
    }

    /// Whether texts are read under the national language tables that their headers tell.
    pub fn heeds_languages(&self) -> bool {
        self.heeds_languages
    }

    /// What comes next is of this layer, whose members stand beside those before.
    pub fn begin(&mut self, layer: Layer)
        ensures { self.new ≡ self.old }
    {
        self.layer = layer;
    }

    /// What comes next is of this layer, which lies in the one before.
    pub fn enter(&mut self, layer: Layer)
        ensures { self.new ≡ self.old }
    {
        self.layer = layer;
        self.is_awaited = true;
    }

    /// Opens the object of a layer that lies in another one.
    fn open_awaited(&mut self)
        ensures { self.new ≡ self.old }
    {
        if self.is_awaited {
            self.is_awaited = false;
            self.inner = self.inner.saturating_add(1);
            if let Out::Json(members) = &mut self.out {
                members.name(self.layer.name());
                members.open();
            }
        }
    }

    /// Adds a member. Its name has no character that JSON escapes.
    #[inline(always)]
    pub fn put<V: Printed>(&mut self, name: &str, value: V)
        requires { list_all (is_plain 34) name.now ≡ true }
        ensures { self.new ≡ self.old }
    {
        self.open_awaited();
        match &mut self.out {
            Out::Plain(rows) => rows.put(name, value),
            Out::Json(members) => {
                members.name(name);
                value.json(members);
            }
        }
    }

    /// Adds a member whose value is a word of the program. Neither its name nor the word has a
    /// character that JSON escapes.
    #[inline(always)]
    pub fn put_word(&mut self, name: &str, word: &str)
        requires name { list_all (is_plain 34) name.now ≡ true }
        requires word { list_all (is_plain 34) word.now ≡ true }
        ensures { self.new ≡ self.old }
    {
        self.open_awaited();
        match &mut self.out {
            Out::Plain(rows) => rows.put_word(name, word),
            Out::Json(members) => {
                members.name(name);
                members.plain_text(word.as_bytes());
            }
        }
    }

    /// Adds a line that JSON has no member for, since another one has its value.
    pub fn put_plain<V: Printed>(&mut self, name: &str, value: V)
        requires { list_all (is_plain 34) name.now ≡ true }
        ensures { self.new ≡ self.old }
    {
        if let Out::Plain(_) = &self.out {
            self.put(name, value);
        }
    }

    /// Adds a member that no line stands for.
    pub fn put_json<V: Printed>(&mut self, name: &str, value: V)
        requires { list_all (is_plain 34) name.now ≡ true }
        ensures { self.new ≡ self.old }
    {
        if let Out::Json(_) = &self.out {
            self.put(name, value);
        }
    }

    /// Adds the member that counts the octets after a unit, where there are any.
    pub fn put_rest(&mut self, count: usize)
        ensures { self.new ≡ self.old }
    {
        if count > 0 {
            self.put("rest", count);
        }
    }

    /// Ends the answer, and gives the page.
    pub fn finish(self) -> Page
        ensures { Ends self result }
    {
        let Lines { out, inner, .. } = self;
        match out {
            Out::Plain(rows) => rows.finish(),
            Out::Json(mut members) => {
                close_layers(&mut members, inner);
                members.finish()
            }
        }
    }

    /// Ends the answer with why there is no more of it, and leaves it on a page. A line says it,
    /// after the number of the line of input where that is told; JSON has it as the last member.
    /// Where memory for its words runs out, the answer ends without it.
    pub fn finish_with<R: Reason>(
        self,
        alloc: Global,
        is_explained: bool,
        reason: &R,
        page: &mut Page,
    ) -> Result<(), AllocError>
        ensures { Ends self page.new }
    {
        let Lines {
            out,
            layer,
            inner,
            ..
        } = self;
        match out {
            Out::Plain(mut rows) => {
                let put = rows.put_reason(alloc, is_explained, reason);
                *page = rows.finish();
                put
            }
            Out::Json(mut members) => {
                close_layers(&mut members, inner);
                let put = put_fault(alloc, &mut members, layer, reason);
                *page = members.finish();
                put
            }
        }
    }
}

/// Ends the objects of as many layers.
fn close_layers(members: &mut Members, count: u8)
    ensures { members.new ≡ members.old }
{
    for _ in 0..count {
        members.close();
    }
}

/// Adds a place, none as null.
fn put_place(members: &mut Members, place: Option<usize>)
    ensures { members.new ≡ members.old }
{
    match place {
        Some(place) => members.number(place as u64),
        None => members.nothing(),
    }
}

/// Adds a fault as a member: its layer, the place counted from the first octet of the layer, and the
/// reason. Where memory for the reason runs out, nothing is added.
fn put_fault<R: Reason>(
    alloc: Global,
    members: &mut Members,
    layer: Layer,
    reason: &R,
) -> Result<(), AllocError>
    ensures { members.new ≡ members.old }
{
    let words = reason.reason(alloc)?;
    members.name("fault");
    members.open();
    members.text_named("layer", layer.name());
    members.name("at");
    put_place(members, reason.place());
    members.text_named("reason", &words);
    members.close();
    Ok(())
}
