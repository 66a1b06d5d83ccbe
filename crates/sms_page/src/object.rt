//! JSON that is written a token at a time.

ghost use Rattle.std.specs.Prelude.{◌≡◌, [], ◌∷◌, true, false, codes, decimal, length, if◌then◌else◌};
ghost use Rattle.std.specs.List.{list_all};
ghost use Rattle.hex.specs.Hex.{encode_upper};
ghost use Rattle.sms_page.specs.Page.{Puts, quoted};
ghost use Rattle.sms_page.specs.Plain.{is_plain};
ghost use Rattle.sms_page.specs.Escapes.{escaped, json};
ghost use Rattle.sms_page.specs.Object.{ObjectValue, Writes, HasCommas, json_string, object, end_object, list, end_list, name, value};

use crate::escape::put_json;
use crate::page::Page;
use std::marker::Model;

/// JSON that is written a token at a time behind what stands on a page. Where memory runs out,
/// nothing more is written.
#[derive(Drop)]
pub struct Object {
    page: Page,
    /// Whether a value was written last, so that a comma comes before the next one.
    has_value: bool,
}

impl Model for Object {
    ghost use Rattle.sms_page.specs.Object.{ObjectValue};

    ghost Value = { ObjectValue };

    ghost view = { λ o. record { page = o.page; has_value = o.has_value } };
}

impl Object {
    /// Begins behind what stands on a page.
    pub fn new(page: Page) -> Object
        ensures { result ≡ record { page = page; has_value = false } }
    {
        Object {
            page,
            has_value: false,
        }
    }

    /// The page with what was written, and the end of a line behind it.
    pub fn into_line(self) -> Page
        ensures { Puts self.page result (10 ∷ []) }
    {
        let Object { mut page, .. } = self;
        page.put_one(b'\n');
        page
    }

    /// Memory ran out: nothing more is written.
    pub fn cut(&mut self)
        ensures { self.new ≡ record {
          page = record { octets = self.old.page.octets; is_cut = true };
          has_value = self.old.has_value;
        } }
    {
        self.page.cut();
    }

    /// Begins an object.
    pub fn open(&mut self)
        ensures { Writes self.old self.new (object ∷ []) }
    {
        self.page.put_wanted(self.has_value, b',');
        self.page.put_one(b'{');
        self.has_value = false;
    }

    /// Ends an object.
    pub fn close(&mut self)
        ensures { Writes self.old self.new (end_object ∷ []) }
    {
        self.page.put_one(b'}');
        self.has_value = true;
    }

    /// Begins a list.
    pub fn open_list(&mut self)
        ensures { Writes self.old self.new (list ∷ []) }
    {
        self.page.put_wanted(self.has_value, b',');
        self.page.put_one(b'[');
        self.has_value = false;
    }

    /// Ends a list.
    pub fn close_list(&mut self)
        ensures { Writes self.old self.new (end_list ∷ []) }
    {
        self.page.put_one(b']');
        self.has_value = true;
    }

    /// The name of a member, whose value comes next. It has no character that JSON escapes.
    #[inline(always)]
    pub fn name(&mut self, own: &str)
        requires { list_all (is_plain 34) own.now ≡ true }
        ensures { Writes self.old self.new (name own.now ∷ []) }
    {
        self.page.put_quoted(self.has_value, own.as_bytes(), true);
        self.has_value = false;
    }

    /// A number.
    pub fn number(&mut self, number: u64)
        ensures { Writes self.old self.new (value (decimal number) ∷ []) }
    {
        self.page.put_wanted(self.has_value, b',');
        self.page.put_decimal(number);
        self.has_value = true;
    }

    /// A text.
    pub fn text(&mut self, text: &str)
        ensures { Writes self.old self.new (value (json_string text.now) ∷ []) }
    {
        put_json(&mut self.page, self.has_value, text.as_bytes());
        self.has_value = true;
    }

    /// A text that has no character that JSON escapes.
    pub fn plain_text(&mut self, text: &[u8])
        requires { list_all (is_plain 34) text.now ≡ true }
        ensures { Writes self.old self.new (value (json_string text.now) ∷ []) }
    {
        self.page.put_quoted(self.has_value, text, false);
        self.has_value = true;
    }

    /// What is so or not.
    pub fn flag(&mut self, flag: bool)
        ensures { Writes self.old self.new
            (value (if flag then codes "true" else codes "false") ∷ []) }
    {
        self.page.put_wanted(self.has_value, b',');
        put_flag(&mut self.page, flag);
        self.has_value = true;
    }

    /// What is not there.
    pub fn nothing(&mut self)
        ensures { Writes self.old self.new (value (codes "null") ∷ []) }
    {
        self.page.put_wanted(self.has_value, b',');
        self.page.put_few(b"null");
        self.has_value = true;
    }

    /// Octets in upper case hexadecimal digits, as a text.
    pub fn octets(&mut self, octets: &[u8])
        ensures { Writes self.old self.new
            (value (quoted false (encode_upper octets.now) false) ∷ []) }
    {
        self.page.put_wanted(self.has_value, b',');
        self.page.put_one(b'"');
        self.page.put_digits(octets);
        self.page.put_one(b'"');
        self.has_value = true;
    }

    /// A member with a number.
    pub fn number_named(&mut self, own: &str, number: u64)
        requires { list_all (is_plain 34) own.now ≡ true }
        ensures { Writes self.old self.new (name own.now ∷ value (decimal number) ∷ []) }
    {
        self.name(own);
        self.number(number);
    }

    /// A member with octets.
    pub fn octets_named(&mut self, own: &str, octets: &[u8])
        requires { list_all (is_plain 34) own.now ≡ true }
        ensures { Writes self.old self.new
            (name own.now ∷ value (quoted false (encode_upper octets.now) false) ∷ []) }
    {
        self.name(own);
        self.octets(octets);
    }

    /// A member with a text.
    pub fn text_named(&mut self, own: &str, text: &str)
        requires { list_all (is_plain 34) own.now ≡ true }
        ensures { Writes self.old self.new (name own.now ∷ value (json_string text.now) ∷ []) }
    {
        self.name(own);
        self.text(text);
    }
}

/// Adds what is so or not.
#[inline(always)]
fn put_flag(page: &mut Page, flag: bool)
    ensures { Puts page.old page.new (if flag then codes "true" else codes "false") }
{
    if flag {
        page.put_few(b"true");
    } else {
        page.put_few(b"false");
    }
}

/// Objects and lists have commas where they belong, whatever stands in them.
pub fn has_commas()
    ensures objects { HasCommas object end_object }
    ensures lists { HasCommas list end_list }
{}
