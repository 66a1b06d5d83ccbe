//! A line, as it is written.

ghost use Rattle.std.specs.Prelude.{◌≡◌, true};
ghost use Rattle.std.specs.List.{list_all};
ghost use Rattle.sms_page.specs.Plain.{is_plain};
ghost use Rattle.sms_answer.specs.Text.{IsInLine, is_in_line};
ghost use Rattle.sms_answer.specs.Inside.Writing.{EndsLines, GrowsByLines};

use sms_page::{Page, put_line};
use std::marker::Model;

/// A page on which a line is written. Contracts see what stands in front of the line: it stays,
/// whatever is put on the line. Where memory runs out, nothing more is put.
#[derive(Drop)]
pub struct Line {
    page: Page,
    /// How many octets stand in front of the line.
    from: usize,
    /// Whether memory had run out before.
    was_cut: bool,
}

impl Model for Line {
    ghost use Rattle.std.specs.Prelude.{take};
    ghost use Rattle.sms_page.specs.Page.{PageValue};
    ghost use Rattle.sms_answer.specs.Inside.Writing.{IsLineBehind};

    ghost Value = { PageValue };

    ghost view = { λ l. record { octets = take l.from l.page.octets; is_cut = l.was_cut } };

    ghost invariant = { λ l. IsLineBehind l.from l.was_cut l.page };
}

impl Line {
    /// An empty line behind what stands on a page.
    pub(crate) fn new(page: Page) -> Line
        ensures { result ≡ page }
    {
        let from = page.count();
        let was_cut = page.is_cut();
        Line {
            page,
            from,
            was_cut,
        }
    }

    /// Puts a few octets whose number is known, none of which ends the line.
    #[inline(always)]
    pub fn put_few<const N: usize>(&mut self, octets: &[u8; N])
        requires { IsInLine octets.now }
        ensures { self.new ≡ self.old }
    {
        self.page.put_few(octets);
    }

    /// Puts octets, none of which ends the line.
    #[inline(always)]
    pub fn put(&mut self, octets: &[u8])
        requires { IsInLine octets.now }
        ensures { self.new ≡ self.old }
    {
        self.page.put(octets);
    }

    /// Puts an octet, which does not end the line.
    #[inline(always)]
    pub fn put_one(&mut self, octet: u8)
        requires { is_in_line octet ≡ true }
        ensures { self.new ≡ self.old }
    {
        self.page.put_one(octet);
    }

    /// Puts a number in decimal digits.
    #[inline(always)]
    pub fn put_decimal(&mut self, number: u64)
        ensures { self.new ≡ self.old }
    {
        self.page.put_decimal(number);
    }

    /// Puts an octet in two upper case hexadecimal digits.
    #[inline(always)]
    pub fn put_octet(&mut self, octet: u8)
        ensures { self.new ≡ self.old }
    {
        self.page.put_octet(octet);
    }

    /// Puts octets in upper case hexadecimal digits, none as a hyphen.
    #[inline(always)]
    pub fn put_hexadecimal(&mut self, octets: &[u8])
        ensures { self.new ≡ self.old }
    {
        self.page.put_hexadecimal(octets);
    }

    /// Puts a text: what would break the line stands as an escape. An octet of a character of
    /// several octets stands as it is.
    #[inline(always)]
    pub fn put_escaped(&mut self, text: &str)
        ensures { self.new ≡ self.old }
    {
        put_line(&mut self.page, text.as_bytes());
    }

    /// Puts a word, which has no character that JSON escapes.
    #[inline(always)]
    pub fn put_word(&mut self, word: &str)
        requires { list_all (is_plain 34) word.now ≡ true }
        ensures { self.new ≡ self.old }
    {
        self.page.put(word.as_bytes());
    }

    /// Puts a name, and a colon and a blank behind it. It has no character that JSON escapes.
    #[inline(always)]
    pub(crate) fn put_name(&mut self, name: &str)
        requires { list_all (is_plain 34) name.now ≡ true }
        ensures { self.new ≡ self.old }
    {
        self.page.put_name(name.as_bytes());
    }

    /// Memory ran out: nothing more is put.
    pub fn cut(&mut self)
        ensures { self.new ≡ self.old }
    {
        self.page.cut();
    }

    /// Ends the line, where anything stands on it. What comes next stands on another line.
    #[inline(always)]
    pub(crate) fn end(&mut self)
        ensures { GrowsByLines self.old self.new }
    {
        if self.page.count() <= self.from {
            return;
        }
        self.page.put_one(b'\n');
        if self.page.is_cut() {
            return;
        }
        self.from = self.page.count();
    }

    /// Ends the line, where anything stands on it, and gives the page.
    pub(crate) fn into_page(self) -> Page
        ensures { EndsLines self result }
    {
        let Line { mut page, from, .. } = self;
        if page.count() <= from {
            return page;
        }
        page.put_one(b'\n');
        page
    }
}
