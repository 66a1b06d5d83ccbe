//! Texts that are whole, with the texts of their addresses.

ghost use Rattle.std.specs.Prelude.{◌≡◌};
ghost use Rattle.sms_page.specs.Page.{Puts};
ghost use Rattle.sms_page.specs.Object.{Writes};
ghost use Rattle.sms_told.specs.Texts.{line_member, moment_line, moment_member, recipient_front, recipient_member, whole_line, whole_object, whole_text};
ghost use Rattle.sms_told.specs.declared.form.Form.TheVariants.{Json};

use crate::form::Form;
use crate::party::{Party, put_party, put_party_object};
use sms_page::{Object, Page, put_line};
use std::alloc::Global;
use std::marker::Model;

/// A text that is whole, with the texts of its addresses.
#[derive(Drop)]
pub(crate) struct Parts<'a> {
    /// The line that had its last segment, where that is told.
    pub(crate) line: Option<u64>,
    /// For whom it is, where that is told.
    pub(crate) to: Option<Party<'a>>,
    /// Whom it is from (TP-OA).
    pub(crate) from: Party<'a>,
    /// The moment of its last segment, where that has one.
    pub(crate) moment: Option<u64>,
    pub(crate) text: &'a str,
}

impl<'a> Model for Parts<'a> {
    ghost use Rattle.sms_told.specs.Texts.{WholeValue};

    ghost Value = { WholeValue };

    ghost view = { λ p. record {
      line = p.line;
      recipient = p.to;
      origin = p.from;
      moment = p.moment;
      text = p.text.now;
    } };
}

/// Adds a recipient and a blank, where there is one.
pub(crate) fn put_recipient(page: &mut Page, to: &Option<Party<'_>>)
    ensures { Puts page.old page.new (recipient_front to.now) }
{
    if let Some(to) = to {
        put_party(page, to);
        page.put_one(b' ');
    }
}

/// Adds a moment, none as a hyphen.
fn put_moment(page: &mut Page, moment: Option<u64>)
    ensures { Puts page.old page.new (moment_line moment) }
{
    match moment {
        Some(seconds) => page.put_decimal(seconds),
        None => page.put_one(b'-'),
    }
}

/// Adds the line of a text.
fn put_text_line(page: &mut Page, parts: &Parts<'_>)
    ensures { Puts page.old page.new (whole_line parts.now) }
{
    put_recipient(page, &parts.to);
    put_moment(page, parts.moment);
    page.put_one(b' ');
    put_party(page, &parts.from);
    page.put_one(b' ');
    put_line(page, parts.text.as_bytes());
    page.put_one(b'\n');
}

/// Adds the line of the last segment, where it is told.
fn put_line_member(object: &mut Object, line: Option<u64>)
    ensures { Writes object.old object.new (line_member line) }
{
    if let Some(number) = line {
        object.number_named("line", number);
    }
}

/// Adds the recipient, where there is one.
pub(crate) fn put_recipient_member(object: &mut Object, to: &Option<Party<'_>>)
    ensures { Writes object.old object.new (recipient_member to.now) }
{
    if let Some(to) = to {
        object.name("recipient");
        put_party_object(object, to);
    }
}

/// Adds the moment, none as null.
fn put_moment_member(object: &mut Object, moment: Option<u64>)
    ensures { Writes object.old object.new (moment_member moment) }
{
    object.name("moment");
    match moment {
        Some(seconds) => object.number(seconds),
        None => object.nothing(),
    }
}

/// Adds the members of a text.
fn put_members(object: &mut Object, parts: &Parts<'_>)
    ensures { Writes object.old object.new (whole_object parts.now) }
{
    object.open();
    put_line_member(object, parts.line);
    put_recipient_member(object, &parts.to);
    object.text_named("text", parts.text);
    object.name("origin");
    put_party_object(object, &parts.from);
    put_moment_member(object, parts.moment);
    object.close();
}

/// Adds the object of a text.
fn put_text_object(alloc: Global, page: &mut Page, parts: &Parts<'_>)
    ensures { Puts page.old page.new (whole_text Json parts.now) }
{
    let mut object = Object::new(page.take(alloc));
    put_members(&mut object, parts);
    *page = object.into_line();
}

/// Adds a text.
pub(crate) fn put_parts(alloc: Global, form: Form, parts: &Parts<'_>, page: &mut Page)
    ensures { Puts page.old page.new (whole_text form parts.now) }
{
    match form {
        Form::Plain => put_text_line(page, parts),
        Form::Json => put_text_object(alloc, page, parts),
    }
}
