//! What is told of a line in words.

ghost use Rattle.std.specs.Prelude.{◌≡◌};
ghost use Rattle.sms_page.specs.Page.{Puts};
ghost use Rattle.sms_told.specs.Notes.{note_line, note_object, note_text};
ghost use Rattle.sms_told.specs.declared.form.Form.TheVariants.{Json};

use crate::form::Form;
use sms_page::{Object, Page};
use std::alloc::Global;

/// Adds the number of a line, and what is told of it.
fn put_note_line(number: u64, told: &str, page: &mut Page)
    ensures { Puts page.old page.new (note_line number told.now) }
{
    page.put(b"line ");
    page.put_decimal(number);
    page.put(b": ");
    page.put(told.as_bytes());
    page.put_one(b'\n');
}

/// Adds the same as an object.
fn put_note_object(alloc: Global, number: u64, told: &str, page: &mut Page)
    ensures { Puts page.old page.new (note_text Json number told.now) }
{
    let mut object = Object::new(page.take(alloc));
    object.open();
    object.number_named("line", number);
    object.text_named("told", told);
    object.close();
    *page = object.into_line();
}

/// Adds what is told of a line.
pub(crate) fn put_note(alloc: Global, form: Form, number: u64, told: &str, page: &mut Page)
    ensures { Puts page.old page.new (note_text form number told.now) }
{
    match form {
        Form::Plain => put_note_line(number, told, page),
        Form::Json => put_note_object(alloc, number, told, page),
    }
}
