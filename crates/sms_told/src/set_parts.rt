//! Sets of segments that are not whole, with the texts of their addresses.

ghost use Rattle.std.specs.Prelude.{◌≡◌, ◌<◌, ◌≤◌, [], ◌∷◌, true};
ghost use Rattle.std.specs.List.{flat_map, list_all};
ghost use Rattle.sms_join.specs.Key.{maximum_of};
ghost use Rattle.sms_page.specs.Page.{Puts};
ghost use Rattle.sms_page.specs.Object.{Writes};
ghost use Rattle.sms_page.specs.Plain.{is_plain};
ghost use Rattle.sms_told.specs.Sets.{behind_blank, missing, number_value, set_line, set_object, shared_text, those_missing};
ghost use Rattle.sms_told.specs.declared.form.Form.TheVariants.{Json, Plain};

use crate::form::Form;
use crate::parts::{put_recipient, put_recipient_member};
use crate::party::{Party, put_party, put_party_object};
use crate::shared::bits_of;
use sms_join::OpenSet;
use sms_page::{Object, Page};
use sms_tpdu::Width;
use std::alloc::Global;
use std::marker::Model;

/// What the segments of a set share, with the texts of their addresses.
#[derive(Drop)]
pub(crate) struct SetParts<'a> {
    /// For whom they are, where that is told.
    pub(crate) to: Option<Party<'a>>,
    /// Whom they are from (TP-OA).
    pub(crate) from: Party<'a>,
    /// Of eight bits the reference is told by element 00, of sixteen by 08.
    pub(crate) width: Width,
    /// The reference number of the concatenated short message.
    pub(crate) reference: u16,
    /// The maximum number of short messages in the concatenated short message.
    pub(crate) maximum: u8,
}

impl<'a> Model for SetParts<'a> {
    ghost use Rattle.sms_told.specs.Sets.{SharedValue};

    ghost Value = { SharedValue };

    ghost view = { λ s. record {
      recipient = s.to;
      origin = s.from;
      width = s.width;
      reference = s.reference;
      maximum = s.maximum;
    } };
}

/// Adds a number behind a blank.
fn put_behind_blank(page: &mut Page, number: u64)
    ensures { Puts page.old page.new (behind_blank number) }
{
    page.put_one(b' ');
    page.put_decimal(number);
}

/// Adds a sequence behind a blank, unless it has come.
fn put_where_missing(page: &mut Page, set: &OpenSet<'_>, sequence: u8)
    requires first { 0 < sequence }
    requires last { sequence ≤ maximum_of set.now.key }
    ensures { Puts page.old page.new
        (flat_map behind_blank (those_missing set.now.sequences (sequence ∷ []))) }
{
    if !set.has(sequence) {
        put_behind_blank(page, u64::from(sequence));
    }
}

/// Adds the sequences that have not come, each behind a blank.
fn put_missing(page: &mut Page, set: &OpenSet<'_>)
    ensures { Puts page.old page.new
        (flat_map behind_blank (missing (maximum_of set.now.key) set.now.sequences)) }
{
    let maximum = set.maximum();
    let mut before = 0;
    while before < maximum {
        put_where_missing(page, set, before + 1);
        before += 1;
    }
}

/// Adds the line of a set.
fn put_set_line(page: &mut Page, parts: &SetParts<'_>, set: &OpenSet<'_>)
    ensures { Puts page.old page.new (set_line parts.now
        (missing (maximum_of set.now.key) set.now.sequences)) }
{
    put_recipient(page, &parts.to);
    put_party(page, &parts.from);
    put_behind_blank(page, bits_of(parts.width));
    put_behind_blank(page, u64::from(parts.reference));
    put_behind_blank(page, u64::from(parts.maximum));
    page.put(b" missing");
    put_missing(page, set);
}

/// Adds a sequence, unless it has come.
fn put_value_where_missing(object: &mut Object, set: &OpenSet<'_>, sequence: u8)
    requires first { 0 < sequence }
    requires last { sequence ≤ maximum_of set.now.key }
    ensures { Writes object.old object.new
        (flat_map number_value (those_missing set.now.sequences (sequence ∷ []))) }
{
    if !set.has(sequence) {
        object.number(u64::from(sequence));
    }
}

/// Adds the sequences that have not come.
fn put_missing_values(object: &mut Object, set: &OpenSet<'_>)
    ensures { Writes object.old object.new
        (flat_map number_value (missing (maximum_of set.now.key) set.now.sequences)) }
{
    let maximum = set.maximum();
    let mut before = 0;
    while before < maximum {
        put_value_where_missing(object, set, before + 1);
        before += 1;
    }
}

/// Adds the object of a set.
fn put_set_object(object: &mut Object, parts: &SetParts<'_>, set: &OpenSet<'_>)
    ensures { Writes object.old object.new (set_object parts.now
        (missing (maximum_of set.now.key) set.now.sequences)) }
{
    object.open();
    put_recipient_member(object, &parts.to);
    object.name("origin");
    put_party_object(object, &parts.from);
    object.number_named("width", bits_of(parts.width));
    object.number_named("reference", u64::from(parts.reference));
    object.number_named("maximum", u64::from(parts.maximum));
    object.name("missing");
    object.open_list();
    put_missing_values(object, set);
    object.close_list();
    object.close();
}

/// Adds a set in a line, under a name.
fn put_named_line(page: &mut Page, name: &str, parts: &SetParts<'_>, set: &OpenSet<'_>)
    ensures { Puts page.old page.new (shared_text Plain name.now parts.now
        (missing (maximum_of set.now.key) set.now.sequences)) }
{
    page.put_name(name.as_bytes());
    put_set_line(page, parts, set);
    page.put_one(b'\n');
}

/// Adds a set as an object, under a name, which has no character that JSON escapes.
fn put_named_object(
    alloc: Global,
    page: &mut Page,
    name: &str,
    parts: &SetParts<'_>,
    set: &OpenSet<'_>,
)
    requires { list_all (is_plain 34) name.now ≡ true }
    ensures { Puts page.old page.new (shared_text Json name.now parts.now
        (missing (maximum_of set.now.key) set.now.sequences)) }
{
    let mut object = Object::new(page.take(alloc));
    object.open();
    object.name(name);
    put_set_object(&mut object, parts, set);
    object.close();
    *page = object.into_line();
}

/// Adds a set under a name, which has no character that JSON escapes.
pub(crate) fn put_set_parts(
    alloc: Global,
    form: Form,
    name: &str,
    parts: &SetParts<'_>,
    set: &OpenSet<'_>,
    page: &mut Page,
)
    requires { list_all (is_plain 34) name.now ≡ true }
    ensures { Puts page.old page.new (shared_text form name.now parts.now
        (missing (maximum_of set.now.key) set.now.sequences)) }
{
    match form {
        Form::Plain => put_named_line(page, name, parts, set),
        Form::Json => put_named_object(alloc, page, name, parts, set),
    }
}
