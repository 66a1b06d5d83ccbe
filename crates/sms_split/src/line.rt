//! The line of a segment.

ghost use Rattle.std.specs.Prelude.{◌≡◌, OnOk, false};
ghost use Rattle.std.specs.Io.KnownBytes.{Appends};
ghost use Rattle.sms_page.specs.Page.{Puts};
ghost use Rattle.sms_page.specs.Object.{Writes};
ghost use Rattle.sms_told.specs.declared.form.Form.TheVariants.{Json};
ghost use Rattle.sms_split.specs.Lines.{coding, coding_members, header_word};
ghost use Rattle.sms_split.specs.Inside.Heads.{head_line, head_object, head_text};

use crate::fault::CutFault;
use crate::head::Head;
use crate::long_text::LongText;
use sms_page::{Object, Page};
use sms_told::Form;
use std::alloc::Global;
use std::io::Write;

/// Adds whether a header stands in front.
fn put_header_word(page: &mut Page, has_header: bool)
    ensures { Puts page.old page.new (header_word has_header) }
{
    if has_header {
        page.put(b" yes");
    } else {
        page.put(b" no");
    }
}

/// Adds the alphabet, or the coding scheme and whether a header stands in front.
fn put_coding(page: &mut Page, head: &Head, is_data: bool)
    ensures { Puts page.old page.new (coding is_data head.now.alphabet.now
        head.now.coding_scheme head.now.has_header) }
{
    if is_data {
        page.put_octet(head.coding_scheme);
        put_header_word(page, head.has_header);
    } else {
        page.put(head.alphabet.as_bytes());
    }
}

/// Adds the line of a segment.
fn put_plain(page: &mut Page, head: &Head, is_data: bool, octets: &[u8])
    ensures { Puts page.old page.new (head_line is_data head.now octets.now) }
{
    page.put_decimal(u64::from(head.sequence));
    page.put(b"/");
    page.put_decimal(u64::from(head.maximum));
    page.put(b" ");
    put_coding(page, head, is_data);
    page.put(b" ");
    page.put_decimal(u64::from(head.length));
    page.put(b" ");
    page.put_hexadecimal(octets);
    page.put(b"\n");
}

/// The line of a segment.
fn plain_of(alloc: Global, head: &Head, is_data: bool, octets: &[u8]) -> Page
    ensures { result.is_cut ≡ false → result.octets ≡ head_line is_data head.now octets.now }
{
    let mut page = Page::new(alloc);
    put_plain(&mut page, head, is_data, octets);
    page
}

/// Adds the alphabet, or the coding scheme and whether a header stands in front, as members.
fn put_coding_members(object: &mut Object, head: &Head, is_data: bool)
    ensures { Writes object.old object.new (coding_members is_data head.now.alphabet.now
        head.now.coding_scheme head.now.has_header) }
{
    if is_data {
        object.number_named("dcs", u64::from(head.coding_scheme));
        object.name("header");
        object.flag(head.has_header);
    } else {
        object.text_named("alphabet", head.alphabet);
    }
}

/// Adds the object of a segment.
fn put_object(object: &mut Object, head: &Head, is_data: bool, octets: &[u8])
    ensures { Writes object.old object.new (head_object is_data head.now octets.now) }
{
    object.open();
    object.number_named("sequence", u64::from(head.sequence));
    object.number_named("maximum", u64::from(head.maximum));
    put_coding_members(object, head, is_data);
    object.number_named("length", u64::from(head.length));
    object.octets_named("octets", octets);
    object.close();
}

/// The object of a segment, in a line.
fn object_of(alloc: Global, head: &Head, is_data: bool, octets: &[u8]) -> Page
    ensures { result.is_cut ≡ false
        → result.octets ≡ head_text Json is_data head.now octets.now }
{
    let mut object = Object::new(Page::new(alloc));
    put_object(&mut object, head, is_data, octets);
    object.into_line()
}

/// The line or the object of a segment.
fn page_of(alloc: Global, head: &Head, long: &LongText<'_>, octets: &[u8]) -> Page
    ensures { result.is_cut ≡ false → result.octets
        ≡ head_text long.now.form long.now.is_data head.now octets.now }
{
    match long.form {
        Form::Plain => plain_of(alloc, head, long.is_data, octets),
        Form::Json => object_of(alloc, head, long.is_data, octets),
    }
}

/// Writes the line of a segment.
pub(crate) fn put_line<W: Write>(
    alloc: Global,
    head: &Head,
    long: &LongText<'_>,
    octets: &[u8],
    output: &mut W,
) -> Result<(), CutFault>
    ensures { OnOk result (Appends (W.contents output.old) (W.contents output.new)
        (head_text long.now.form long.now.is_data head.now octets.now)) }
{
    let mut page = page_of(alloc, head, long, octets);
    Ok(page.write_to(output)?)
}
