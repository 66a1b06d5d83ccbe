//! The answer to octets: what they are shown as, and the fault that ends it.

ghost use Rattle.std.specs.Prelude.{◌≡◌};
ghost use Rattle.sms_answer.specs.Answer.{Ends};

use crate::alone::show_alone;
use crate::asked::{Kind, Shown};
use crate::digits::read_octets;
use crate::fault::ShowFault;
use crate::kinds::kind_told;
use crate::records::show_record;
use crate::relay::{show_cp, show_rp};
use crate::units::{show_centre, show_unit};
use sms_answer::{Layer, Lines};
use sms_page::Page;
use sms_told::Form;
use std::alloc::Global;

/// The members of what octets are shown as.
fn put_kind(
    alloc: Global,
    shown: &Shown<'_>,
    octets: &[u8],
    lines: &mut Lines,
) -> Result<(), ShowFault>
    ensures { lines.new ≡ lines.old }
{
    match shown.kind {
        Kind::Unit(kind) => {
            lines.begin(Layer::Unit);
            show_unit(alloc, kind, octets, lines)
        }
        Kind::Any => {
            lines.begin(Layer::Unit);
            show_unit(alloc, kind_told(shown.sender, octets), octets, lines)
        }
        Kind::Rp => {
            lines.begin(Layer::Relay);
            show_rp(alloc, shown.any, octets, lines)
        }
        Kind::Cp => {
            lines.begin(Layer::Connection);
            show_cp(alloc, shown.any, octets, lines)
        }
        Kind::Record => {
            lines.begin(Layer::Record);
            show_record(alloc, octets, lines)
        }
        Kind::Data => {
            lines.begin(Layer::Data);
            show_alone(alloc, shown.alone, octets, lines)
        }
    }
}

/// The members of octets, with those of the address of a service centre where it comes first.
fn put_octets(
    alloc: Global,
    shown: &Shown<'_>,
    octets: &[u8],
    lines: &mut Lines,
) -> Result<(), ShowFault>
    ensures { lines.new ≡ lines.old }
{
    let unit = if shown.has_centre {
        show_centre(octets, lines)?
    } else {
        octets
    };
    put_kind(alloc, shown, unit, lines)
}

/// The members of the octets that digits say.
fn put_digits(
    alloc: Global,
    shown: &Shown<'_>,
    digits: Result<&[u8], ShowFault>,
    room: &mut Vec<u8>,
    lines: &mut Lines,
) -> Result<(), ShowFault>
    ensures { lines.new ≡ lines.old }
{
    let octets = read_octets(room, digits?, shown.has_lines)?;
    put_octets(alloc, shown, octets, lines)
}

/// Begins an answer behind what stands on a page, with the number of the line of input where that is
/// given.
fn begin(form: Form, number: Option<u64>, page: Page) -> Lines
    ensures { result ≡ record { front = page; form = form; number = number } }
{
    match number {
        Some(number) => Lines::numbered(form, page, number),
        None => Lines::new(form, page),
    }
}

/// Adds what the octets of digits are shown as, with the number of their line where there are
/// many. A fault ends it, and the members before the fault stand. It says whether there was one.
/// Where memory runs out, the front of the answer stands.
pub fn put_answer(
    alloc: Global,
    shown: &Shown<'_>,
    number: Option<u64>,
    digits: Result<&[u8], ShowFault>,
    room: &mut Vec<u8>,
    page: &mut Page,
) -> Result<bool, ShowFault>
    ensures { Ends (record { front = page.old; form = shown.now.form; number = number })
        page.new }
{
    let mut lines = begin(shown.form, number, page.take(alloc));
    lines.heed_languages(shown.heeds_languages);
    let told = put_digits(alloc, shown, digits, room, &mut lines);
    match told {
        Err(fault) if fault.is_of_input() => {
            lines.finish_with(alloc, shown.is_explained, &fault, page)?;
            Ok(true)
        }
        _ => {
            *page = lines.finish();
            told?;
            Ok(false)
        }
    }
}
