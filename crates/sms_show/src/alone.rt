//! The fields of user data alone, one a line.

ghost use Rattle.std.specs.Prelude.{◌≡◌};

use crate::asked::Alone;
use crate::digits::read_octets;
use crate::fault::ShowFault;
use crate::units::{put_header, put_user};
use sms_answer::{Escaped, Lines};
use sms_field::{Alphabet, alphabet_of};
use sms_language::{Locking, Single, Tables, text_of_septets};
use sms_text::text_of_gsm;
use sms_tpdu::{HeaderView, Length, SinglesView, UserDataView, length_of_header};
use std::alloc::{AllocError, Global};

/// The octet that two digits say.
fn scheme_of(alloc: Global, digits: &str) -> Result<u8, ShowFault> {
    let mut room = Vec::new(alloc);
    let read = read_octets(&mut room, digits.as_bytes(), false);
    let octet = match read {
        Ok([octet]) => Ok(*octet),
        Err(ShowFault::Memory) => Err(ShowFault::Memory),
        _ => Err(ShowFault::BadScheme),
    };
    drop(room);
    octet
}

/// How many septets of a unit a header takes.
fn taken_by(header: &Option<HeaderView<'_>>) -> usize {
    match header {
        Some(header) => {
            let octets = header.as_slice().len().saturating_add(1);
            length_of_header(Alphabet::Gsm7, octets.min(256))
        }
        None => 0,
    }
}

/// The tables that a header tells; those of the default alphabet where there is none.
fn tables_of(header: &Option<HeaderView<'_>>) -> Tables {
    match header {
        Some(header) => header.tables(),
        None => Tables {
            locking: Locking::Default,
            single: Single::Default,
        },
    }
}

/// The text of septets, under the national language tables that their header tells where these are
/// heeded.
fn text_of(alloc: Global, lines: &Lines, view: &SinglesView<'_>) -> Result<String, AllocError> {
    if lines.heeds_languages() {
        text_of_septets(alloc, view.septets(), tables_of(view.header()))
    } else {
        text_of_gsm(alloc, view.septets())
    }
}

/// Writes the fields of user data whose septets stand one an octet.
fn show_singles(
    alloc: Global,
    has_header: bool,
    octets: &[u8],
    lines: &mut Lines,
) -> Result<(), ShowFault>
    ensures { lines.new ≡ lines.old }
{
    let (view, _) = SinglesView::read(octets, has_header)?;
    let taken = taken_by(view.header());
    lines.put("length", taken.saturating_add(view.septets().len()));
    if let Some(header) = view.header() {
        put_header(lines, header);
    }
    let text = text_of(alloc, lines, &view)?;
    lines.put("text", Escaped(&text));
    Ok(())
}

/// Writes the fields of user data as a unit has them after TP-UDL.
fn show_packed(
    alloc: Global,
    dcs: u8,
    alone: Alone<'_>,
    octets: &[u8],
    lines: &mut Lines,
) -> Result<(), ShowFault>
    ensures { lines.new ≡ lines.old }
{
    let length = match alone.length {
        Some(count) => Length::Told(count),
        None => Length::Whole,
    };
    let (view, used) = UserDataView::read_alone(
        octets,
        alone.has_header,
        alphabet_of(dcs),
        length,
    )?;
    put_user(alloc, lines, dcs, &view)?;
    lines.put_rest(octets.len().saturating_sub(used));
    Ok(())
}

/// Writes the fields of user data, of which the scheme is told.
pub fn show_alone(
    alloc: Global,
    alone: Alone<'_>,
    octets: &[u8],
    lines: &mut Lines,
) -> Result<(), ShowFault>
    ensures { lines.new ≡ lines.old }
{
    let dcs = scheme_of(alloc, alone.dcs.unwrap_or(""))?;
    if alone.are_singles && alphabet_of(dcs) == Alphabet::Gsm7 {
        show_singles(alloc, alone.has_header, octets, lines)
    } else {
        show_packed(alloc, dcs, alone, octets, lines)
    }
}
