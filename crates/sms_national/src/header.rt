//! The header of a segment: its place, and the tables of its text.

ghost use Rattle.std.specs.Prelude.{◌≡◌, ◌<◌, ◌≤◌, ◌++◌, length, IfOk, OnOk};
ghost use Rattle.std.specs.List.{flat_map};
ghost use Rattle.sms_tpdu.specs.declared.user_data.concat.Width.TheVariants.{Eight};
ghost use Rattle.sms_tpdu.specs.UserData.Elements.{element_octets};
ghost use Rattle.sms_national.specs.Header as header;

use sms_language::{LOCKING_SHIFT, Locking, SINGLE_SHIFT, Single, Tables};
use sms_tpdu::{Header, Width};
use std::alloc::{AllocError, Global};

/// The most octets of a header, its length octet apart: a place, and two tables.
const ROOM: usize = 12;

/// Adds the element that tells a place, where there are others.
fn put_place(
    out: &mut Vec<u8>,
    width: Width,
    reference: u16,
    maximum: u8,
    sequence: u8,
) -> Result<(), AllocError>
    requires { width ≡ Eight → reference < 256 }
    ensures { OnOk result (out.new.items ≡ out.old.items
        ++ flat_map element_octets (header.place_elements width reference maximum sequence)) }
{
    if maximum == 1 {
        return Ok(());
    }
    match width {
        Width::Eight => out.extend_from_slice(&[0, 3, reference as u8, maximum, sequence]),
        Width::Sixteen => out.extend_from_slice(&[
            8,
            4,
            (reference / 256) as u8,
            (reference % 256) as u8,
            maximum,
            sequence,
        ]),
    }
}

/// Adds the element that tells the table of a code after the escape.
fn put_single(out: &mut Vec<u8>, single: Single) -> Result<(), AllocError>
    ensures { OnOk result (out.new.items ≡ out.old.items
        ++ flat_map element_octets (header.single_elements single)) }
{
    let language = match single {
        Single::Default => return Ok(()),
        Single::Turkish => 1,
        Single::Spanish => 2,
        Single::Portuguese => 3,
    };
    out.extend_from_slice(&[SINGLE_SHIFT, 1, language])
}

/// Adds the element that tells the table of a code alone.
fn put_locking(out: &mut Vec<u8>, locking: Locking) -> Result<(), AllocError>
    ensures { OnOk result (out.new.items ≡ out.old.items
        ++ flat_map element_octets (header.locking_elements locking)) }
{
    let language = match locking {
        Locking::Default => return Ok(()),
        Locking::Turkish => 1,
        Locking::Portuguese => 3,
    };
    out.extend_from_slice(&[LOCKING_SHIFT, 1, language])
}

/// The octets of the elements of a segment's header.
fn element_octets_of(
    alloc: Global,
    tables: Tables,
    width: Width,
    reference: u16,
    maximum: u8,
    sequence: u8,
) -> Result<Vec<u8>, AllocError>
    requires { width ≡ Eight → reference < 256 }
    ensures { IfOk result (λ octets. octets.items ≡ flat_map element_octets
        (header.place_elements width reference maximum sequence
        ++ header.table_elements tables)) }
{
    let mut octets = Vec::with_capacity(alloc, ROOM)?;
    put_place(&mut octets, width, reference, maximum, sequence)?;
    put_single(&mut octets, tables.single)?;
    put_locking(&mut octets, tables.locking)?;
    Ok(octets)
}

/// The header of a segment; none where there is neither a place nor a table to tell.
pub fn segment_header(
    alloc: Global,
    tables: Tables,
    width: Width,
    reference: u16,
    maximum: u8,
    sequence: u8,
) -> Result<Option<Header>, AllocError>
    requires { width ≡ Eight → reference < 256 }
    ensures { IfOk result (λ made.
        made ≡ header.segment_header tables width reference maximum sequence) }
{
    let octets = element_octets_of(alloc, tables, width, reference, maximum, sequence)?;
    if octets.is_empty() {
        return Ok(None);
    }
    Ok(Some(Header::from_slice(alloc, &octets)?))
}
