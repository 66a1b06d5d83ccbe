//! The segments of a text under national language tables.

ghost use Rattle.std.specs.Prelude.{◌≡◌, ◌+◌, ◌<◌, ◌≤◌, length, slice_get, option_map, IfOk, IfSome};
ghost use Rattle.sms_text.specs.Bits.{AreSeptets};
ghost use Rattle.sms_field.specs.declared.coding.Alphabet.TheVariants.{Gsm7};
ghost use Rattle.sms_tpdu.specs.declared.user_data.concat.Width.TheVariants.{Eight};
ghost use Rattle.sms_tpdu.specs.UserData.{FitsAlphabet};
ghost use Rattle.sms_national.specs.Segments.{IsSendable, cut_of, user_of};

use crate::header::segment_header;
use sms_language::Tables;
use sms_tpdu::{Body, Septets, UserData, Width};
use std::alloc::{AllocError, Global};
use std::marker::Model;

/// The segments of a text whose septets are of national language tables, in order.
///
/// Contracts see them as the tables, the width of the reference, and the pieces of septets.
#[derive(Drop)]
pub struct NationalSegments {
    tables: Tables,
    width: Width,
    pieces: Vec<Septets>,
}

impl Model for NationalSegments {
    ghost use Rattle.sms_national.specs.Segments.{Cut, IsSendable, cut_of};

    ghost Value = { Cut };

    ghost view = { λ s. cut_of s.tables s.width s.pieces.items };

    ghost invariant = { λ s. IsSendable (cut_of s.tables s.width s.pieces.items) };
}

/// The same septets.
fn copy_of(alloc: Global, septets: &Septets) -> Result<Septets, AllocError>
    ensures same { IfOk result (λ copy. copy ≡ septets.now) }
    ensures septets { IfOk result AreSeptets }
{
    let copy = Vec::from_slice(alloc, septets.as_slice())?;
    Ok(Septets::new(copy))
}

impl NationalSegments {
    /// The segments of these pieces.
    pub(crate) fn new(tables: Tables, width: Width, pieces: Vec<Septets>) -> NationalSegments
        requires { IsSendable (cut_of tables width pieces.items) }
        ensures { result ≡ cut_of tables width pieces.items }
    {
        NationalSegments {
            tables,
            width,
            pieces,
        }
    }

    /// How many segments there are.
    pub fn len(&self) -> usize
        ensures count { result ≡ length self.now.pieces }
        ensures some { 1 ≤ result }
        ensures few { result ≤ 255 }
    {
        self.pieces.len()
    }

    /// The tables of the text, which the header of each segment tells.
    pub fn tables(&self) -> Tables
        ensures { result ≡ self.now.tables }
    {
        self.tables
    }

    /// How wide the reference is.
    pub fn width(&self) -> Width
        ensures { result ≡ self.now.width }
    {
        self.width
    }

    /// The user data of the segment of an index, which counts from 0: its septets after a header
    /// with its place, where there are other segments, and with its tables, where they are not those
    /// of the default alphabet (3GPP TS 23.040, 9.2.3.24.1, 9.2.3.24.8, 9.2.3.24.15 and
    /// 9.2.3.24.16).
    ///
    /// All segments have one reference, which is below 256 with `Width::Eight`.
    pub fn user(
        &self,
        alloc: Global,
        index: usize,
        reference: u16,
    ) -> Result<Option<UserData>, AllocError>
        requires { self.now.width ≡ Eight → reference < 256 }
        ensures user { IfOk result (λ user. user
            ≡ option_map (user_of self.now reference (index + 1))
            (slice_get self.now.pieces index)) }
        ensures fits { IfOk result (λ user. IfSome user (FitsAlphabet Gsm7)) }
    {
        let Some(piece) = self.pieces.get(index) else {
            return Ok(None);
        };
        let maximum = self.pieces.len() as u8;
        let sequence = index as u8 + 1;
        let header = segment_header(alloc, self.tables, self.width, reference, maximum, sequence)?;
        let septets = copy_of(alloc, piece)?;
        Ok(Some(UserData {
            header,
            body: Body::Septets(septets),
        }))
    }
}
