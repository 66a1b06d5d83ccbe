//! What a line has for a joiner: a segment, or a message in one piece.

ghost use Rattle.std.specs.Prelude.{◌≡◌, IfOk, IfSome};
ghost use Rattle.sms_tpdu.specs.UserData.ConcatenationFound.{IsPlace};

use crate::data_line::data_line_in;
use crate::fault::Fault;
use crate::piece_units::{singles_units, user_units};
use crate::words::Carried;
use sms_answer::Layer;
use sms_card::RecordView;
use sms_encode::address_of;
use sms_field::{Alphabet, RpAddressView, alphabet_of};
use sms_show::{centre_fault, deliver_in, read_octets};
use sms_stream::Piece;
use sms_tpdu::{Concat, DeliverView, HeaderView, Length, SinglesView, UserDataView};
use std::alloc::Global;

/// How lines have their pieces.
#[derive(Clone, Copy)]
pub struct Pieces {
    /// What a line has.
    pub carried: Carried,
    /// Whether texts are read under the national language tables that their headers tell.
    pub heeds_languages: bool,
}

/// The place of a segment that the header tells, if there is one and it tells one.
fn concat_of(header: &Option<HeaderView<'_>>) -> Option<Concat>
    ensures { IsPlace result }
{
    match header {
        None => None,
        Some(header) => header.concat(),
    }
}

/// The octets after the address of a service centre.
fn unit_after_centre(octets: &[u8]) -> Result<&[u8], Fault> {
    let (_, used) = RpAddressView::read(octets).map_err(centre_fault)?;
    Ok(&octets[used..])
}

impl Pieces {
    /// The piece that a line has; none where it is a record without an SMS-DELIVER. Where there is
    /// a fault, the layer is the one at fault.
    pub fn take(
        self,
        alloc: Global,
        line: &[u8],
        room: &mut Vec<u8>,
        layer: &mut Layer,
    ) -> Result<Option<Piece>, Fault>
        ensures { IfOk result (λ piece. IfSome piece (λ piece. IsPlace piece.concat)) }
    {
        match self.carried {
            Carried::Record => {
                let octets = read_octets(room, line, true)?;
                *layer = Layer::Record;
                self.of_record(alloc, octets)
            }
            Carried::Unit => Ok(Some(self.of_bare_unit(alloc, line, room, layer)?)),
            Carried::Centre => Ok(Some(self.after_centre(alloc, line, room, layer)?)),
            Carried::Data => Ok(Some(self.of_data(alloc, line, room, layer)?)),
            Carried::Septets => Ok(Some(self.of_septets(alloc, line, room, layer)?)),
        }
    }

    /// The piece of a unit that stands in a line.
    fn of_bare_unit(
        self,
        alloc: Global,
        line: &[u8],
        room: &mut Vec<u8>,
        layer: &mut Layer,
    ) -> Result<Piece, Fault>
        ensures { IfOk result (λ piece. IsPlace piece.concat) }
    {
        let unit = read_octets(room, line, true)?;
        *layer = Layer::Unit;
        self.of_unit(alloc, unit)
    }

    /// The piece of a unit that stands in a line after the address of a service centre.
    fn after_centre(
        self,
        alloc: Global,
        line: &[u8],
        room: &mut Vec<u8>,
        layer: &mut Layer,
    ) -> Result<Piece, Fault>
        ensures { IfOk result (λ piece. IsPlace piece.concat) }
    {
        let octets = read_octets(room, line, true)?;
        *layer = Layer::Centre;
        let unit = unit_after_centre(octets)?;
        *layer = Layer::Unit;
        self.of_unit(alloc, unit)
    }

    /// The piece that a record has; none where it is free, or has another unit than an SMS-DELIVER.
    fn of_record(self, alloc: Global, octets: &[u8]) -> Result<Option<Piece>, Fault>
        ensures { IfOk result (λ piece. IfSome piece (λ piece. IsPlace piece.concat)) }
    {
        let record = RecordView::read(octets)?;
        match deliver_in(&record) {
            Some(deliver) => Ok(Some(self.of_deliver(alloc, deliver)?)),
            None => Ok(None),
        }
    }

    /// The piece that a unit has, which is an SMS-DELIVER.
    fn of_unit(self, alloc: Global, octets: &[u8]) -> Result<Piece, Fault>
        ensures { IfOk result (λ piece. IsPlace piece.concat) }
    {
        let (deliver, _) = DeliverView::read(octets)?;
        self.of_deliver(alloc, &deliver)
    }

    /// The piece that an SMS-DELIVER has.
    fn of_deliver(self, alloc: Global, deliver: &DeliverView<'_>) -> Result<Piece, Fault>
        ensures { IfOk result (λ piece. IsPlace piece.concat) }
    {
        let concat = concat_of(deliver.user.header());
        let alphabet = alphabet_of(deliver.dcs);
        let heeded = self.heeds_languages;
        let Some(units) = user_units(alloc, &deliver.user, alphabet, heeded)? else {
            return Err(Fault::NoText);
        };
        Ok(Piece {
            origin: deliver.origin.to_value(alloc)?,
            stamp: Some(deliver.stamp),
            concat,
            units,
        })
    }

    /// The piece that user data alone have in a line.
    fn of_data(
        self,
        alloc: Global,
        line: &[u8],
        room: &mut Vec<u8>,
        layer: &mut Layer,
    ) -> Result<Piece, Fault>
        ensures { IfOk result (λ piece. IsPlace piece.concat) }
    {
        let data = data_line_in(line, room)?;
        let origin = address_of(alloc, data.origin)?;
        let octets = read_octets(room, data.digits.as_bytes(), false)?;
        *layer = Layer::Data;
        let alphabet = alphabet_of(data.dcs);
        let (user, _) = UserDataView::read_alone(octets, data.has_header, alphabet, Length::Whole)?;
        let concat = concat_of(user.header());
        let Some(units) = user_units(alloc, &user, alphabet, self.heeds_languages)? else {
            return Err(Fault::NoText);
        };
        Ok(Piece {
            origin,
            stamp: None,
            concat,
            units,
        })
    }

    /// The piece that user data alone have in a line, whose septets stand one an octet.
    fn of_septets(
        self,
        alloc: Global,
        line: &[u8],
        room: &mut Vec<u8>,
        layer: &mut Layer,
    ) -> Result<Piece, Fault>
        ensures { IfOk result (λ piece. IsPlace piece.concat) }
    {
        let data = data_line_in(line, room)?;
        if alphabet_of(data.dcs) != Alphabet::Gsm7 {
            return self.of_data(alloc, line, room, layer);
        }
        let origin = address_of(alloc, data.origin)?;
        let octets = read_octets(room, data.digits.as_bytes(), false)?;
        *layer = Layer::Data;
        let (view, _) = SinglesView::read(octets, data.has_header)?;
        Ok(Piece {
            origin,
            stamp: None,
            concat: concat_of(view.header()),
            units: singles_units(alloc, &view, self.heeds_languages)?,
        })
    }
}
