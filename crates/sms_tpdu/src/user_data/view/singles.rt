//! User data alone whose septets stand one an octet, where they lie.

ghost use Rattle.std.specs.Prelude.{◌≡◌, ◌≤◌, ◌<◌, ◌+◌, ◌-◌, length, slice_index, ℕ, true, false, IfOk, Ok, Some, None};
ghost use Rattle.sms_field.specs.Reading.Answer.{Sees, SeesAs};
ghost use Rattle.sms_field.specs.declared.coding.Alphabet.TheVariants.{Gsm7};
ghost use Rattle.sms_text.specs.Bits.{AreSeptets};
ghost use Rattle.sms_tpdu.specs.UserData.{FitsAlphabet};
ghost use Rattle.sms_tpdu.specs.UserData.Alone.{SeesFrom};
ghost use Rattle.sms_tpdu.specs.UserData.Lengths as lengths;
ghost use Rattle.sms_tpdu.specs.UserData.Singles as singles;
ghost use Rattle.sms_tpdu.specs.UserData.Singles.{each_septet, singles_of, SeesSingles};
ghost use Rattle.sms_tpdu.specs.declared.user_data.body.Body.TheVariants as body;
ghost use Rattle.sms_tpdu.specs.declared.user_data.data_fault.DataFault.TheVariants.{Short};

use crate::user_data::data_fault::DataFault;
use crate::user_data::lengths::{SEPTETS_MAX, length_of_header};
use crate::user_data::view::header::HeaderView;
use sms_field::{Alphabet, Cursor, Fault};
use std::marker::Model;

/// The most octets of user data with a header: its length octet alone takes two of the septets that
/// a unit has room for, and each longer header as many or more.
const HEADED_MAX: usize = 159;

/// How many octets there can be.
fn singles_for(with_header: bool, total: usize) -> Result<usize, DataFault>
    ensures { result ≡ singles.singles_for with_header total }
{
    if with_header {
        if total > HEADED_MAX {
            return Err(DataFault::DataTooLong);
        }
        if total < 1 {
            return Err(DataFault::HeaderTooLong);
        }
    } else if total > SEPTETS_MAX {
        return Err(DataFault::DataTooLong);
    }
    Ok(total)
}

/// The length octet of a header, where there are so many octets.
fn singles_header(total: usize, size: u8) -> Result<u8, DataFault>
    ensures is { result ≡ singles.singles_header total size }
    ensures room { IfOk result (λ size. (size + 1 ≤ total) × (size < 140)) }
{
    let taken = usize::from(size) + 1;
    if taken > total {
        return Err(DataFault::HeaderTooLong);
    }
    let left = total - taken;
    if left > SEPTETS_MAX || length_of_header(Alphabet::Gsm7, taken) + left > SEPTETS_MAX {
        return Err(DataFault::DataTooLong);
    }
    Ok(size)
}

/// How many of the first octets are septets, at most so many.
fn count_septets(octets: &[u8], count: usize) -> usize
    ensures few { (result ≤ count) × (result ≤ length octets.now) }
    ensures are { (k : ℕ) → k < result → slice_index octets.now k < 128 }
    ensures most { result < count → result < length octets.now
        → 128 ≤ slice_index octets.now result }
{
    for (i, octet) in octets.iter().enumerate() {
        if i >= count || *octet >= 128 {
            return i;
        }
    }
    octets.len()
}

/// As many of the next octets as are counted, each a septet.
fn take_septets<'a>(input: &mut Cursor<'a>, count: usize) -> Result<&'a [u8], Fault<DataFault>>
    ensures read { SeesAs (λ v. v.now) (each_septet count) input.old result input.new }
    ensures are { IfOk result (λ septets. AreSeptets septets.now) }
    ensures count { IfOk result (λ septets. length septets.now ≡ count) }
{
    let rest = input.rest();
    let good = count_septets(rest, count);
    if good < count && good < rest.len() {
        let _septets: &[u8] = input.take_octets::<DataFault>(good)?;
        return Err(Fault {
            place: input.place(),
            why: DataFault::BadSeptet,
        });
    }
    input.take_octets(count)
}

/// User data whose septets stand one an octet. Contracts see them as the user data.
#[derive(Drop)]
pub struct SinglesView<'a> {
    header: Option<HeaderView<'a>>,
    septets: &'a [u8],
}

impl<'a> Model for SinglesView<'a> {
    ghost use Rattle.sms_text.specs.Bits.{AreSeptets};
    ghost use Rattle.sms_tpdu.specs.declared.user_data.UserData.{UserData};
    ghost use Rattle.sms_tpdu.specs.UserData.Singles.{singles_in};

    ghost Value = { UserData };

    ghost view = { λ u. singles_in u.header u.septets.now };

    ghost invariant = { λ u. AreSeptets u.septets.now };
}

/// So many octets, without a header, at a cursor.
#[inline(always)]
#[tactic(auto, unfolding(crate::specs::UserData::Singles::singles_of))]
fn septets_seen_at<'a>(
    input: &mut Cursor<'a>,
    total: usize,
) -> Result<SinglesView<'a>, Fault<DataFault>>
    ensures { Sees (singles_of false total) input.old result input.new }
{
    let septets = take_septets(input, total)?;
    Ok(SinglesView {
        header: None,
        septets,
    })
}

/// So many octets, with a header, at a cursor.
#[inline(always)]
#[tactic(auto, unfolding(crate::specs::UserData::Singles::singles_of))]
fn header_and_septets_seen_at<'a>(
    input: &mut Cursor<'a>,
    total: usize,
) -> Result<SinglesView<'a>, Fault<DataFault>>
    ensures { Sees (singles_of true total) input.old result input.new }
{
    let size = input.take_octet_by(|size| singles_header(total, size))?;
    let header = input.take_octets(usize::from(size))?;
    let septets = take_septets(input, total - (usize::from(size) + 1))?;
    Ok(SinglesView {
        header: Some(HeaderView::new(header)),
        septets,
    })
}

/// So many octets, with a header or without, at a cursor.
fn singles_at<'a>(
    input: &mut Cursor<'a>,
    with_header: bool,
    total: usize,
) -> Result<SinglesView<'a>, Fault<DataFault>>
    ensures { Sees (singles_of with_header total) input.old result input.new }
{
    if with_header {
        header_and_septets_seen_at(input, total)
    } else {
        septets_seen_at(input, total)
    }
}

/// So many octets, at their front, and how many octets they take.
fn read_singles<'a>(
    input: &'a [u8],
    with_header: bool,
    total: usize,
) -> Result<(SinglesView<'a>, usize), Fault<DataFault>>
    requires { singles.singles_for with_header total ≡ Ok total }
    ensures { SeesFrom (singles_of with_header total) Short input.now result }
{
    let mut cursor = Cursor::new(input);
    let view = singles_at(&mut cursor, with_header, total)?;
    Ok((view, cursor.place()))
}

impl<'a> SinglesView<'a> {
    /// Sees user data alone, with a header or without, in octets of which each after the header is
    /// a septet.
    pub fn read(
        input: &'a [u8],
        with_header: bool,
    ) -> Result<(SinglesView<'a>, usize), Fault<DataFault>>
        ensures { SeesSingles with_header input.now result }
    {
        match singles_for(with_header, input.len()) {
            Ok(total) => read_singles(input, with_header, total),
            Err(why) => Err(Fault { place: 0, why }),
        }
    }

    /// The header, where there is one.
    pub fn header(&self) -> &Option<HeaderView<'a>>
        ensures { result.now ≡ self.now.header }
    {
        &self.header
    }

    /// The septets.
    pub fn septets(&self) -> &'a [u8]
        ensures same { body.Septets result.now ≡ self.now.body }
        ensures septets { AreSeptets result.now }
    {
        self.septets
    }
}
