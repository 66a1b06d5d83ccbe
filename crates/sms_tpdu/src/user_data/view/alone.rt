//! User data alone, with no unit around them.

ghost use Rattle.std.specs.Prelude.{◌≡◌, ◌≤◌, length, true, false, IfOk, Ok};
ghost use Rattle.sms_field.specs.Reading.Answer.{Sees};
ghost use Rattle.sms_tpdu.specs.UserData.{FitsAlphabet};
ghost use Rattle.sms_tpdu.specs.UserData.Lengths as lengths;
ghost use Rattle.sms_tpdu.specs.UserData.Alone as alone;
ghost use Rattle.sms_tpdu.specs.UserData.Alone.{data_of, SeesFrom, SeesAlone};
ghost use Rattle.sms_tpdu.specs.declared.fault.UnitFault.TheVariants.{Short};

use crate::fault::UnitFault;
use crate::user_data::lengths::{OCTETS_MAX, greatest_length, length_of_header, octets_of_length};
use crate::user_data::view::{UserDataView, body_seen, header_and_body_seen, header_length};
use sms_field::{Alphabet, Cursor, Fault};

/// How long user data alone are.
#[derive(Clone, Copy, Debug, PartialEq, Eq)]
pub enum Length {
    /// As a count says: of septets under the 7-bit alphabet, those that a header takes among them,
    /// else of octets (TP-UDL).
    Told(u8),
    /// All the octets: as many septets as fit whole under the 7-bit alphabet.
    Whole,
}

/// A length that can be.
fn count_for(with_header: bool, alphabet: Alphabet, count: usize) -> Result<u8, UnitFault>
    ensures { result ≡ alone.count_for with_header alphabet count }
{
    if count > greatest_length(alphabet) {
        return Err(UnitFault::DataTooLong);
    }
    if with_header && length_of_header(alphabet, 1) > count {
        return Err(UnitFault::HeaderTooLong);
    }
    Ok(count as u8)
}

/// The length of so many octets.
fn whole_length(alphabet: Alphabet, octets: usize) -> usize
    requires { octets ≤ OCTETS_MAX }
    ensures { result ≡ alone.whole_length alphabet octets }
{
    match alphabet {
        Alphabet::Gsm7 => 8 * octets / 7,
        _ => octets,
    }
}

/// The length that is told, or that of so many octets, if it can be.
fn count_by(
    with_header: bool,
    alphabet: Alphabet,
    told: Length,
    octets: usize,
) -> Result<u8, UnitFault>
    ensures { result ≡ alone.count_for with_header alphabet
        (alone.length_by told alphabet octets) }
{
    match told {
        Length::Told(count) => count_for(with_header, alphabet, usize::from(count)),
        Length::Whole if octets > OCTETS_MAX => Err(UnitFault::DataTooLong),
        Length::Whole => count_for(with_header, alphabet, whole_length(alphabet, octets)),
    }
}

/// User data without a header, of a length, at a cursor.
#[inline(always)]
#[tactic(auto, unfolding(crate::specs::UserData::Alone::data_of))]
fn body_alone_at<'a>(
    input: &mut Cursor<'a>,
    alphabet: Alphabet,
    count: u8,
) -> Result<UserDataView<'a>, Fault<UnitFault>>
    requires { alone.count_for false alphabet count ≡ Ok count }
    ensures fits { IfOk result (FitsAlphabet alphabet) }
    ensures read { Sees (data_of false alphabet count) input.old result input.new }
{
    let octets = input.take_octets(octets_of_length(alphabet, count))?;
    Ok(body_seen(alphabet, count, octets))
}

/// User data with a header, of a length, at a cursor.
#[inline(always)]
#[tactic(auto, unfolding(crate::specs::UserData::Alone::data_of))]
fn header_and_body_alone_at<'a>(
    input: &mut Cursor<'a>,
    alphabet: Alphabet,
    count: u8,
) -> Result<UserDataView<'a>, Fault<UnitFault>>
    requires { alone.count_for true alphabet count ≡ Ok count }
    ensures fits { IfOk result (FitsAlphabet alphabet) }
    ensures read { Sees (data_of true alphabet count) input.old result input.new }
{
    let size = input.take_octet_by(|size| header_length(alphabet, count, size))?;
    let header = input.take_octets(usize::from(size))?;
    let octets = input.take_octets(octets_of_length(alphabet, count) - (usize::from(size) + 1))?;
    Ok(header_and_body_seen(header, alphabet, count, octets))
}

/// User data of a length, at a cursor.
fn alone_at<'a>(
    input: &mut Cursor<'a>,
    with_header: bool,
    alphabet: Alphabet,
    count: u8,
) -> Result<UserDataView<'a>, Fault<UnitFault>>
    requires { alone.count_for with_header alphabet count ≡ Ok count }
    ensures fits { IfOk result (FitsAlphabet alphabet) }
    ensures read { Sees (data_of with_header alphabet count) input.old result input.new }
{
    if with_header {
        header_and_body_alone_at(input, alphabet, count)
    } else {
        body_alone_at(input, alphabet, count)
    }
}

/// User data of a length, at the front of the octets, and how many octets they take.
fn read_of<'a>(
    input: &'a [u8],
    with_header: bool,
    alphabet: Alphabet,
    count: u8,
) -> Result<(UserDataView<'a>, usize), Fault<UnitFault>>
    requires { alone.count_for with_header alphabet count ≡ Ok count }
    ensures fits { IfOk result (λ x. FitsAlphabet alphabet x.0) }
    ensures seen { SeesFrom (data_of with_header alphabet count) Short input.now result }
{
    let mut cursor = Cursor::new(input);
    let view = alone_at(&mut cursor, with_header, alphabet, count)?;
    Ok((view, cursor.place()))
}

impl<'a> UserDataView<'a> {
    /// Sees user data alone, with a header or without, and says how many octets they take. What
    /// follows the octets of a length that is told is ignored.
    pub fn read_alone(
        input: &'a [u8],
        with_header: bool,
        alphabet: Alphabet,
        told: Length,
    ) -> Result<(UserDataView<'a>, usize), Fault<UnitFault>>
        ensures fits { IfOk result (λ x. FitsAlphabet alphabet x.0) }
        ensures seen { SeesAlone with_header alphabet
            (alone.length_by told alphabet (length input.now)) input.now result }
    {
        match count_by(with_header, alphabet, told, input.len()) {
            Ok(count) => read_of(input, with_header, alphabet, count),
            Err(why) => Err(Fault { place: 0, why }),
        }
    }
}
