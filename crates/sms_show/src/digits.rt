//! Octets in hexadecimal digits.

ghost use Rattle.std.specs.Prelude.{◌≡◌, ◌/◌, ◌≤◌, Ok, Err, IfErr, IfOk, length, take};
ghost use Rattle.std.specs.Bool.{OnTrue};
ghost use Rattle.sms_page.specs.Hexadecimal.{Reads, octets_of};
ghost use Rattle.sms_show.specs.Digits.{Tells, is_hyphen, said};

use crate::fault::ShowFault;
use sms_answer::Line;
use sms_page::put_octets;

/// Where a text is no octets in hexadecimal digits.
#[derive(Clone, Copy, Debug, PartialEq, Eq)]
pub struct Spot {
    /// The octets of the text before it.
    pub place: usize,
    /// The character that stands there; none at the end.
    pub character: Option<char>,
}

impl Spot {
    /// Puts the place and the character.
    pub fn put(&self, line: &mut Line)
        ensures { line.new ≡ line.old }
    {
        line.put(b" at ");
        line.put_decimal(self.place as u64);
        line.put(b": ");
        match self.character {
            Some(character) => {
                let mut octets = [0; 4];
                line.put_escaped(character.encode_utf8(&mut octets));
            }
            None => line.put(b"the end"),
        }
    }
}

/// The character at a place of a text in UTF-8.
fn character_at(text: &[u8], place: usize) -> Option<char> {
    let rest = text.get(place..)?;
    match str::from_utf8(rest) {
        Ok(rest) => rest.chars().next(),
        Err(_) => Some('\u{FFFD}'),
    }
}

/// The fault of digits at a place.
fn fault_at(digits: &[u8], place: usize) -> ShowFault
    ensures { Tells result (Err place) }
{
    ShowFault::BadHex(Spot {
        place,
        character: character_at(digits, place),
    })
}

/// Whether digits are a hyphen.
fn is_hyphen(digits: &[u8]) -> bool
    ensures { result ≡ is_hyphen digits.now }
{
    digits.len() == 1 && digits[0] == b'-'
}

/// Makes room for as many octets where there is less, and says whether there was memory for it.
fn make_room(room: &mut Vec<u8>, count: usize) -> bool
    ensures { OnTrue result (count ≤ length room.new.items) }
{
    room.len() >= count || room.resize(count, 0).is_ok()
}

/// Puts the octets of digits into the front of room, and says how many there are, or the place of
/// the first octet that is wrong.
fn put_front(room: &mut [u8], digits: &[u8], has_blanks: bool) -> Result<usize, usize>
    requires { length digits.now / 2 ≤ length room.old }
    ensures { Reads (octets_of has_blanks digits.now) result room.new }
{
    let most = digits.len() / 2;
    put_octets(&mut room[..most], digits, has_blanks)
}

/// Puts the octets of digits into room that is made longer where it is too short, and says how many
/// there are. `-` says no octets. Blanks may stand between octets where they are allowed.
fn put_read(room: &mut Vec<u8>, digits: &[u8], has_blanks: bool) -> Result<usize, ShowFault>
    ensures octets { IfOk result (λ count. (count ≤ length room.new.items)
        × (said has_blanks digits.now ≡ Ok (take count room.new.items))) }
    ensures fault { IfErr result (λ fault. Tells fault (said has_blanks digits.now)) }
{
    if is_hyphen(digits) {
        return Ok(0);
    }
    if !make_room(room, digits.len() / 2) {
        return Err(ShowFault::Memory);
    }
    match put_front(room.as_mut_slice(), digits, has_blanks) {
        Ok(count) => Ok(count),
        Err(place) => Err(fault_at(digits, place)),
    }
}

/// The octets of digits, in room that is lent and kept. `-` says no octets. Blanks may stand
/// between octets where they are allowed.
pub fn read_octets<'a>(
    room: &'a mut Vec<u8>,
    digits: &[u8],
    has_blanks: bool,
) -> Result<&'a [u8], ShowFault>
    ensures octets { IfOk result (λ octets. said has_blanks digits.now ≡ Ok octets.now) }
    ensures fault { IfErr result (λ fault. Tells fault (said has_blanks digits.now)) }
{
    let count = put_read(room, digits, has_blanks)?;
    Ok(&room.as_slice()[..count])
}
