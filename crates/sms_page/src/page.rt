//! Octets that are collected before they are written.

ghost use Rattle.std.specs.Prelude.{◌≡◌, [], ◌∷◌, ◌++◌, ◌+◌, ◌*◌, ◌<◌, ◌≤◌, Bool, true, false, decimal, length, take, if◌then◌else◌, IfOk, OnErr, OnOk};
ghost use Rattle.std.specs.String.{string_bytes};
ghost use Rattle.std.specs.Io.KnownBytes.{Appends};
ghost use Rattle.hex.specs.Hex.{encode_upper};
ghost use Rattle.sms_page.specs.Inside.Place.{IsPut};
ghost use Rattle.sms_page.specs.Page.{PageValue, Puts, hexadecimal, maybe, named, quoted};

use crate::hexadecimal as digits;
use crate::place::{put_once, put_whole};
use std::alloc::Global;
use std::io::Write;
use std::marker::Model;
use std::{io, mem};

/// How many octets are collected before they are written.
const ENOUGH: usize = 32_768;

/// The room that a line is sure to find near the end of a page, or the page is written before.
const LINE: usize = 4_096;

/// The room that is made at once behind what was collected.
const AHEAD: &[u8; 4_096] = &[0; 4_096];

/// Why a page is not written whole.
#[derive(Clone, Copy, Debug)]
pub enum PageFault {
    /// The output failed.
    Output(io::Error),
    /// Memory ran out before.
    Memory,
}

/// Octets that are collected before they are written, in room that is kept. Where memory runs out,
/// nothing more is collected, and what stands before is written before the fault is told.
#[derive(Drop)]
pub struct Page {
    /// The octets that were collected, and after them room that was made ahead.
    octets: Vec<u8>,
    /// How many octets were collected.
    count: usize,
    is_cut: bool,
}

impl Model for Page {
    ghost use Rattle.std.specs.Prelude.{◌≤◌, length, take};
    ghost use Rattle.sms_page.specs.Page.{PageValue};

    ghost Value = { PageValue };

    ghost view = { λ p. record { octets = take p.count p.octets.items; is_cut = p.is_cut } };

    ghost invariant = { λ p. p.count ≤ length p.octets.items };
}

impl Page {
    /// An empty page.
    pub fn new(alloc: Global) -> Page
        ensures { result ≡ record { octets = []; is_cut = false } }
    {
        Page {
            octets: Vec::new(alloc),
            count: 0,
            is_cut: false,
        }
    }

    /// Memory ran out: nothing more is collected.
    pub fn cut(&mut self)
        ensures { self.new ≡ record { octets = self.old.octets; is_cut = true } }
    {
        self.is_cut = true;
    }

    /// Whether memory ran out.
    pub fn is_cut(&self) -> bool
        ensures { result ≡ self.now.is_cut }
    {
        self.is_cut
    }

    /// How many octets stand on the page.
    pub fn count(&self) -> usize
        ensures { result ≡ length self.now.octets }
    {
        self.count
    }

    /// Goes back to as many octets, or stays where there are fewer. More can be collected again,
    /// in the room of what is gone.
    pub fn back_to(&mut self, count: usize)
        ensures { self.new ≡ record { octets = take count self.old.octets; is_cut = false } }
    {
        self.count = self.count.min(count);
        self.is_cut = false;
    }

    /// Whether a line has room. Where much stands on the page, the room that it takes once more is
    /// asked for ahead, so that what stands there can be written where that is refused.
    pub fn has_room(&mut self) -> bool
        ensures { self.new ≡ self.old }
    {
        let spare = self.octets.capacity() - self.count;
        if self.is_cut || self.count < ENOUGH / 2 || spare >= LINE {
            return true;
        }
        self.octets.truncate(self.count);
        self.octets.reserve(LINE).is_ok()
    }

    /// Whether so much stands on the page that it is time to write it.
    pub fn is_full(&self) -> bool {
        self.count >= ENOUGH
    }

    /// Adds octets.
    pub fn put(&mut self, octets: &[u8])
        ensures { Puts self.old self.new octets.now }
    {
        if self.is_cut {
            return;
        }
        if self.octets.len() - self.count < octets.len() {
            self.put_beyond(octets);
            return;
        }
        let room = self.octets.as_mut_slice();
        put_whole(room, self.count, octets);
        self.count += octets.len();
    }

    /// Adds octets for which no room was made ahead, and makes some behind them, where there is
    /// memory for it already.
    #[cold]
    #[inline(never)]
    fn put_beyond(&mut self, octets: &[u8])
        requires { self.old.is_cut ≡ false }
        ensures { Puts self.old self.new octets.now }
    {
        self.octets.truncate(self.count);
        if !extend(&mut self.octets, octets) {
            self.put_last(octets);
            return;
        }
        self.count = self.octets.len();
        make_ahead(&mut self.octets);
    }

    /// Adds as many octets as there is memory for already. Nothing more is collected.
    fn put_last(&mut self, octets: &[u8])
        requires { self.old.is_cut ≡ false }
        ensures { Puts self.old self.new octets.now }
    {
        self.is_cut = true;
        self.octets.truncate(self.count);
        let spare = self.octets.capacity() - self.count;
        let count = spare.min(octets.len());
        if self.octets.extend_from_slice(&octets[..count]).is_ok() {
            self.count += count;
        }
    }
}

/// Adds octets behind what is there, and says whether there was memory for them. Where memory for
/// twice the room is refused, no more is asked for than is wanted.
fn extend(room: &mut Vec<u8>, octets: &[u8]) -> bool
    ensures { room.new.items ≡ (if result then room.old.items ++ octets.now else room.old.items) }
{
    if room.extend_from_slice(octets).is_ok() {
        return true;
    }
    room.reserve_exact(octets.len()).is_ok() && room.extend_from_slice(octets).is_ok()
}

/// Makes room behind what is there, where there is memory for it already.
fn make_ahead(octets: &mut Vec<u8>)
    ensures { take (length octets.old.items) octets.new.items ≡ octets.old.items }
{
    let spare = octets.capacity() - octets.len();
    let count = spare.min(AHEAD.len());
    let _ = octets.extend_from_slice(&AHEAD[..count]);
}

/// Puts an octet at a place.
#[inline(always)]
fn put_octet(room: &mut [u8], at: usize, octet: u8)
    requires { at < length room.old }
    ensures { IsPut room.old room.new at (octet ∷ []) }
{
    room[at] = octet;
}

/// Puts an octet at a place, and answers the place behind it. It is always stored, and counts only
/// where it is wanted.
#[inline(always)]
fn put_maybe(room: &mut [u8], at: usize, is_wanted: bool, octet: u8) -> usize
    requires { at < length room.old }
    ensures put { IsPut room.old room.new at (maybe is_wanted octet) }
    ensures moved { result ≡ at + length (maybe is_wanted octet) }
    ensures near { result ≤ at + 1 }
{
    room[at] = octet;
    if is_wanted { at + 1 } else { at }
}

/// Puts octets in quotes at a place, and answers the place behind them.
#[inline(always)]
fn put_quoted_at(
    room: &mut [u8],
    at: usize,
    has_comma: bool,
    octets: &[u8],
    has_colon: bool,
) -> usize
    requires { at + length octets.now + 4 ≤ length room.old }
    ensures put { IsPut room.old room.new at (quoted has_comma octets.now has_colon) }
    ensures moved { result ≡ at + length (quoted has_comma octets.now has_colon) }
{
    let start = put_maybe(room, at, has_comma, b',');
    put_octet(room, start, b'"');
    put_whole(room, start + 1, octets);
    let end = start + 1 + octets.len();
    put_octet(room, end, b'"');
    put_maybe(room, end + 1, has_colon, b':')
}

/// Puts the name of a line at a place.
#[inline(always)]
fn put_name_at(room: &mut [u8], at: usize, name: &[u8])
    requires { at + length name.now + 2 ≤ length room.old }
    ensures { IsPut room.old room.new at (named name.now) }
{
    put_whole(room, at, name);
    put_octet(room, at + name.len(), b':');
    put_octet(room, at + name.len() + 1, b' ');
}

/// Puts the upper case digits of octets at a place.
#[inline(always)]
fn put_digits_at(room: &mut [u8], at: usize, octets: &[u8])
    requires { at + 2 * length octets.now ≤ length room.old }
    ensures { IsPut room.old room.new at (encode_upper octets.now) }
{
    digits::put_digits(&mut room[at..at + 2 * octets.len()], octets);
}

/// How many octets are written at once where no room was made ahead.
const FEW: usize = 32;

impl Page {
    /// Adds one octet.
    #[inline(always)]
    pub fn put_one(&mut self, octet: u8)
        ensures { Puts self.old self.new (octet ∷ []) }
    {
        let spare = self.octets.len() - self.count;
        if self.is_cut || spare == 0 {
            self.put(&[octet]);
            return;
        }
        put_octet(self.octets.as_mut_slice(), self.count, octet);
        self.count += 1;
    }

    /// Adds a few octets whose number is known, in one copy of that size.
    #[inline(always)]
    pub fn put_few<const N: usize>(&mut self, octets: &[u8; N])
        ensures { Puts self.old self.new octets.now }
    {
        let spare = self.octets.len() - self.count;
        if self.is_cut || spare < N {
            self.put(octets);
            return;
        }
        put_once(self.octets.as_mut_slice(), self.count, octets);
        self.count += N;
    }

    /// Adds octets in quotes, behind a comma or none, and before a colon or none.
    #[inline(always)]
    pub fn put_quoted(&mut self, has_comma: bool, octets: &[u8], has_colon: bool)
        ensures { Puts self.old self.new (quoted has_comma octets.now has_colon) }
    {
        let spare = self.octets.len() - self.count;
        if self.is_cut || spare < 4 || spare - 4 < octets.len() {
            self.put_quoted_beyond(has_comma, octets, has_colon);
            return;
        }
        let room = self.octets.as_mut_slice();
        self.count = put_quoted_at(room, self.count, has_comma, octets, has_colon);
    }

    /// Adds octets in quotes for which no room was made ahead.
    #[cold]
    #[inline(never)]
    fn put_quoted_beyond(&mut self, has_comma: bool, octets: &[u8], has_colon: bool)
        ensures { Puts self.old self.new (quoted has_comma octets.now has_colon) }
    {
        self.put_wanted(has_comma, b',');
        self.put(b"\"");
        self.put(octets);
        self.put(b"\"");
        self.put_wanted(has_colon, b':');
    }

    /// Adds an octet where it is wanted.
    pub fn put_wanted(&mut self, is_wanted: bool, octet: u8)
        ensures { Puts self.old self.new (maybe is_wanted octet) }
    {
        if is_wanted {
            self.put(&[octet]);
        }
    }

    /// Adds the name of a line, and a colon and a blank behind it.
    #[inline(always)]
    pub fn put_name(&mut self, name: &[u8])
        ensures { Puts self.old self.new (named name.now) }
    {
        let spare = self.octets.len() - self.count;
        if self.is_cut || spare < 2 || spare - 2 < name.len() {
            self.put_name_beyond(name);
            return;
        }
        put_name_at(self.octets.as_mut_slice(), self.count, name);
        self.count += name.len() + 2;
    }

    /// Adds the name of a line for which no room was made ahead.
    #[cold]
    #[inline(never)]
    fn put_name_beyond(&mut self, name: &[u8])
        ensures { Puts self.old self.new (named name.now) }
    {
        self.put(name);
        self.put(b": ");
    }

    /// Adds a number in decimal digits.
    pub fn put_decimal(&mut self, number: u64)
        ensures { Puts self.old self.new (decimal number) }
    {
        if number < 10 {
            self.put_one(b'0' + number as u8);
            return;
        }
        if number < 100 {
            self.put_few(&[b'0' + (number / 10) as u8, b'0' + (number % 10) as u8]);
            return;
        }
        let mut digits = itoa::Buffer::new();
        self.put(digits.format(number).as_bytes());
    }

    /// Adds an octet in two upper case hexadecimal digits.
    pub fn put_octet(&mut self, octet: u8)
        ensures { Puts self.old self.new (encode_upper (octet ∷ [])) }
    {
        self.put_few(&digits::two_digits(octet));
    }

    /// Adds octets in upper case hexadecimal digits.
    pub fn put_digits(&mut self, octets: &[u8])
        ensures { Puts self.old self.new (encode_upper octets.now) }
    {
        let spare = self.octets.len() - self.count;
        if self.is_cut || spare / 2 < octets.len() {
            self.put_digits_beyond(octets);
            return;
        }
        put_digits_at(self.octets.as_mut_slice(), self.count, octets);
        self.count += 2 * octets.len();
    }

    /// Adds octets in upper case hexadecimal digits, for which no room was made ahead.
    fn put_digits_beyond(&mut self, octets: &[u8])
        ensures { Puts self.old self.new (encode_upper octets.now) }
    {
        let mut at = 0;
        while at < octets.len() {
            let count = FEW.min(octets.len() - at);
            self.put_few_digits(&octets[at..at + count]);
            at += count;
        }
    }

    /// Adds a few octets in upper case hexadecimal digits, for which no room was made ahead.
    fn put_few_digits(&mut self, octets: &[u8])
        requires { length octets.now ≤ FEW }
        ensures { Puts self.old self.new (encode_upper octets.now) }
    {
        let mut room = [0; 2 * FEW];
        put_digits_at(&mut room, 0, octets);
        self.put(&room[..2 * octets.len()]);
    }

    /// Adds octets in upper case hexadecimal digits, none as a hyphen.
    pub fn put_hexadecimal(&mut self, octets: &[u8])
        ensures { Puts self.old self.new (hexadecimal octets.now) }
    {
        if octets.is_empty() {
            self.put_one(b'-');
        } else {
            self.put_digits(octets);
        }
    }

    /// The octets of the page, where memory did not run out.
    pub fn into_octets(self) -> Result<Vec<u8>, PageFault>
        ensures octets { IfOk result (λ octets. octets.items ≡ self.octets) }
        ensures whole { OnOk result (self.is_cut ≡ false) }
        ensures memory { OnErr result
            ((result ≡ Err PageFault.Memory) × (self.is_cut ≡ true)) }
    {
        let Page {
            mut octets,
            count,
            is_cut,
            ..
        } = self;
        if is_cut {
            return Err(PageFault::Memory);
        }
        octets.truncate(count);
        Ok(octets)
    }

    /// The page as a text, which is in UTF-8.
    pub fn into_text(self) -> Result<String, PageFault>
        ensures { IfOk result (λ text. string_bytes text ≡ self.octets) }
    {
        match String::from_utf8(self.into_octets()?) {
            Ok(text) => Ok(text),
            Err(_) => Err(PageFault::Memory),
        }
    }

    /// What stands on the page, which is empty afterwards.
    pub fn take(&mut self, alloc: Global) -> Page
        ensures taken { result ≡ self.old }
        ensures left { self.new ≡ record { octets = []; is_cut = false } }
    {
        mem::replace(self, Page::new(alloc))
    }

    /// Writes what stands on the page, which is empty afterwards. That memory ran out is told once
    /// what stood there is written.
    pub fn write_to<W: Write>(&mut self, output: &mut W) -> Result<(), PageFault>
        ensures written { OnOk result
            (Appends (W.contents output.old) (W.contents output.new) self.old.octets) }
        ensures whole { OnOk result (self.old.is_cut ≡ false) }
        ensures memory { result ≡ Err PageFault.Memory → (self.old.is_cut ≡ true)
            × Appends (W.contents output.old) (W.contents output.new) self.old.octets }
        ensures left { self.new ≡ record { octets = []; is_cut = self.old.is_cut } }
    {
        let written = output.write_all(&self.octets.as_slice()[..self.count]);
        self.count = 0;
        match written {
            Ok(()) => {
                if self.is_cut {
                    Err(PageFault::Memory)
                } else {
                    Ok(())
                }
            }
            Err(error) => Err(PageFault::Output(error)),
        }
    }
}
