//! The hashes of keys: numbers that keys of one message share, and that other keys seldom have.

ghost use Rattle.std.specs.Prelude.{◌≡◌, option_copied};
ghost use Rattle.sms_join.specs.Piece.{key_to};
ghost use Rattle.sms_field.specs.Address.Padded.{padded};
ghost use Rattle.sms_join.specs.Inside.KeyHashes.{hash_of, hashed, numbers_of, segmented, single, width_mark};
ghost use Rattle.sms_join.specs.Inside.KeyHashes.{words_alone, words_of, words_to};
ghost use Rattle.sms_join.specs.Inside.KeyTags.{symbols_of};

use crate::hashing::Hashing;
use crate::key::Key;
use crate::key_tag::symbols_of;
use sms_field::{Address, DIGITS_MAX, Stamp, Symbols};
use sms_tpdu::{Concat, Width};
use std::hash::{BuildHasher, Hash, Hasher};

impl Hash for Key {
    ghost use Rattle.sms_join.specs.Inside.KeyHashes.{hash_writes};
    ghost use Rattle.sms_join.specs.Inside.SameKeyLaws.{key_eq_true};
    ghost use Rattle.std.proofs.Common.{ap};

    ghost hash_input = { hash_writes };

    ghost respects_eq = { λ k l e. ap hash_writes (key_eq_true k l e) };

    /// One write of whole words: a hasher takes octets that end a word, or begin within one, one by
    /// one.
    #[inline(always)]
    fn hash<H: Hasher>(&self, state: &mut H) {
        let numbers = numbers_in(self);
        match self.recipient() {
            None => state.write(words_alone(numbers, self.origin()).as_flattened()),
            Some(recipient) => {
                state.write(words_to(numbers, self.origin(), recipient).as_flattened());
            }
        }
    }
}

/// The time stamp of a message in one piece, in eight octets.
#[inline(always)]
fn single(stamp: Stamp) -> [u8; 8]
    ensures { result ≡ single stamp }
{
    let [year, month, day, hour, minute, second, zone] = stamp.octets();
    [year, month, day, hour, minute, second, zone, 0]
}

/// How many bits a reference has.
#[inline(always)]
fn width_mark(width: Width) -> u8
    ensures { result ≡ width_mark width }
{
    match width {
        Width::Eight => 8,
        Width::Sixteen => 16,
    }
}

/// The reference and the maximum of a message in segments, in eight octets.
#[inline(always)]
fn segmented(width: Width, reference: u16, maximum: u8) -> [u8; 8]
    ensures { result ≡ segmented width reference maximum }
{
    let [low, high] = reference.to_le_bytes();
    [low, high, maximum, 0, 0, 0, 0, width_mark(width)]
}

/// What tells the messages of an origin apart, in eight octets.
#[inline(always)]
fn numbers_in(key: &Key) -> [u8; 8]
    ensures { result ≡ numbers_of key.now }
{
    match key {
        Key::Single { stamp, .. } | Key::SingleTo { stamp, .. } => single(*stamp),
        Key::Segmented {
            width,
            reference,
            maximum,
            ..
        }
        | Key::SegmentedTo {
            width,
            reference,
            maximum,
            ..
        } => segmented(*width, *reference, *maximum),
    }
}

/// The symbols of an address, of which there are twenty at most, and octets that are 0 behind them.
#[inline(always)]
fn room_of(address: &Address) -> [u8; DIGITS_MAX]
    ensures { result ≡ padded 20 (symbols_of address.now) }
{
    match &address.symbols {
        Symbols::Digits(digits) => *digits.as_room(),
        Symbols::Name(name) => {
            let own = name.as_room();
            let mut room = [0; DIGITS_MAX];
            room[..own.len()].copy_from_slice(own);
            room
        }
    }
}

/// An address in three words of eight octets, in which all of it stands.
#[inline(always)]
fn words_of(address: &Address) -> [[u8; 8]; 3]
    ensures { result ≡ words_of address.now }
{
    let count = (symbols_of(address).len() % 256) as u8;
    let room = room_of(address);
    let mut head = [count, address.type_of_number, address.plan, 0, 0, 0, 0, 0];
    let (mut front, mut middle) = ([0; 8], [0; 8]);
    head[4..].copy_from_slice(&room[16..]);
    front.copy_from_slice(&room[..8]);
    middle.copy_from_slice(&room[8..16]);
    [head, front, middle]
}

/// The words of a key without a recipient.
#[inline(always)]
fn words_alone(numbers: [u8; 8], origin: &Address) -> [[u8; 8]; 4]
    ensures { result ≡ words_alone numbers origin.now }
{
    let [head, front, middle] = words_of(origin);
    [numbers, head, front, middle]
}

/// The words of a key for a recipient.
#[inline(always)]
fn words_to(numbers: [u8; 8], origin: &Address, recipient: &Address) -> [[u8; 8]; 7]
    ensures { result ≡ words_to numbers origin.now recipient.now }
{
    let [head, front, middle] = words_of(origin);
    let [own_head, own_front, own_middle] = words_of(recipient);
    [
        numbers, head, front, middle, own_head, own_front, own_middle,
    ]
}

/// 32 bits of the hash of what tells the messages of an origin apart, of the origin, and of the
/// recipient, where there is one.
#[inline(always)]
fn hashed(hashing: Hashing, to: Option<&Address>, origin: &Address, numbers: [u8; 8]) -> u32
    ensures { result ≡ hashed hashing (option_copied to.entry) origin.now numbers }
{
    let mut hasher = hashing.build_hasher();
    match to {
        None => hasher.write(words_alone(numbers, origin).as_flattened()),
        Some(recipient) => hasher.write(words_to(numbers, origin, recipient).as_flattened()),
    }
    (hasher.finish() % (1 << 32)) as u32
}

/// The hash of the key of a message, or of the message that a segment is of.
pub(crate) fn hash_of(
    hashing: Hashing,
    to: Option<&Address>,
    origin: &Address,
    stamp: Stamp,
    concat: Option<Concat>,
) -> u32
    ensures { result ≡ hash_of hashing (key_to (option_copied to.entry) origin.now stamp concat) }
{
    let numbers = match concat {
        None => single(stamp),
        Some(concat) => segmented(concat.width, concat.reference, concat.maximum),
    };
    hashed(hashing, to, origin, numbers)
}

/// The hash of a key.
pub(crate) fn key_hash(hashing: Hashing, key: &Key) -> u32
    ensures { result ≡ hash_of hashing key.now }
{
    hashed(hashing, key.recipient(), key.origin(), numbers_in(key))
}
