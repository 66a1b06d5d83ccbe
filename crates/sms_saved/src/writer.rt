//! A state as octets, as a joiner lends what it holds.

ghost use Rattle.std.specs.Prelude.{◌≡◌, ◌++◌, length, OnOk, IfOk};
ghost use Rattle.sms_saved.specs.Spelling.{eight, place, front, front_of_set, remembered, head, digest};
ghost use Rattle.sms_saved.specs.Views.{seen_place};

use crate::digest::digest_of;
use crate::putting::{put_key, put_limits, put_u64, put_units};
use crate::state::{Key, Limits};
use crate::views::UnitsView;
use std::alloc::{AllocError, Global};
use std::marker::Model;

/// What a state begins with: SMSSTATE and its version.
const HEAD: [u8; 9] = *b"SMSSTATE\x01";

/// How many octets the checksum has.
const SUM: usize = 32;

/// A state that is written: `begin`, of each open set `begin_set` and a `put_place` for each
/// sequence, `begin_keys`, a `put_key` for each remembered key, `end`. To clauses it is the octets
/// so far. Where memory runs out, it has some of what was put, and is to be let go.
#[derive(Drop)]
pub struct Writer {
    octets: Vec<u8>,
}

impl Model for Writer {
    ghost use Rattle.std.specs.Prelude.{ℕ, List};

    ghost Value = { List ℕ };

    ghost view = { λ w. w.octets.items };
}

impl Writer {
    /// A state of a joiner with these limits: how many lines of its input were taken, the number
    /// of the next opening, and how many sets are open.
    pub fn begin(
        alloc: Global,
        limits: Limits,
        taken: u64,
        next: u64,
        sets: usize,
    ) -> Result<Writer, AllocError>
        ensures { IfOk result (λ w. w ≡ front limits taken next ++ eight sets) }
    {
        let mut octets = Vec::new(alloc);
        octets.extend_from_slice(&HEAD)?;
        put_limits(&mut octets, limits)?;
        put_u64(&mut octets, taken)?;
        put_u64(&mut octets, next)?;
        put_u64(&mut octets, sets as u64)?;
        Ok(Writer { octets })
    }

    /// An open set: its key, when its first piece came, and the number of its opening.
    pub fn begin_set(&mut self, key: &Key, moment: u64, opening: u64) -> Result<(), AllocError>
        ensures { OnOk result (self.new
            ≡ self.old ++ front_of_set key.now moment opening) }
    {
        put_key(&mut self.octets, key, moment)?;
        put_u64(&mut self.octets, opening)
    }

    /// The units of the set's next sequence, the first being 1, or `None` where they have not come.
    pub fn put_place(&mut self, units: Option<UnitsView<'_>>) -> Result<(), AllocError>
        ensures { OnOk result (self.new ≡ self.old ++ place (seen_place units.entry)) }
    {
        put_units(&mut self.octets, units)
    }

    /// How many keys are remembered.
    pub fn begin_keys(&mut self, keys: usize) -> Result<(), AllocError>
        ensures { OnOk result (self.new ≡ self.old ++ eight keys) }
    {
        put_u64(&mut self.octets, keys as u64)
    }

    /// A remembered key, and when its message finished.
    #[inline(always)]
    pub fn put_key(&mut self, key: &Key, moment: u64) -> Result<(), AllocError>
        ensures { OnOk result (self.new
            ≡ self.old ++ remembered (record { key = key.now; moment = moment })) }
    {
        put_key(&mut self.octets, key, moment)
    }

    /// How many octets there are with the checksum at their end.
    #[tactic(auto, using(crate::proofs::Whole::length_digest))]
    pub fn count_with_sum(&self) -> usize
        ensures { result ≡ length (self.now ++ digest self.now) }
    {
        self.octets.len() + SUM
    }

    /// All octets, with the checksum at their end.
    pub fn end(self) -> Result<Vec<u8>, AllocError>
        ensures { IfOk result (λ v. v.items ≡ self ++ digest self) }
    {
        let Writer { mut octets } = self;
        let sum = digest_of(&octets);
        octets.extend_from_slice(&sum)?;
        Ok(octets)
    }
}
