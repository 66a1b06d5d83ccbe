//! What comes of a stream.

ghost use Rattle.std.specs.Prelude.{◌≡◌};
ghost use Rattle.sms_stream.specs.Pieces.{is_unknown, moment_in, stamp_in};

use sms_field::{Address, Stamp};
use sms_join::Units;
use sms_tpdu::Concat;

/// The stamp of a piece that has none: no set is known by it.
const NO_STAMP: [u8; 7] = [0; 7];

/// What a segment, or a message in one piece, has for the joiner.
#[derive(Drop)]
pub struct Piece {
    /// Whom it is from (TP-OA).
    pub origin: Address,
    /// Its time stamp (TP-SCTS), where it has one.
    pub stamp: Option<Stamp>,
    /// Its place among the segments of its message, if it is one.
    pub concat: Option<Concat>,
    pub units: Units,
}

/// The line in which a piece comes.
#[derive(Clone, Copy)]
pub struct Arrival<'a> {
    /// The number of the line.
    pub number: u64,
    /// For whom the piece is, where the line says so.
    pub recipient: Option<&'a Address>,
}

impl Piece {
    /// Whether it is a message in one piece without a stamp, by which a repeat would be known.
    pub(crate) fn is_unknown(&self) -> bool
        ensures { result ≡ is_unknown self.now }
    {
        self.stamp.is_none() && self.concat.is_none()
    }

    /// The moment of its stamp, if it has one.
    pub(crate) fn moment(&self) -> Option<u64>
        ensures { result ≡ moment_in self.now }
    {
        match &self.stamp {
            None => None,
            Some(stamp) => stamp.moment(),
        }
    }

    /// Its stamp, or one of zeros, by which no set is known.
    pub(crate) fn known_stamp(&self) -> Stamp
        ensures { result ≡ stamp_in self.now }
    {
        match self.stamp {
            None => Stamp::new(NO_STAMP),
            Some(stamp) => stamp,
        }
    }
}
