//! The place of a piece in its set, and how many pieces that has.

ghost use Rattle.std.specs.Prelude.{◌≡◌};
ghost use Rattle.sms_join.specs.Piece.{sequence_of, size_of};

use sms_tpdu::Concat;

/// The place of a piece in its set.
pub(crate) fn sequence_of(concat: Option<Concat>) -> u8
    ensures { result ≡ sequence_of concat }
{
    match concat {
        None => 1,
        Some(concat) => concat.sequence,
    }
}

/// How many pieces the message has.
pub(crate) fn size_of(concat: Option<Concat>) -> u8
    ensures { result ≡ size_of concat }
{
    match concat {
        None => 1,
        Some(concat) => concat.maximum,
    }
}
