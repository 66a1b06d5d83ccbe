//! Pieces that are offered to a joiner, and what is told of them.

ghost use Rattle.std.specs.Prelude.{◌≡◌, IfOk, OnErr};
ghost use Rattle.sms_tpdu.specs.UserData.ConcatenationFound.{IsPlace};
ghost use Rattle.sms_join.specs.Piece.{piece_to};
ghost use Rattle.sms_told.specs.Offers.{TellsPiece, is_away};

use crate::answer::{Source, Telling};
use sms_field::Stamp;
use sms_join::{Gateway, Offer, OfferFault, Units};
use sms_page::Page;
use sms_tpdu::Concat;
use std::alloc::{AllocError, Global};

/// What is offered of a piece beside where it comes from.
#[derive(Drop)]
pub struct Offered {
    /// The moment at which it counts, in seconds from the start of 2000.
    pub now: u64,
    /// Its time stamp (TP-SCTS).
    pub stamp: Stamp,
    /// Its place among the segments of its message, if it is one.
    pub concat: Option<Concat>,
    /// Its units.
    pub units: Units,
}

/// Whether a piece was turned away, since too many sets are open.
fn is_away(answer: &Result<Offer, OfferFault>) -> bool
    ensures { result ≡ is_away answer.now }
{
    match answer {
        Err(OfferFault::TooManyOpen) => true,
        _ => false,
    }
}

impl Telling {
    /// Offers a piece to a joiner, and adds what is told of the answer. It is given whether the
    /// piece was turned away, since too many sets are open. Where memory runs out for the answer or
    /// for the name of an address, nothing is added.
    pub fn offer(
        self,
        alloc: Global,
        joiner: &mut Gateway,
        source: &Source<'_>,
        piece: Offered,
        page: &mut Page,
    ) -> Result<bool, AllocError>
        requires { IsPlace piece.concat }
        ensures tells { let own = piece_to piece.now source.now.recipient source.now.origin
            piece.stamp piece.concat piece.units in
            IfOk result (TellsPiece joiner.old joiner.new self source.now own page.old page.new) }
        ensures refused { OnErr result (page.new ≡ page.old) }
    {
        let Offered {
            now,
            stamp,
            concat,
            units,
        } = piece;
        let answer = joiner.offer(now, source.recipient, source.origin, stamp, concat, units);
        self.put_answer(alloc, source, &answer, page)?;
        Ok(is_away(&answer))
    }
}
