//! What is told of the answer to a piece.

ghost use Rattle.std.specs.Prelude.{◌≡◌, Err, IfOk, IsErr, OnErr, None, Some, if◌then◌else◌};
ghost use Rattle.sms_join.specs.declared.offer.OfferFault.TheVariants.{Memory};
ghost use Rattle.sms_page.specs.Page.{Puts};
ghost use Rattle.sms_told.specs.Answers.{answer_text, noted, whole_of};
ghost use Rattle.sms_told.specs.Texts.{whole_text};

use crate::form::Form;
use crate::note::put_note;
use crate::whole::{Whole, put_whole};
use sms_field::Address;
use sms_join::{Offer, OfferFault};
use sms_page::Page;
use std::alloc::{AllocError, Global};
use std::marker::Model;

/// How answers are told.
#[derive(Clone, Copy)]
pub struct Telling {
    /// In lines, or as objects of JSON.
    pub form: Form,
    /// Whether all is told, and not whole texts alone.
    pub is_verbose: bool,
    /// Whether an object tells the line of a text.
    pub tells_lines: bool,
}

/// Where a piece comes from.
#[derive(Drop)]
pub struct Source<'a> {
    /// The number of its line.
    pub number: u64,
    /// For whom it is, where the line says so.
    pub recipient: Option<&'a Address>,
    /// Whom it is from (TP-OA).
    pub origin: &'a Address,
    /// Its moment, where it has one.
    pub moment: Option<u64>,
}

impl<'a> Model for Source<'a> {
    ghost use Rattle.std.specs.Prelude.{option_copied};
    ghost use Rattle.sms_told.specs.Answers.{SourceValue};

    ghost Value = { SourceValue };

    ghost view = { λ s. record {
      number = s.number;
      recipient = option_copied s.recipient;
      origin = s.origin.now;
      moment = s.moment;
    } };
}

impl Telling {
    /// The line of a text, where it is told.
    fn line_of(self, number: u64) -> Option<u64>
        ensures { result ≡ (if self.tells_lines then Some number else None) }
    {
        if self.tells_lines { Some(number) } else { None }
    }

    /// Adds a text that is whole. Where there is no memory for the name of an address, nothing is
    /// added.
    pub fn put_text(
        self,
        alloc: Global,
        source: &Source<'_>,
        text: &str,
        page: &mut Page,
    ) -> Result<(), AllocError>
        ensures put { IfOk result (λ _. Puts page.old page.new
            (whole_text self.form (whole_of self source.now text.now))) }
        ensures refused { OnErr result (page.new ≡ page.old) }
    {
        let whole = Whole {
            line: self.line_of(source.number),
            recipient: source.recipient,
            origin: source.origin,
            moment: source.moment,
            text,
        };
        put_whole(alloc, self.form, &whole, page)
    }

    /// Adds what is told in words, where all is told.
    fn note(self, alloc: Global, source: &Source<'_>, told: &str, page: &mut Page)
        ensures { Puts page.old page.new (noted self source.now told.now) }
    {
        if self.is_verbose {
            put_note(alloc, self.form, source.number, told, page);
        }
    }

    /// Adds what is told of the answer to a piece: a text that is whole, and, where all is told, a
    /// repeat and a segment that is turned away. Where memory ran out for the answer or runs out
    /// for the name of an address, nothing is added.
    pub fn put_answer(
        self,
        alloc: Global,
        source: &Source<'_>,
        answer: &Result<Offer, OfferFault>,
        page: &mut Page,
    ) -> Result<(), AllocError>
        ensures put { IfOk result (λ _. Puts page.old page.new
            (answer_text self source.now answer.now)) }
        ensures refused { OnErr result (page.new ≡ page.old) }
        ensures memory { answer.now ≡ Err Memory → IsErr result }
    {
        match answer {
            Ok(Offer::Finished(text)) => self.put_text(alloc, source, text, page)?,
            Ok(Offer::Kept) => {}
            Ok(Offer::Repeat) => self.note(alloc, source, "repeat", page),
            Err(OfferFault::TooManyOpen) => {
                self.note(alloc, source, "too many open sets", page);
            }
            Err(OfferFault::Memory) => return Err(AllocError),
        }
        Ok(())
    }
}
