//! What joins the pieces of a stream, and tells what comes of each.

ghost use Rattle.std.specs.Prelude.{◌≡◌, codes, option_copied, IfOk, OnErr, OnOk};
ghost use Rattle.std.specs.List.{flat_map};
ghost use Rattle.sms_tpdu.specs.UserData.ConcatenationFound.{IsPlace};
ghost use Rattle.sms_page.specs.Page.{Puts};
ghost use Rattle.sms_told.specs.Sets.{PutsFirst, set_text};
ghost use Rattle.sms_stream.specs.Aging.{aging_text, old_text, Drops, GoesOn};
ghost use Rattle.sms_stream.specs.Pieces.{moment_in};
ghost use Rattle.sms_stream.specs.Stream.{StreamValue};
ghost use Rattle.sms_stream.specs.Taking.{clock_then, counts_at, Offers, Passes, Takes};

use crate::clock::Clock;
use crate::losses::Losses;
use crate::piece::{Arrival, Piece};
use sms_field::Address;
use sms_join::{Gateway, read_units};
use sms_page::Page;
use sms_told::{Offered, Source, Telling, put_old_sets, put_open_sets};
use std::alloc::{AllocError, Global};
use std::marker::Model;

/// What joins the pieces of a stream.
#[derive(Drop)]
pub struct Stream {
    telling: Telling,
    joiner: Gateway,
    clock: Clock,
    losses: Losses,
}

impl Model for Stream {
    ghost use Rattle.sms_stream.specs.Stream.{StreamValue};

    ghost Value = { StreamValue };

    ghost view = { λ s. record {
      telling = s.telling;
      joiner = s.joiner;
      clock = s.clock;
      losses = s.losses;
    } };
}

impl Stream {
    /// One that goes on from what a joiner holds, at a clock, and tells what comes of pieces so.
    pub fn new(telling: Telling, joiner: Gateway, clock: Clock) -> Stream
        ensures { result ≡ record {
          telling = telling;
          joiner = joiner;
          clock = clock;
          losses = record { turned_away = 0; dropped = 0 };
        } }
    {
        Stream {
            telling,
            joiner,
            clock,
            losses: Losses::none(),
        }
    }

    /// How what comes of pieces is told.
    pub fn telling(&self) -> Telling
        ensures { result ≡ self.now.telling }
    {
        self.telling
    }

    /// What it holds.
    pub fn joiner(&self) -> &Gateway
        ensures { result.now ≡ self.now.joiner }
    {
        &self.joiner
    }

    /// What is lost so far.
    pub fn losses(&self) -> Losses
        ensures { result ≡ self.now.losses }
    {
        self.losses
    }

    /// Drops the sets that are old at the clock, and counts them.
    fn age(&mut self)
        ensures drops { Drops self.old self.new self.old.clock.time }
        ensures clock { self.new.clock ≡ self.old.clock }
        ensures telling { self.new.telling ≡ self.old.telling }
    {
        let count = self.joiner.open_count();
        self.joiner.age(self.clock.time);
        let left = self.joiner.open_count();
        self.losses.drop_sets(count.saturating_sub(left));
    }
}

impl Stream {
    /// Takes the moment of a piece, if it has one, and drops the sets that are old then. They are
    /// told before, where all is told.
    fn go_on(
        &mut self,
        alloc: Global,
        origin: &Address,
        moment: Option<u64>,
        page: &mut Page,
    ) -> Result<(), AllocError>
        ensures goes_on { GoesOn self.old self.new origin.now moment }
        ensures told { OnOk result (Puts page.old page.new
            (aging_text self.old self.new.clock.time)) }
    {
        let Some(moment) = moment else {
            return Ok(());
        };
        let before = self.clock.time;
        self.clock.take(origin, moment);
        if self.clock.time <= before {
            return Ok(());
        }
        let told = self.tell_old(alloc, page);
        self.age();
        told
    }

    /// Tells the sets that are old at the clock, in order of opening, where all is told.
    fn tell_old(&self, alloc: Global, page: &mut Page) -> Result<(), AllocError>
        ensures told { OnOk result (Puts page.old page.new
            (old_text self.now.telling self.now.joiner self.now.clock.time)) }
    {
        if !self.telling.is_verbose {
            return Ok(());
        }
        put_old_sets(
            alloc,
            self.telling.form,
            &self.joiner,
            self.clock.time,
            page,
        )
    }

    /// The moment at which a piece counts. A text that it finishes counts as finished at the clock:
    /// a stamp that lies ahead of that is not believed alone.
    fn counts_at(&self, recipient: Option<&Address>, piece: &Piece, moment: Option<u64>) -> u64
        requires place { IsPlace piece.now.concat }
        requires moment { moment ≡ moment_in piece.now }
        ensures { result ≡ counts_at self.now (option_copied recipient.entry) piece.now }
    {
        let now = self.clock.opening(moment);
        if now <= self.clock.time {
            return now;
        }
        let stamp = piece.known_stamp();
        let finishes = self
            .joiner
            .would_finish(recipient, &piece.origin, stamp, piece.concat);
        if finishes { self.clock.time } else { now }
    }

    /// Offers a piece, of which the moment is given, and adds what comes of it.
    fn offer(
        &mut self,
        alloc: Global,
        arrival: Arrival<'_>,
        piece: Piece,
        moment: Option<u64>,
        page: &mut Page,
    ) -> Result<(), AllocError>
        requires place { IsPlace piece.concat }
        requires moment { moment ≡ moment_in piece }
        ensures offers { OnOk result (Offers self.old self.new arrival.entry.number
            (option_copied arrival.entry.recipient) piece page.old page.new) }
        ensures clock { self.new.clock ≡ self.old.clock }
    {
        let now = self.counts_at(arrival.recipient, &piece, moment);
        let stamp = piece.known_stamp();
        let Piece {
            origin,
            concat,
            units,
            ..
        } = piece;
        let source = Source {
            number: arrival.number,
            recipient: arrival.recipient,
            origin: &origin,
            moment,
        };
        let offered = Offered {
            now,
            stamp,
            concat,
            units,
        };
        let joiner = &mut self.joiner;
        let is_away = self.telling.offer(alloc, joiner, &source, offered, page)?;
        self.losses.take(is_away);
        Ok(())
    }

    /// Adds the text of a message in one piece that has no stamp.
    fn pass(
        &self,
        alloc: Global,
        arrival: Arrival<'_>,
        piece: Piece,
        page: &mut Page,
    ) -> Result<(), AllocError>
        ensures { OnOk result (Passes self.now self.now arrival.entry.number
            (option_copied arrival.entry.recipient) piece page.old page.new) }
    {
        let Piece { origin, units, .. } = piece;
        let text = read_units(alloc, &[units])?;
        let source = Source {
            number: arrival.number,
            recipient: arrival.recipient,
            origin: &origin,
            moment: None,
        };
        self.telling.put_text(alloc, &source, &text, page)
    }

    /// Takes a piece, after what is old at its moment is told, where all is told, and dropped, and
    /// adds what comes of it. Where memory runs out for what is told of old sets, they are dropped
    /// and the piece is offered all the same.
    pub fn take(
        &mut self,
        alloc: Global,
        arrival: Arrival<'_>,
        piece: Piece,
        page: &mut Page,
    ) -> Result<(), AllocError>
        requires { IsPlace piece.concat }
        ensures takes { OnOk result (Takes self.old self.new arrival.entry.number
            (option_copied arrival.entry.recipient) piece page.old page.new) }
        ensures clock { self.new.clock ≡ clock_then self.old.clock piece }
    {
        if piece.is_unknown() {
            return self.pass(alloc, arrival, piece, page);
        }
        let moment = piece.moment();
        let gone = self.go_on(alloc, &piece.origin, moment, page);
        let offered = self.offer(alloc, arrival, piece, moment, page);
        gone?;
        offered
    }

    /// Adds the open sets, in order of opening. Where there is no memory for the name of an address,
    /// those before its set are added.
    pub fn finish(&self, alloc: Global, page: &mut Page) -> Result<(), AllocError>
        ensures put { IfOk result (λ _. Puts page.old page.new
            (flat_map (set_text self.now.telling.form (codes "open")) self.now.joiner.told)) }
        ensures refused { OnErr result (PutsFirst page.old page.new
            (set_text self.now.telling.form (codes "open")) self.now.joiner.told) }
    {
        put_open_sets(alloc, self.telling.form, &self.joiner, page)
    }
}
