//! The receiving phone.

ghost use Rattle.std.specs.Prelude.{◌≡◌, ◌≢◌, ◌<◌, ◌≤◌, nat_le, length, ◌&&◌, ℕ, true, false, Err, IfOk, OnErr};
ghost use Rattle.std.specs.Vec.{vec_len, vec_capacity};
ghost use Rattle.sms_field.specs.Coding.{alphabet_at};
ghost use Rattle.sms_join.specs.declared.units.Units.{Units as TheUnits};
ghost use Rattle.sms_join.specs.Piece.{piece_of};
ghost use Rattle.sms_tpdu.specs.UserData.ConcatenationFound.{IsPlace, concat_of_header};
ghost use Rattle.sms_join.specs.Joiner.Finishing.{would_finish};
ghost use Rattle.sms_message.specs.Few.{FewPackets};
ghost use Rattle.sms_message.specs.Memory.{MemoryOnlyFor};
ghost use Rattle.sms_message.specs.Message.Glance.{glance_of};
ghost use Rattle.sms_message.specs.Message.Request.{HasCause};
ghost use Rattle.sms_message.specs.Message.Reading.{HasTag};
ghost use Rattle.sms_party.specs.Receiver.State.{limits_of};
ghost use Rattle.sms_join.specs.BodyUnits.{units_of_body};
ghost use Rattle.sms_party.specs.Receiver.Offers.{turned_away, offers_units, receiver_offers};
ghost use Rattle.sms_party.specs.Receiver.{receiver_takes, receiver_opened, receiver_receives};
ghost use Rattle.sms_party.specs.Receiver.Standing.{IsNew, AgesTo, Steps, ReceivesAs};
ghost use Rattle.sms_party.specs.Receiver.Waits.{takes_up};
ghost use Rattle.sms_party.specs.Inside.JoinerLaws.{JoinerLaws};
ghost use Rattle.sms_message.specs.declared.outcome.Dropped.TheVariants.{Memory};
ghost use Rattle.sms_message.specs.declared.message.Message.{Message as MessageValue};

mod replying;

use crate::receiver::replying::{approval, no_room, refusal};
use sms_field::{Address, Stamp, alphabet_of};
use sms_join::laws::{agings_keep_same, answer_finishes, answers_alike, same_is_equivalence};
use sms_join::{Joiner, Offer, OfferFault, Units};
use sms_message::packets::{no_packets, relay_refusal_in};
use sms_message::{
    Dropped, Glance, Look, Message, NotTaken, Outcome, Relay, RelayGlance, Spare, Step, Tag,
    TransferUnit, delivery_from, failure_cause, look_at, octets_are_read_as_a_message, rp_cause,
    unit_from,
};
use sms_relay::Side;
use sms_tpdu::{Concat, Deliver, Header};
use std::alloc::{AllocError, Global};
use std::marker::Model;

/// A text that came.
#[derive(Drop)]
pub struct Entry {
    /// Whom it is from (TP-OA).
    pub origin: Address,
    /// Its text, of the TP-UD of its segments.
    pub text: String,
}

impl Model for Entry {
    ghost use Rattle.std.specs.Str.{chars};
    ghost use Rattle.std.specs.String.{string_bytes};
    ghost use Rattle.sms_party.specs.Receiver.State.{Entry};

    ghost Value = { Entry };

    ghost view = { λ e. record { origin = e.origin; characters = chars (string_bytes e.text) } };
}

/// A receiving phone.
#[derive(Drop)]
pub struct Receiver {
    alloc: Global,
    limit: usize,
    joiner: Joiner,
    /// In order of completion; never more than the limit.
    store: Vec<Entry>,
}

impl Model for Receiver {
    ghost use Rattle.std.specs.Prelude.{◌≤◌, length};
    ghost use Rattle.sms_party.specs.Receiver.Standing.{ReceiverValue};

    ghost Value = { ReceiverValue };

    ghost view = { λ r. record { limit = r.limit; joiner = r.joiner; store = r.store.items } };

    ghost invariant = { λ r. length r.store.items ≤ r.limit };
}

/// The laws of the joiner on which the others stand. It does nothing.
fn laws_of_joiners()
    ensures { JoinerLaws }
{
    agings_keep_same();
    answers_alike();
    answer_finishes();
    same_is_equivalence();
}

/// The place of a segment that the header tells, if there is one and it tells one.
fn concat_of(header: &Option<Header>) -> Option<Concat>
    ensures is { result ≡ concat_of_header header.now }
    ensures place { IsPlace result }
{
    match header {
        None => None,
        Some(header) => header.concat(),
    }
}

/// Whether a receiver takes such a message up.
fn takes_up(seen: Glance) -> bool
    ensures { result ≡ takes_up seen }
{
    match seen {
        Glance::Data { flag, relay, .. } => {
            !flag
                && (relay == RelayGlance::Transfer(Side::ToPhone) || relay == RelayGlance::NoRelay)
        }
        _ => false,
    }
}

/// Makes room in the store for a text, where one finishes.
fn make_room(store: &mut Vec<Entry>, finishes: bool) -> Result<(), AllocError>
    ensures items { store.new.items ≡ store.old.items }
    ensures room { IfOk result
        (λ _. finishes ≡ true → vec_len store.new < vec_capacity store.new) }
{
    if finishes { store.reserve(1) } else { Ok(()) }
}

impl Receiver {
    /// A phone with an empty store: how many sets of segments may be open, how many finished ones
    /// are remembered, and how many texts are stored. The first two must be above 0.
    pub fn new(
        alloc: Global,
        open_max: usize,
        remembered: usize,
        store: usize,
    ) -> Result<Receiver, AllocError>
        requires sets { 0 < open_max }
        requires keys { 0 < remembered }
        ensures { IfOk result (λ receiver. IsNew (limits_of open_max remembered store) receiver) }
    {
        laws_of_joiners();
        Ok(Receiver {
            alloc,
            limit: store,
            joiner: Joiner::new(alloc, open_max, remembered)?,
            store: Vec::new(alloc),
        })
    }

    /// The memory that the receiver grows in.
    pub(crate) fn alloc(&self) -> Global {
        self.alloc
    }

    /// The texts that came, in order of completion: at most as many as the store has room for.
    pub fn store(&self) -> &[Entry]
        ensures store { result.now ≡ self.now.store }
        ensures few { length result.now ≤ self.now.limit }
    {
        self.store.as_slice()
    }

    /// Drops the sets of segments whose first segment came 604,800 seconds before, or earlier. The
    /// moment is in seconds since the beginning of 2000. It takes no memory.
    pub fn age(&mut self, now: u64)
        ensures { AgesTo now self.old self.new }
    {
        laws_of_joiners();
        self.joiner.age(now);
    }

    /// Takes octets that come to the phone in a transaction that the centre has opened, at a moment
    /// in seconds since the beginning of 2000. A CP-ACK or CP-ERROR is noted. An RP-DATA to the
    /// phone, and a CP-DATA whose octets, two or more, are no RP message, are answered by a CP-ACK,
    /// and by an RP-ACK or RP-ERROR. All else is dropped. If it is dropped, or memory runs out,
    /// nothing has changed; memory is asked for what is answered alone.
    pub fn receive(&mut self, now: u64, octets: &[u8]) -> Result<Step, Dropped>
        ensures receives { ReceivesAs now octets.now self.old result self.new }
        ensures few { FewPackets result }
        ensures memory { MemoryOnlyFor takes_up octets.now result }
        ensures refused { OnErr result (self.new ≡ self.old) }
    {
        let mut spare = Spare::new(self.alloc);
        self.receive_with(&mut spare, now, octets)
    }

    /// Takes octets that come to the phone, as `receive` does, with packets in the room of lists
    /// that are spare where there are such.
    pub fn receive_with(
        &mut self,
        spare: &mut Spare,
        now: u64,
        octets: &[u8],
    ) -> Result<Step, Dropped>
        ensures receives { ReceivesAs now octets.now self.old result self.new }
        ensures few { FewPackets result }
        ensures memory { MemoryOnlyFor takes_up octets.now result }
        ensures refused { OnErr result (self.new ≡ self.old) }
    {
        self.receive_look(spare, now, &look_at(octets))
    }

    /// Takes a packet that was looked at, as `receive_with` takes its octets.
    pub(crate) fn receive_look(
        &mut self,
        spare: &mut Spare,
        now: u64,
        look: &Look<'_>,
    ) -> Result<Step, Dropped>
        ensures receives { ReceivesAs now look.now self.old result self.new }
        ensures few { FewPackets result }
        ensures memory { MemoryOnlyFor takes_up look.now result }
        ensures refused { OnErr result (self.new ≡ self.old) }
    {
        octets_are_read_as_a_message();
        laws_of_joiners();
        let seen = look.glance();
        if !takes_up(seen) {
            return self.pass(now, seen);
        }
        let message = look.message(self.alloc)?;
        self.take(spare, now, message)
    }

    /// Takes a message.
    fn take(&mut self, spare: &mut Spare, now: u64, message: Message) -> Result<Step, Dropped>
        requires tag { HasTag message }
        ensures steps { Steps (λ limits s origin. receiver_receives limits s now message origin)
            self.old result self.new }
        ensures refused { OnErr result (self.new ≡ self.old) }
    {
        match message {
            Message::Data { flag, tag, relay } => {
                if flag {
                    drop(relay);
                    Err(Dropped::Unmatched)
                } else {
                    self.take_request(spare, now, tag, relay)
                }
            }
            other => {
                let seen = other.glance();
                drop(other);
                self.pass(now, seen)
            }
        }
    }

    /// Takes a message that is dropped or noted.
    fn pass(&self, now: u64, seen: Glance) -> Result<Step, Dropped>
        requires { takes_up seen ≡ false }
        ensures steps { (message : MessageValue) → glance_of message ≡ seen
            → Steps (λ limits s origin. receiver_receives limits s now message origin)
            self.now result self.now }
        ensures few { FewPackets result }
        ensures memory { result ≢ Err Memory }
    {
        match seen {
            Glance::NotCp => Err(Dropped::NotCp),
            Glance::Note { .. } => Ok(Step {
                outcome: Outcome::Noted,
                packets: no_packets(self.alloc),
            }),
            Glance::Tiny { .. } => Err(Dropped::Unmatched),
            Glance::Data { .. } => Err(Dropped::Unmatched),
        }
    }

    /// Takes a message of a transaction that the centre has opened.
    fn take_request(
        &mut self,
        spare: &mut Spare,
        now: u64,
        tag: Tag,
        relay: Relay,
    ) -> Result<Step, Dropped>
        requires tag { tag.value < 7 }
        ensures steps { Steps (λ limits s origin. receiver_opened limits s now tag relay origin)
            self.old result self.new }
        ensures refused { OnErr result (self.new ≡ self.old) }
    {
        match unit_from(Side::ToPhone, relay) {
            Ok(unit) => self.take_unit(spare, now, tag, unit),
            Err(why) => self.turn_away(spare, tag, why),
        }
    }

    /// Drops what is not taken, or refuses it.
    fn turn_away(&self, spare: &mut Spare, tag: Tag, why: NotTaken) -> Result<Step, Dropped>
        requires tag { tag.value < 7 }
        requires cause { HasCause why }
        ensures { Steps (λ limits s origin. turned_away s tag why) self.now result self.now }
    {
        match why {
            NotTaken::Unmatched => Err(Dropped::Unmatched),
            NotTaken::Refused { cause, failure } => match failure {
                None => relay_refusal_in(spare, Side::FromPhone, tag, cause),
                Some(failure) => refusal(spare, tag, cause, failure),
            },
        }
    }

    /// Takes the unit of a transfer.
    fn take_unit(
        &mut self,
        spare: &mut Spare,
        now: u64,
        tag: Tag,
        unit: TransferUnit,
    ) -> Result<Step, Dropped>
        requires tag { tag.value < 7 }
        ensures steps { Steps (λ limits s origin. receiver_takes limits s now tag unit origin)
            self.old result self.new }
        ensures refused { OnErr result (self.new ≡ self.old) }
    {
        match delivery_from(rp_cause::PROTOCOL_ERROR, unit) {
            Ok(delivery) => self.take_delivery(spare, now, tag, delivery),
            Err(why) => self.turn_away(spare, tag, why),
        }
    }

    /// Takes a delivery.
    fn take_delivery(
        &mut self,
        spare: &mut Spare,
        now: u64,
        tag: Tag,
        delivery: Deliver,
    ) -> Result<Step, Dropped>
        requires tag { tag.value < 7 }
        ensures steps { Steps (λ limits s origin. offers_units limits s now tag delivery origin
            (units_of_body (alphabet_at delivery.dcs) delivery.user.body))
            self.old result self.new }
        ensures refused { OnErr result (self.new ≡ self.old) }
    {
        let alphabet = alphabet_of(delivery.dcs);
        let stamp = delivery.stamp;
        let origin = delivery.origin;
        let user = delivery.user;
        let concat = concat_of(&user.header);
        match Units::of_body(self.alloc, alphabet, user.body)? {
            None => refusal(
                spare,
                tag,
                rp_cause::PROTOCOL_ERROR,
                failure_cause::CODING_SCHEME_NOT_SUPPORTED,
            ),
            Some(units) => self.take_piece(spare, now, tag, origin, stamp, concat, units),
        }
    }

    /// Whether the store is full, and such a message or segment would finish its set.
    fn is_full_for(&self, origin: &Address, stamp: Stamp, concat: Option<Concat>) -> bool
        requires { IsPlace concat }
        ensures { (now : ℕ) (units : TheUnits)
            → result ≡ (nat_le self.now.limit (length self.now.store)
            && would_finish self.now.joiner.holds (piece_of now origin.now stamp concat units)) }
    {
        self.store.len() >= self.limit && self.joiner.would_finish(origin, stamp, concat)
    }

    /// Takes a message or a segment.
    fn take_piece(
        &mut self,
        spare: &mut Spare,
        now: u64,
        tag: Tag,
        origin: Address,
        stamp: Stamp,
        concat: Option<Concat>,
        units: Units,
    ) -> Result<Step, Dropped>
        requires tag { tag.value < 7 }
        requires place { IsPlace concat }
        ensures steps { Steps (λ limits s from. receiver_offers limits s tag origin
            (piece_of now origin stamp concat units) from)
            self.old result self.new }
        ensures refused { OnErr result (self.new ≡ self.old) }
    {
        if self.is_full_for(&origin, stamp, concat) {
            laws_of_joiners();
            return no_room(spare, tag);
        }
        self.offer(spare, now, tag, origin, stamp, concat, units)
    }

    /// Offers the joiner a message or a segment that the store has room for. Nothing grows after
    /// the joiner has taken it; and the store grows for a text that finishes alone.
    fn offer(
        &mut self,
        spare: &mut Spare,
        now: u64,
        tag: Tag,
        origin: Address,
        stamp: Stamp,
        concat: Option<Concat>,
        units: Units,
    ) -> Result<Step, Dropped>
        requires tag { tag.value < 7 }
        requires place { IsPlace concat }
        requires room { (nat_le self.old.limit (length self.old.store)
            && would_finish self.old.joiner.holds (piece_of now origin stamp concat units))
            ≡ false }
        ensures steps { Steps (λ limits s from. receiver_offers limits s tag origin
            (piece_of now origin stamp concat units) from)
            self.old result self.new }
        ensures refused { OnErr result (self.new ≡ self.old) }
    {
        laws_of_joiners();
        make_room(
            &mut self.store,
            self.joiner.would_finish(&origin, stamp, concat),
        )?;
        let packets = approval(spare, tag)?;
        match self.joiner.offer(now, &origin, stamp, concat, units) {
            Ok(Offer::Repeat) => Ok(Step {
                outcome: Outcome::Repeat,
                packets,
            }),
            Ok(Offer::Kept) => Ok(Step {
                outcome: Outcome::Kept,
                packets,
            }),
            Ok(Offer::Finished(text)) => {
                self.store.push_reserved(Entry { origin, text });
                Ok(Step {
                    outcome: Outcome::Finished,
                    packets,
                })
            }
            Err(OfferFault::TooManyOpen) => no_room(spare, tag),
            Err(OfferFault::Memory) => Err(Dropped::Memory),
        }
    }
}
