//! A world that is watched: it tells whether all that has happened in it came in order.

ghost use Rattle.std.specs.Prelude.{◌≡◌, ◌<◌, ◌-◌, true, Some, Err, IfOk, OnErr, length};
ghost use Rattle.sms_message.specs.declared.outcome.Dropped.TheVariants.{Memory};
ghost use Rattle.sms_world.specs.declared.fault.WorldFault.TheVariants.{Party};
ghost use Rattle.std.specs.Option.{unwrap_or};
ghost use Rattle.std.specs.Str.{chars};
ghost use Rattle.sms_join.specs.UnitsOfText.{IsText};
ghost use Rattle.sms_script.specs.Meaning.Known.{ArePhones};
ghost use Rattle.sms_script.specs.Play.Runs.{IsTick};
ghost use Rattle.sms_script.specs.Script.Limits.{AreLimits};
ghost use Rattle.sms_centre.specs.Centre.Latest.{latest_at};
ghost use Rattle.sms_world.specs.Breaches.{breach_at, segment_at, breach_after};
ghost use Rattle.sms_world.specs.Inside.Followed.{IsFollowed, ComesInOrder, Follows};
ghost use Rattle.sms_world.specs.Inside.NotesValue.{ledger_in, IsOfText, AreRowsOf};
ghost use Rattle.sms_world.specs.Inside.Asked.{way_at, text_after, text_typed_to, no_text};
ghost use Rattle.sms_world.specs.Watched.{IsWatched, BeginsWatched, GoesOnWatched, OrderIsTold, StoresAreKept};
ghost use Rattle.sms_world.specs.World.Steps.{event_of, PutsMore, Steps, IfNowhere};

use crate::fault::WorldFault;
use crate::laws::{claims_hold, facts_are_told, laws_below, watching_goes_on};
use crate::notes::Notes;
use crate::notes::mark::{Facts, TextNote};
use crate::order::Breach;
use crate::world::World;
use crate::world::way::Way;
use sms_field::Address;
use sms_message::Outcome;
use sms_script::{Event, Limits};
use std::alloc::{AllocError, Global};
use std::marker::Model;

/// A world, and what is noted of the events that have happened in it: so it can tell whether they
/// came in order. A look-up takes a time that grows with the texts that have finished at a phone,
/// at most as many as its store has room for, and with nothing else that has happened.
#[derive(Drop)]
pub struct WatchedWorld {
    world: World,
    notes: Notes,
    /// How many events there were, those that were answered by a fault too; no more than 2^64 - 1
    /// are counted.
    events: u64,
    breach: Option<Breach>,
}

impl Model for WatchedWorld {
    ghost use Rattle.sms_world.specs.Watched.{WatchedValue, IsWatched};
    ghost use Rattle.sms_world.specs.Inside.NotesValue.{AreRowsOf};
    ghost use Rattle.sms_world.specs.Inside.Tables.{tables_in};

    ghost Value = { WatchedValue };

    ghost view = { λ w. record {
      world = w.world;
      notes = tables_in w.notes;
      events = w.events;
      breach = w.breach;
    } };

    ghost invariant = { λ w.
        AreRowsOf w.notes w.world
        × IsWatched (record {
          world = w.world;
          notes = tables_in w.notes;
          events = w.events;
          breach = w.breach;
        }) };
}

impl WatchedWorld {
    /// A world in which nothing has happened, as `World::new` makes it.
    pub fn new(
        alloc: Global,
        limits: Limits,
        phones: &[Address],
    ) -> Result<WatchedWorld, AllocError>
        requires limits { AreLimits limits }
        requires phones { ArePhones phones.now }
        ensures begins { IfOk result (BeginsWatched limits phones.now) }
        ensures phones { IfOk result (λ w. length w.world.parties.phones ≡ length phones.now) }
    {
        watching_goes_on();
        let notes = Notes::new(alloc, phones.len())?;
        let world = World::new(alloc, limits, phones)?;
        Ok(WatchedWorld {
            world,
            notes,
            events: 0,
            breach: None,
        })
    }

    /// What happens at an event: as `World::step`. Where there is no memory for what is to be
    /// noted, the event is answered as one for which there is none, and nothing has changed but the
    /// number of events.
    pub fn step(&mut self, event: &Event) -> Result<Outcome, WorldFault>
        ensures steps { Steps (event_of event.now) self.old.world result self.new.world }
        ensures goes { GoesOnWatched (event_of event.now) self.old result self.new }
        ensures phones { length self.new.world.parties.phones
            ≡ length self.old.world.parties.phones }
        ensures packets { PutsMore self.old.world self.new.world }
        ensures kept { OnErr result (self.new.world.packets ≡ self.old.world.packets) }
        ensures unmoved { IfNowhere result (self.new.world ≡ self.old.world) }
        ensures ticks { IsTick event.now → self.new.world.packets ≡ self.old.world.packets }
    {
        watching_goes_on();
        let number = self.events.saturating_add(1);
        let breach = breach_after(&self.world, &self.notes, self.breach, number, event);
        let in_order = breach.is_none();
        let told = happen(&mut self.world, &mut self.notes, in_order, event);
        self.events = number;
        self.breach = breach;
        told
    }

    /// The world: its packets, its texts and its stores.
    pub fn world(&self) -> &World
        ensures { result.now ≡ self.now.world }
    {
        &self.world
    }

    /// How many events there were; no more than 2^64 - 1 are counted.
    pub(crate) fn events(&self) -> u64
        ensures { result ≡ self.now.events }
    {
        self.events
    }

    /// There is no memory for what is to be noted of an event beside this world: it is answered as
    /// one for which there is none, and nothing has changed but the number of events.
    pub(crate) fn want_memory(&mut self, way: Way, event: &Event)
        requires { way_at self.old.world (event_of event.now) ≡ Some way }
        ensures steps { Steps (event_of event.now) self.old.world (Err (Party Memory))
            self.new.world }
        ensures goes { GoesOnWatched (event_of event.now) self.old (Err (Party Memory)) self.new }
        ensures world { self.new.world ≡ self.old.world }
    {
        laws_below();
        watching_goes_on();
        typed_texts_are_text(event);
        let number = self.events.saturating_add(1);
        let breach = breach_after(&self.world, &self.notes, self.breach, number, event);
        self.events = number;
        self.breach = breach;
    }

    /// The first event that came out of order, if one did.
    ///
    /// Events, each with its answer, have led from the first state of some limits and phones to
    /// this world. Where this is none, that run is orderly, and each phone's store is, in order of
    /// completion, exactly the texts typed to it of which every segment was taken, each once, whole
    /// and as typed. Else it is not, and this is its first event that does not meet the condition.
    pub fn order(&self) -> Option<Breach>
        ensures comes { IsWatched self.now }
        ensures told { OrderIsTold self.now result }
        ensures kept { StoresAreKept self.now result }
    {
        claims_hold();
        self.breach
    }
}

/// The first event that came out of order: this one, if it came before; else one that comes now, as
/// the one of this number, if it is out of order.
fn breach_after(
    world: &World,
    notes: &Notes,
    first: Option<Breach>,
    number: u64,
    event: &Event,
) -> Option<Breach>
    ensures { let l = ledger_in notes.now in
        let happens = event_of event.now in
        let disorder = breach_at l world.now.limits.remembered world.now.clock happens in
        let segment = segment_at l happens in
        result ≡ breach_after first number disorder segment }
{
    if let Some(breach) = first {
        return Some(breach);
    }
    let remembered = world.limits().remembered;
    let disorder = notes.breach_at(remembered, world.clock(), event)?;
    Some(Breach {
        event: number,
        disorder,
        segment: notes.segment_at(event),
    })
}

/// What happens at an event: it is noted where it comes in order.
fn happen(
    world: &mut World,
    notes: &mut Notes,
    in_order: bool,
    event: &Event,
) -> Result<Outcome, WorldFault>
    requires rows { AreRowsOf notes.old world.old }
    requires in_order { in_order ≡ true → IsFollowed world.old (ledger_in notes.old)
        × ComesInOrder world.old (ledger_in notes.old) (event_of event.now) }
    ensures steps { Steps (event_of event.now) world.old result world.new }
    ensures follows { in_order ≡ true → Follows (event_of event.now) world.old
        (ledger_in notes.old) result world.new (ledger_in notes.new) }
    ensures rows { AreRowsOf notes.new world.new }
    ensures phones { length world.new.parties.phones ≡ length world.old.parties.phones }
    ensures packets { PutsMore world.old world.new }
    ensures kept { OnErr result (world.new.packets ≡ world.old.packets) }
    ensures unmoved { IfNowhere result (world.new ≡ world.old) }
    ensures ticks { IsTick event.now → world.new.packets ≡ world.old.packets }
{
    if in_order {
        happen_in_order(world, notes, event)
    } else {
        world.step(event)
    }
}

/// An event that comes in order happens, and is noted.
fn happen_in_order(
    world: &mut World,
    notes: &mut Notes,
    event: &Event,
) -> Result<Outcome, WorldFault>
    requires rows { AreRowsOf notes.old world.old }
    requires followed { IsFollowed world.old (ledger_in notes.old) }
    requires in_order { ComesInOrder world.old (ledger_in notes.old) (event_of event.now) }
    ensures steps { Steps (event_of event.now) world.old result world.new }
    ensures follows { Follows (event_of event.now) world.old (ledger_in notes.old) result
        world.new (ledger_in notes.new) }
    ensures rows { AreRowsOf notes.new world.new }
    ensures phones { length world.new.parties.phones ≡ length world.old.parties.phones }
    ensures packets { PutsMore world.old world.new }
    ensures kept { OnErr result (world.new.packets ≡ world.old.packets) }
    ensures unmoved { IfNowhere result (world.new ≡ world.old) }
    ensures ticks { IsTick event.now → world.new.packets ≡ world.old.packets }
{
    laws_below();
    watching_goes_on();
    match world.way_of(event) {
        None => world.step(event),
        Some(way) => happen_at_phone(world, notes, way, event),
    }
}

/// An event that is for a phone happens, and is noted.
fn happen_at_phone(
    world: &mut World,
    notes: &mut Notes,
    way: Way,
    event: &Event,
) -> Result<Outcome, WorldFault>
    requires rows { AreRowsOf notes.old world.old }
    requires followed { IsFollowed world.old (ledger_in notes.old) }
    requires in_order { ComesInOrder world.old (ledger_in notes.old) (event_of event.now) }
    requires way { way_at world.old (event_of event.now) ≡ Some way }
    requires within { way.phone < length world.old.parties.phones }
    ensures steps { Steps (event_of event.now) world.old result world.new }
    ensures follows { Follows (event_of event.now) world.old (ledger_in notes.old) result
        world.new (ledger_in notes.new) }
    ensures rows { AreRowsOf notes.new world.new }
    ensures phones { length world.new.parties.phones ≡ length world.old.parties.phones }
    ensures packets { PutsMore world.old world.new }
    ensures kept { OnErr result (world.new.packets ≡ world.old.packets) }
    ensures unmoved { IfNowhere result (world.new ≡ world.old) }
    ensures ticks { IsTick event.now → world.new.packets ≡ world.old.packets }
{
    laws_below();
    watching_goes_on();
    facts_are_told();
    typed_texts_are_text(event);
    notes.make_room(way.phone)?;
    let (limits, now, before) = (world.limits(), world.clock(), world.packet_count());
    let told = world.step(event)?;
    let facts = facts_after(world, way, event, told, before);
    notes.note(limits.reject, now, event, told, facts);
    Ok(told)
}

/// A text that is typed is a text. Nothing is done.
fn typed_texts_are_text(event: &Event)
    ensures { IsOfText (event_of event.now) }
{
    if let Event::Compose { text, .. } = event {
        are_characters(text.as_str());
    }
}

/// A `str` is a text. Nothing is done.
fn are_characters(text: &str)
    ensures { IsText (chars text.now) }
{}

/// What a world tells after an event that was for a phone, beside its answer, where so many packets
/// were there before.
fn facts_after(world: &World, way: Way, event: &Event, told: Outcome, before: usize) -> Facts
    requires { way.phone < length world.now.parties.phones }
    ensures put { result.put ≡ length world.now.packets - before }
    ensures text { result.text ≡ text_after world.now way.phone (event_of event.now) told }
    ensures stamp { result.stamp
        ≡ unwrap_or (latest_at world.now.parties.centre.lines way.phone) 0 }
    ensures way { (result.up ≡ way.up) × (result.phone ≡ way.phone) }
{
    Facts {
        put: world.packet_count().saturating_sub(before),
        text: text_after(world, way.phone, event, told),
        stamp: world.latest_stamp(way.phone).unwrap_or(0),
        up: way.up,
        phone: way.phone,
    }
}

/// What is to be noted of a text, where one was typed at a phone.
fn text_after(world: &World, phone: usize, event: &Event, told: Outcome) -> TextNote
    requires { phone < length world.now.parties.phones }
    ensures { result ≡ text_after world.now phone (event_of event.now) told }
{
    match event {
        Event::Compose { target, .. } => text_typed_to(world, phone, target, told),
        _ => no_text(phone),
    }
}

/// What is to be noted of a text that was typed at a phone to this address, where one was.
fn text_typed_to(world: &World, phone: usize, target: &Address, told: Outcome) -> TextNote
    requires { phone < length world.now.parties.phones }
    ensures { result ≡ text_typed_to world.now phone target.now told }
{
    let Outcome::Typed { text: number } = told else {
        return no_text(phone);
    };
    let (size, reference) = world.newest(phone).unwrap_or((0, 0));
    TextNote {
        phone,
        number,
        recipient: world.recipient_of(target),
        size,
        reference,
    }
}

/// What is noted of no text.
fn no_text(phone: usize) -> TextNote
    ensures { result ≡ no_text phone }
{
    TextNote {
        phone,
        number: 0,
        recipient: None,
        size: 0,
        reference: 0,
    }
}
