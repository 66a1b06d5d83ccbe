//! A world that tells whether `accepted` means accepted in what has happened in it.

ghost use Rattle.std.specs.Prelude.{◌≡◌, ◌<◌, true, Some, IfOk, OnErr, length};
ghost use Rattle.sms_script.specs.Meaning.Known.{ArePhones};
ghost use Rattle.sms_script.specs.Play.Runs.{IsTick};
ghost use Rattle.sms_script.specs.Script.Limits.{AreLimits};
ghost use Rattle.sms_world.specs.Inside.Asked.{way_at};
ghost use Rattle.sms_world.specs.Inside.TraceFollowed.{AreTraceRows, FollowsTraces, doubt_after};
ghost use Rattle.sms_world.specs.Inside.TraceValue.{traces_in, IsBroughtBy};
ghost use Rattle.sms_world.specs.Traces.{ground_at};
ghost use Rattle.sms_world.specs.Trusted.{IsTrusted, BeginsTrusted, GoesOnTrusted, AcceptedIsTold, AcceptedMeansAccepted};
ghost use Rattle.sms_world.specs.Watched.{GoesOnWatched};
ghost use Rattle.sms_world.specs.World.Steps.{event_of, PutsMore, Steps, IfNowhere};

use crate::doubt::Doubt;
use crate::fault::WorldFault;
use crate::laws::{claims_hold, laws_below, runs_are_determined, traces_tell};
use crate::traces::TraceNotes;
use crate::traces::trace::{Brought, brought_by};
use crate::watched::WatchedWorld;
use crate::world::World;
use crate::world::way::Way;
use sms_field::Address;
use sms_message::{Dropped, Outcome};
use sms_script::{Event, Limits};
use std::alloc::{AllocError, Global};
use std::marker::Model;

/// A watched world, and what is noted besides of the events that have happened in it: so it can
/// tell whether each text that is shown as accepted was. A look-up takes a time that grows with the
/// texts that have finished at a phone, at most as many as its store has room for, and with nothing
/// else that has happened.
#[derive(Drop)]
pub struct TrustedWorld {
    alloc: Global,
    watched: WatchedWorld,
    notes: TraceNotes,
    doubt: Option<Doubt>,
}

impl Model for TrustedWorld {
    ghost use Rattle.sms_world.specs.Inside.TraceFollowed.{AreTraceRows};
    ghost use Rattle.sms_world.specs.Inside.TraceValue.{trace_tables_in};
    ghost use Rattle.sms_world.specs.Trusted.{TrustedValue, IsTrusted};

    ghost Value = { TrustedValue };

    ghost view = { λ w. record {
      watched = w.watched;
      notes = trace_tables_in w.notes;
      doubt = w.doubt;
    } };

    ghost invariant = { λ w.
        AreTraceRows w.notes w.watched.world
        × IsTrusted (record {
          watched = w.watched;
          notes = trace_tables_in w.notes;
          doubt = w.doubt;
        }) };
}

impl TrustedWorld {
    /// A world in which nothing has happened, as `World::new` makes it.
    pub fn new(
        alloc: Global,
        limits: Limits,
        phones: &[Address],
    ) -> Result<TrustedWorld, AllocError>
        requires limits { AreLimits limits }
        requires phones { ArePhones phones.now }
        ensures begins { IfOk result (BeginsTrusted limits phones.now) }
        ensures phones { IfOk result
            (λ w. length w.watched.world.parties.phones ≡ length phones.now) }
    {
        let notes = TraceNotes::new(alloc, phones.len())?;
        let watched = WatchedWorld::new(alloc, limits, phones)?;
        Ok(TrustedWorld {
            alloc,
            watched,
            notes,
            doubt: None,
        })
    }

    /// What happens at an event: as `World::step`. Where there is no memory for what is to be
    /// noted, the event is answered as one for which there is none, and nothing has changed but the
    /// number of events.
    pub fn step(&mut self, event: &Event) -> Result<Outcome, WorldFault>
        ensures steps { Steps (event_of event.now) self.old.watched.world result
            self.new.watched.world }
        ensures goes { GoesOnTrusted (event_of event.now) self.old result self.new }
        ensures phones { length self.new.watched.world.parties.phones
            ≡ length self.old.watched.world.parties.phones }
        ensures packets { PutsMore self.old.watched.world self.new.watched.world }
        ensures kept { OnErr result
            (self.new.watched.world.packets ≡ self.old.watched.world.packets) }
        ensures unmoved { IfNowhere result
            (self.new.watched.world ≡ self.old.watched.world) }
        ensures ticks { IsTick event.now
            → self.new.watched.world.packets ≡ self.old.watched.world.packets }
    {
        traces_tell();
        runs_are_determined();
        let number = self.watched.events().saturating_add(1);
        let brought = brought_by(self.alloc, self.watched.world(), event);
        let now = self.watched.world().clock();
        let doubt = doubt_after(&self.notes, self.doubt, number, now, event, brought);
        let is_honest = doubt.is_none();
        let told = happen(
            &mut self.watched,
            &mut self.notes,
            is_honest,
            event,
            brought,
        );
        self.doubt = doubt;
        told
    }

    /// The world, and whether what has happened in it came in order.
    pub fn watched(&self) -> &WatchedWorld
        ensures { result.now ≡ self.now.watched }
    {
        &self.watched
    }

    /// The world: its packets, its texts and its stores.
    pub fn world(&self) -> &World
        ensures { result.now ≡ self.now.watched.world }
    {
        self.watched.world()
    }

    /// The first event after which `accepted` need not mean accepted, if there is one.
    ///
    /// Events, each with its answer, have led from the first state of some limits and phones to
    /// this world. Where this is none, that run meets at every phone the three conditions, and each
    /// text that the world shows as accepted was: the centre has accepted every segment of it. Else
    /// it does not, and this is its first event that breaks one, with the condition.
    pub fn accepted(&self) -> Option<Doubt>
        ensures comes { IsTrusted self.now }
        ensures told { AcceptedIsTold self.now result }
        ensures means { AcceptedMeansAccepted self.now result }
    {
        claims_hold();
        self.doubt
    }
}

/// The first doubt: this one, if it came before; else one that comes now, as the one of this
/// number, if the event breaks a condition.
fn doubt_after(
    notes: &TraceNotes,
    first: Option<Doubt>,
    number: u64,
    now: u64,
    event: &Event,
    brought: Option<Brought>,
) -> Option<Doubt>
    ensures { result ≡ doubt_after first number
        (ground_at (traces_in notes.now) now (event_of event.now) brought) }
{
    if let Some(doubt) = first {
        return Some(doubt);
    }
    let why = notes.ground_at(now, event, brought)?;
    Some(Doubt { event: number, why })
}

/// What happens at an event: it is noted where it breaks no condition.
fn happen(
    watched: &mut WatchedWorld,
    notes: &mut TraceNotes,
    is_honest: bool,
    event: &Event,
    brought: Option<Brought>,
) -> Result<Outcome, WorldFault>
    requires rows { AreTraceRows notes.old watched.old.world }
    requires brought { IsBroughtBy watched.old.world (event_of event.now) brought }
    ensures steps { Steps (event_of event.now) watched.old.world result watched.new.world }
    ensures goes { GoesOnWatched (event_of event.now) watched.old result watched.new }
    ensures follows { is_honest ≡ true → FollowsTraces (event_of event.now) watched.old.world
        (traces_in notes.old) result watched.new.world (traces_in notes.new) }
    ensures rows { AreTraceRows notes.new watched.new.world }
    ensures phones { length watched.new.world.parties.phones
        ≡ length watched.old.world.parties.phones }
    ensures packets { PutsMore watched.old.world watched.new.world }
    ensures kept { OnErr result (watched.new.world.packets ≡ watched.old.world.packets) }
    ensures unmoved { IfNowhere result (watched.new.world ≡ watched.old.world) }
    ensures ticks { IsTick event.now → watched.new.world.packets ≡ watched.old.world.packets }
{
    if is_honest {
        happen_honestly(watched, notes, event, brought)
    } else {
        watched.step(event)
    }
}

/// An event that breaks no condition happens, and is noted.
fn happen_honestly(
    watched: &mut WatchedWorld,
    notes: &mut TraceNotes,
    event: &Event,
    brought: Option<Brought>,
) -> Result<Outcome, WorldFault>
    requires rows { AreTraceRows notes.old watched.old.world }
    requires brought { IsBroughtBy watched.old.world (event_of event.now) brought }
    ensures steps { Steps (event_of event.now) watched.old.world result watched.new.world }
    ensures goes { GoesOnWatched (event_of event.now) watched.old result watched.new }
    ensures follows { FollowsTraces (event_of event.now) watched.old.world
        (traces_in notes.old) result watched.new.world (traces_in notes.new) }
    ensures rows { AreTraceRows notes.new watched.new.world }
    ensures phones { length watched.new.world.parties.phones
        ≡ length watched.old.world.parties.phones }
    ensures packets { PutsMore watched.old.world watched.new.world }
    ensures kept { OnErr result (watched.new.world.packets ≡ watched.old.world.packets) }
    ensures unmoved { IfNowhere result (watched.new.world ≡ watched.old.world) }
    ensures ticks { IsTick event.now → watched.new.world.packets ≡ watched.old.world.packets }
{
    traces_tell();
    match watched.world().way_of(event) {
        None => watched.step(event),
        Some(way) => happen_at_phone(watched, notes, way, event, brought),
    }
}

/// An event that is for a phone happens, and is noted.
fn happen_at_phone(
    watched: &mut WatchedWorld,
    notes: &mut TraceNotes,
    way: Way,
    event: &Event,
    brought: Option<Brought>,
) -> Result<Outcome, WorldFault>
    requires rows { AreTraceRows notes.old watched.old.world }
    requires brought { IsBroughtBy watched.old.world (event_of event.now) brought }
    requires way { way_at watched.old.world (event_of event.now) ≡ Some way }
    requires within { way.phone < length watched.old.world.parties.phones }
    ensures steps { Steps (event_of event.now) watched.old.world result watched.new.world }
    ensures goes { GoesOnWatched (event_of event.now) watched.old result watched.new }
    ensures follows { FollowsTraces (event_of event.now) watched.old.world
        (traces_in notes.old) result watched.new.world (traces_in notes.new) }
    ensures rows { AreTraceRows notes.new watched.new.world }
    ensures phones { length watched.new.world.parties.phones
        ≡ length watched.old.world.parties.phones }
    ensures packets { PutsMore watched.old.world watched.new.world }
    ensures kept { OnErr result (watched.new.world.packets ≡ watched.old.world.packets) }
    ensures unmoved { IfNowhere result (watched.new.world ≡ watched.old.world) }
    ensures ticks { IsTick event.now → watched.new.world.packets ≡ watched.old.world.packets }
{
    laws_below();
    traces_tell();
    watched.world().comes_of_a_run();
    if notes.make_room(way.phone).is_err() {
        watched.want_memory(way, event);
        return Err(WorldFault::Party(Dropped::Memory));
    }
    let (limits, before) = (watched.world().limits(), watched.world().packet_count());
    let told = watched.step(event)?;
    let put = watched.world().packet_count().saturating_sub(before);
    notes.note(limits.reject, way.phone, event, told, brought, put);
    Ok(told)
}
