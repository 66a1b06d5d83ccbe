//! A world of two phones, and what happens in it.

ghost use Rattle.std.specs.Prelude.{◌≡◌, ◌<◌, ◌≤◌, [], ◌∷◌, length, IfOk};
ghost use Rattle.sms_field.specs.declared.symbols.Symbols.TheVariants as symbols;
ghost use Rattle.sms_script.specs.declared.meaning.statement.Limit.TheVariants as limits;
ghost use Rattle.sms_script.specs.Script.Limits.{IsIn};

use crate::found::holds;
use sms_field::{Address, Digits, Symbols};
use sms_message::{Dropped, Outcome};
use sms_script::Limit;
use sms_world::{Entry, Event, Limits, Octets, Text, World, WorldFault};
use std::alloc::{AllocError, Global};
use std::process::Abort;
use std::test::Fail;

/// The address +100 and this digit.
pub fn address(last: u8) -> Address
    requires { last < 10 }
    ensures { let number = symbols.Digits (1 ∷ 0 ∷ 0 ∷ last ∷ []) in
        result ≡ record { kind = 1; plan = 1; symbols = number } }
{
    Address {
        type_of_number: 1,
        plan: 1,
        symbols: Symbols::Digits(Digits::new(&[1, 0, 0, last])),
    }
}

/// A world of two phones, or of more.
#[derive(Drop)]
pub struct Two {
    pub world: World,
    ghost two: { 2 ≤ length world.parties.phones },
}

/// A world with the phones +1001 and +1002, each of which has room for that many texts.
#[tactic(auto, unfolding(sms_field::specs::Address::Same::same_address))]
pub fn two_with_room(alloc: Global, store: u64) -> Result<Two, Fail>
    requires { IsIn limits.Store store }
{
    let mut limits = Limits::new();
    limits.set(Limit::Store, store);
    let phones = [address(1), address(2)];
    let world = World::new(alloc, limits, &phones)?;
    Ok(Two { world })
}

/// A world with the phones +1001 and +1002.
pub fn new_two(alloc: Global) -> Result<Two, Fail> {
    two_with_room(alloc, 500)
}

/// A world with the phones +1001, +1002 and +1003, at each of which one set may be open.
#[tactic(auto, unfolding(sms_field::specs::Address::Same::same_address))]
pub fn three_with_one_open(alloc: Global) -> Result<Two, Fail> {
    let mut limits = Limits::new();
    limits.set(Limit::Open, 1);
    let phones = [address(1), address(2), address(3)];
    let world = World::new(alloc, limits, &phones)?;
    Ok(Two { world })
}

/// A world with the phones +1001 and +1002, by itself.
pub fn new_world(alloc: Global) -> Result<World, Fail> {
    let two = new_two(alloc)?;
    Ok(two.world)
}

/// Someone types a text at a phone, to the second one.
pub fn typing_at(alloc: Global, phone: usize, text: &str) -> Result<Event, AllocError> {
    Ok(Event::Compose {
        phone,
        target: address(2),
        text: Text::copy(alloc, text)?,
    })
}

/// Someone types a text at the first phone, to the second one.
pub fn typing(alloc: Global, text: &str) -> Result<Event, AllocError> {
    typing_at(alloc, 0, text)
}

/// Octets come to a phone that nobody put out.
pub fn coming(alloc: Global, phone: usize, octets: &[u8]) -> Result<Event, AllocError> {
    Ok(Event::Inject {
        up: false,
        phone,
        octets: Octets::new(octets.to_vec(alloc)?),
    })
}

/// Whether a store has this text alone.
pub fn is_stored(store: &[Entry], text: &str) -> bool {
    match store {
        [entry] => entry.text.as_str() == text,
        _ => false,
    }
}

/// An event, and its answer.
pub fn happens(two: &mut Two, event: &Event) -> Result<Outcome, WorldFault> {
    two.world.step(event)
}

/// An event is answered so.
pub fn answers(rt: &impl Abort, two: &mut Two, event: &Event, wanted: Result<Outcome, WorldFault>) {
    holds(rt, event, happens(two, event) == wanted);
}

/// Events are answered so, one after another.
pub fn all_answer(rt: &impl Abort, two: &mut Two, events: &[Event], wanted: &[Outcome]) {
    for (event, outcome) in events.iter().zip(wanted) {
        answers(rt, two, event, Ok(*outcome));
    }
}

/// An event, and once more where it wants memory: then nothing has come of it before.
fn at_last(two: &mut Two, event: &Event) -> Result<Outcome, WorldFault> {
    let before = two.world.packet_count();
    let first = happens(two, event);
    if first == Err(WorldFault::Party(Dropped::Memory)) && two.world.packet_count() == before {
        happens(two, event)
    } else {
        first
    }
}

/// An event is answered so, or at the second time where it wants memory.
pub fn answers_at_last(
    rt: &impl Abort,
    two: &mut Two,
    event: &Event,
    wanted: Result<Outcome, WorldFault>,
) {
    let answer = at_last(two, event);
    holds(rt, event, answer == wanted);
}

/// Events are answered so, one after another, or at the second time where one wants memory.
pub fn all_answer_at_last(rt: &impl Abort, two: &mut Two, events: &[Event], wanted: &[Outcome]) {
    for (event, outcome) in events.iter().zip(wanted) {
        answers_at_last(rt, two, event, Ok(*outcome));
    }
}

/// Whether a store has these two texts, in this order.
pub fn are_stored(store: &[Entry], first: &str, second: &str) -> bool {
    match store {
        [one, other] => one.text.as_str() == first && other.text.as_str() == second,
        _ => false,
    }
}

/// The second phone has stored this text alone.
pub fn has_stored(rt: &impl Abort, two: &Two, text: &str) {
    holds(rt, &text, is_stored(two.world.store(1), text));
}
