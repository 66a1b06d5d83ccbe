//! Whether what happens comes in order: scripts that are, and scripts that are not.

mod walk;

ghost use Rattle.sms_script.specs.declared.meaning.statement.Limit.TheVariants as limits;
ghost use Rattle.sms_script.specs.Script.Limits.{IsIn};

use crate::found::same;
use crate::two::{address, coming};
use sms_message::Dropped;
use sms_script::Limit;
use sms_world::{Breach, Disorder, Event, Limits, Text, TextSegment, WatchedWorld, WorldFault};
use std::alloc::{AllocError, Global};
use std::test::Fail;

/// What happens.
#[derive(Clone, Copy, Debug)]
pub(crate) enum Then {
    /// A text of one segment is typed at this phone, to the second one.
    Short(usize),
    /// A text of two segments.
    Long(usize),
    Carry(u64),
    /// The packet that was put out last is carried.
    Last,
    Timeout(usize),
    Push(usize),
    Tick(u64),
    Inject,
}

/// 161 letters.
const LONG: &str =
    "aaaaaaaaaaaaaaaaaaaaaaaaaaaaaaaaaaaaaaaaaaaaaaaaaaaaaaaaaaaaaaaaaaaaaaaaaaaaaaaaaaaaaaaaaaaaaaaaaaaaaaaaaaaaaaaaaaaaaaaaaaaaaaaaaaaaaaaaaaaaaaaaaaaaaaaaaaaaaaaaa";

/// Two days, in seconds.
const DAYS: u64 = 172_800;

/// Someone types a text at a phone, to the second one.
pub(crate) fn typing(alloc: Global, phone: usize, text: &str) -> Result<Event, AllocError> {
    Ok(Event::Compose {
        phone,
        target: address(2),
        text: Text::copy(alloc, text)?,
    })
}

/// The event, in a world with so many packets.
pub(crate) fn event_of(alloc: Global, then: Then, packets: usize) -> Result<Event, AllocError> {
    match then {
        Then::Short(phone) => typing(alloc, phone, "hi"),
        Then::Long(phone) => typing(alloc, phone, LONG),
        Then::Carry(number) => Ok(Event::Carry(number)),
        Then::Last => Ok(Event::Carry(packets as u64)),
        Then::Timeout(phone) => Ok(Event::Timeout(phone)),
        Then::Push(phone) => Ok(Event::Push(phone)),
        Then::Tick(seconds) => Ok(Event::Tick(seconds)),
        Then::Inject => coming(alloc, 1, &[0]),
    }
}

/// Lets a script happen in a watched world.
fn let_happen(alloc: Global, world: &mut WatchedWorld, script: &[Then]) -> Result<(), AllocError> {
    for then in script {
        let event = event_of(alloc, *then, world.world().packet_count())?;
        let _ = world.step(&event);
    }
    Ok(())
}

/// A world with the phones +1001 and +1002, that remember as many texts.
#[tactic(auto, unfolding(sms_field::specs::Address::Same::same_address))]
pub(crate) fn new_watched(
    alloc: Global,
    remembered: u64,
    reject: bool,
) -> Result<WatchedWorld, Fail>
    requires { IsIn limits.Remembered remembered }
{
    let mut limits = Limits::new();
    limits.set(Limit::Remembered, remembered);
    limits.reject = reject;
    let phones = [address(1), address(2)];
    Ok(WatchedWorld::new(alloc, limits, &phones)?)
}

/// The first event of a script that comes out of order.
fn told(alloc: Global, remembered: u64, script: &[Then]) -> Result<Option<Breach>, Fail>
    requires { IsIn limits.Remembered remembered }
{
    let mut world = new_watched(alloc, remembered, false)?;
    let happened = let_happen(alloc, &mut world, script);
    let order = world.order();
    drop(world);
    happened?;
    Ok(order)
}

/// A text of two segments comes late, twice and out of order.
pub(crate) static LOSSY: [Then; 16] = [
    Then::Long(0),
    Then::Carry(1),
    Then::Carry(3),
    Then::Carry(5),
    Then::Push(1),
    Then::Push(1),
    Then::Carry(9),
    Then::Carry(8),
    Then::Carry(8),
    Then::Carry(9),
    Then::Carry(11),
    Then::Carry(13),
    Then::Push(1),
    Then::Carry(19),
    Then::Carry(21),
    Then::Carry(7),
];

/// A repeat that asks for rejection is carried in time, and again after the accepted one has ended.
static AFTER_THE_END: [Then; 6] = [
    Then::Short(0),
    Then::Carry(1),
    Then::Timeout(0),
    Then::Carry(4),
    Then::Tick(DAYS),
    Then::Carry(4),
];

/// The first putting out is carried twice.
static NO_REJECTION: [Then; 3] = [Then::Short(0), Then::Carry(1), Then::Carry(1)];

/// Octets come that nobody put out.
pub(crate) static INJECTED: [Then; 3] = [Then::Tick(1), Then::Inject, Then::Inject];

/// Three texts come, each whole, and the first one's segment comes again.
static LATE: [Then; 19] = [
    Then::Short(0),
    Then::Carry(1),
    Then::Push(1),
    Then::Carry(4),
    Then::Carry(6),
    Then::Carry(3),
    Then::Short(0),
    Then::Carry(9),
    Then::Push(1),
    Then::Carry(12),
    Then::Carry(14),
    Then::Carry(11),
    Then::Short(0),
    Then::Carry(17),
    Then::Push(1),
    Then::Carry(20),
    Then::Carry(22),
    Then::Carry(19),
    Then::Carry(4),
];

/// A text of two segments is typed and accepted.
static ACCEPTED: [Then; 5] = [
    Then::Long(0),
    Then::Last,
    Then::Last,
    Then::Last,
    Then::Last,
];

/// 257 texts of two segments are accepted. Of the first one the first segment comes to its phone,
/// and then, the others being lost, of the last one.
fn key_comes_again(alloc: Global, world: &mut WatchedWorld) -> Result<(), AllocError> {
    for _ in 0..257u16 {
        let_happen(alloc, world, &ACCEPTED)?;
    }
    let_happen(alloc, world, &[Then::Push(1), Then::Last])?;
    for _ in 0..512u16 {
        let_happen(alloc, world, &[Then::Push(1)])?;
    }
    let_happen(alloc, world, &[Then::Last])
}

/// A text of two segments comes whole, and one of one segment, so that the first is forgotten where
/// one text is remembered. Then the first segment of a text comes that has the key of the first, 256
/// long texts later, and at last that of the first once more.
fn key_and_late_segment_come(alloc: Global, world: &mut WatchedWorld) -> Result<(), AllocError> {
    let_happen(alloc, world, &ACCEPTED)?;
    let_happen(alloc, world, &[Then::Short(0), Then::Last, Then::Last])?;
    for _ in 0..256u16 {
        let_happen(alloc, world, &ACCEPTED)?;
    }
    let first = world.world().packet_count() as u64;
    for _ in 0..3u8 {
        let_happen(alloc, world, &[Then::Push(1), Then::Last])?;
    }
    for _ in 0..511u16 {
        let_happen(alloc, world, &[Then::Push(1)])?;
    }
    let again = Then::Carry(first.saturating_add(1));
    let_happen(alloc, world, &[Then::Last, again])
}

/// What is told of a text of the first phone.
pub(crate) fn breach(event: u64, disorder: Disorder, text: usize) -> Option<Breach> {
    Some(Breach {
        event,
        disorder,
        segment: Some(TextSegment {
            phone: 0,
            text,
            segment: 1,
        }),
    })
}

#[test]
fn tells_that_a_lossy_run_is_orderly(rt: HostRuntime) -> Result<(), Fail> {
    let order = told(rt.alloc(), 32, &LOSSY)?;
    same(&rt, &"lossy", &order, &None);
    Ok(())
}

#[test]
fn tells_a_repeat_after_the_end(rt: HostRuntime) -> Result<(), Fail> {
    let order = told(rt.alloc(), 32, &AFTER_THE_END)?;
    let wanted = breach(6, Disorder::RepeatAfterTheEnd, 1);
    same(&rt, &"after the end", &order, &wanted);
    Ok(())
}

#[test]
fn tells_a_repeat_without_rejection(rt: HostRuntime) -> Result<(), Fail> {
    let order = told(rt.alloc(), 32, &NO_REJECTION)?;
    let wanted = breach(3, Disorder::RepeatWithoutRejection, 1);
    same(&rt, &"without rejection", &order, &wanted);
    Ok(())
}

#[test]
fn tells_an_injection(rt: HostRuntime) -> Result<(), Fail> {
    let order = told(rt.alloc(), 32, &INJECTED)?;
    let wanted = Breach {
        event: 2,
        disorder: Disorder::Injected,
        segment: None,
    };
    same(&rt, &"injected", &order, &Some(wanted));
    Ok(())
}

#[test]
fn tells_a_late_segment(rt: HostRuntime) -> Result<(), Fail> {
    let order = told(rt.alloc(), 2, &LATE)?;
    let wanted = breach(19, Disorder::LateSegmentForgotten, 1);
    same(&rt, &"late", &order, &wanted);
    Ok(())
}

#[test]
fn tells_that_a_late_segment_is_remembered(rt: HostRuntime) -> Result<(), Fail> {
    let order = told(rt.alloc(), 3, &LATE)?;
    same(&rt, &"remembered", &order, &None);
    Ok(())
}

#[test]
fn tells_a_key_that_is_used_again(rt: HostRuntime) -> Result<(), Fail> {
    let mut world = new_watched(rt.alloc(), 32, false)?;
    let come = key_comes_again(rt.alloc(), &mut world);
    let order = world.order();
    drop(world);
    come?;
    let wanted = breach(1800, Disorder::KeyUsedAgain, 257);
    same(&rt, &"key", &order, &wanted);
    Ok(())
}

#[test]
fn tells_the_key_of_a_late_segment(rt: HostRuntime) -> Result<(), Fail> {
    let mut world = new_watched(rt.alloc(), 1, false)?;
    let come = key_and_late_segment_come(rt.alloc(), &mut world);
    let order = world.order();
    drop(world);
    come?;
    let wanted = breach(1807, Disorder::KeyUsedAgain, 1);
    same(&rt, &"key and late segment", &order, &wanted);
    Ok(())
}

/// Lets a script happen, an event once more where it wants memory, and answers how many events
/// there were before the last one first came.
fn let_happen_at_last(
    alloc: Global,
    world: &mut WatchedWorld,
    script: &[Then],
) -> Result<u64, AllocError> {
    let (mut events, mut before) = (0u64, 0u64);
    for then in script {
        let event = event_of(alloc, *then, world.world().packet_count())?;
        before = events;
        events = events.saturating_add(1);
        if world.step(&event) == Err(WorldFault::Party(Dropped::Memory)) {
            events = events.saturating_add(1);
            let _ = world.step(&event);
        }
    }
    Ok(before)
}

#[test]
fn tells_a_repeat_after_a_refused_growth(rt: HostRuntime) -> Result<(), Fail> {
    let mut world = new_watched(rt.alloc(), 32, false)?;
    let before = let_happen_at_last(rt.alloc(), &mut world, &AFTER_THE_END);
    let order = world.order();
    drop(world);
    let wanted = breach(before?.saturating_add(1), Disorder::RepeatAfterTheEnd, 1);
    same(&rt, &"at last", &order, &wanted);
    Ok(())
}
