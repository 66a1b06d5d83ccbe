//! Whether `accepted` means accepted in what happens: runs in which it does, and runs in which it
//! need not.

mod scripts;
mod sent;
mod walk;

use crate::found::same;
use crate::order::{INJECTED, LOSSY, Then, event_of};
use crate::two::address;
use sms_message::Dropped;
use sms_world::{Doubt, Event, Ground, Limits, TextSegment, TrustedWorld, WorldFault};
use std::alloc::{AllocError, Global};
use std::test::Fail;

/// A world with the phones +1001 and +1002, whose submissions ask for rejection, or not the first.
#[tactic(auto, unfolding(sms_field::specs::Address::Same::same_address))]
pub(crate) fn new_trusted(alloc: Global, reject: bool) -> Result<TrustedWorld, Fail> {
    let mut limits = Limits::new();
    limits.reject = reject;
    let phones = [address(1), address(2)];
    Ok(TrustedWorld::new(alloc, limits, &phones)?)
}

/// Lets an event happen that many times.
fn let_repeat(
    alloc: Global,
    world: &mut TrustedWorld,
    then: Then,
    times: usize,
) -> Result<(), AllocError> {
    for _ in 0..times {
        let event = event_of(alloc, then, world.world().packet_count())?;
        let _ = world.step(&event);
    }
    Ok(())
}

/// Lets each of these events happen that many times.
fn let_happen(
    alloc: Global,
    world: &mut TrustedWorld,
    script: &[(Then, usize)],
) -> Result<(), AllocError> {
    for (then, times) in script {
        let_repeat(alloc, world, *then, *times)?;
    }
    Ok(())
}

/// The first event after which `accepted` need not mean accepted.
fn told(alloc: Global, reject: bool, script: &[(Then, usize)]) -> Result<Option<Doubt>, Fail> {
    let mut world = new_trusted(alloc, reject)?;
    let happened = let_happen(alloc, &mut world, script);
    let doubt = world.accepted();
    drop(world);
    happened?;
    Ok(doubt)
}

/// The 257th text of one segment has the reference of the first, which is held.
static REFERENCE: [(Then, usize); 5] = [
    (Then::Short(0), 257),
    (Then::Carry(1), 1),
    (Then::Carry(3), 1),
    (Then::Timeout(0), 1020),
    (Then::Last, 1),
];

/// The answer to the first putting out comes 1,792 puttings out later.
static ANSWER: [(Then, usize); 4] = [
    (Then::Short(0), 449),
    (Then::Carry(1), 1),
    (Then::Timeout(0), 1792),
    (Then::Carry(3), 1),
];

/// It comes 1,791 puttings out later.
static DROPPED: [(Then, usize); 4] = [
    (Then::Short(0), 449),
    (Then::Carry(1), 1),
    (Then::Timeout(0), 1791),
    (Then::Carry(3), 1),
];

#[test]
fn tells_a_reference_that_is_used_again(rt: HostRuntime) -> Result<(), Fail> {
    let doubt = told(rt.alloc(), true, &REFERENCE)?;
    let segment = TextSegment {
        phone: 0,
        text: 257,
        segment: 1,
    };
    let wanted = Doubt {
        event: 1280,
        why: Ground::ReferenceUsedAgain { segment },
    };
    same(&rt, &"reference", &doubt, &Some(wanted));
    Ok(())
}

#[test]
fn tells_that_no_rejection_is_asked_for(rt: HostRuntime) -> Result<(), Fail> {
    let doubt = told(rt.alloc(), false, &REFERENCE)?;
    same(&rt, &"no rejection", &doubt, &None);
    Ok(())
}

#[test]
fn tells_an_answer_to_an_earlier_submission(rt: HostRuntime) -> Result<(), Fail> {
    let doubt = told(rt.alloc(), false, &ANSWER)?;
    let wanted = Doubt {
        event: 2243,
        why: Ground::AnswerToAnother { phone: 0 },
    };
    same(&rt, &"answer", &doubt, &Some(wanted));
    Ok(())
}

#[test]
fn tells_that_a_late_answer_is_dropped(rt: HostRuntime) -> Result<(), Fail> {
    let doubt = told(rt.alloc(), false, &DROPPED)?;
    same(&rt, &"dropped", &doubt, &None);
    Ok(())
}

/// An event, which is made once more where that wants memory.
fn event_at_last(alloc: Global, then: Then, packets: usize) -> Result<Event, AllocError> {
    match event_of(alloc, then, packets) {
        Ok(event) => Ok(event),
        Err(_) => event_of(alloc, then, packets),
    }
}

/// Lets a script happen, an event once more where it wants memory.
fn let_happen_at_last(
    alloc: Global,
    world: &mut TrustedWorld,
    script: &[Then],
) -> Result<(), AllocError> {
    for then in script {
        let event = event_at_last(alloc, *then, world.world().packet_count())?;
        if world.step(&event) == Err(WorldFault::Party(Dropped::Memory)) {
            let _ = world.step(&event);
        }
    }
    Ok(())
}

#[test]
fn tells_that_all_is_meant_after_a_refused_growth(rt: HostRuntime) -> Result<(), Fail> {
    let mut world = new_trusted(rt.alloc(), false)?;
    let happened = let_happen_at_last(rt.alloc(), &mut world, &LOSSY);
    let told = (world.accepted(), world.watched().order());
    drop(world);
    happened?;
    same(&rt, &"lossy", &told, &(None, None));
    Ok(())
}

#[test]
fn tells_an_injection_after_a_refused_growth(rt: HostRuntime) -> Result<(), Fail> {
    let mut world = new_trusted(rt.alloc(), false)?;
    let happened = let_happen_at_last(rt.alloc(), &mut world, &INJECTED);
    let doubt = world.accepted();
    drop(world);
    happened?;
    let wanted = Doubt {
        event: 2,
        why: Ground::Injected,
    };
    same(&rt, &"injected", &doubt, &Some(wanted));
    Ok(())
}
