//! Octets of the worked examples, cut at every length and with every octet replaced by every other,
//! come to a world of two phones in which a text has just been stored. Those that no CP message
//! reads change nothing.

mod rows;

use crate::found::holds;
use crate::two::{Two, all_answer, answers, happens, has_stored, is_stored, new_two};
use crate::way::{ANSWERS, SENT, are_put_out, first_phone_stands, were_put_out, whole_way};
use rows::{Hostile, TRANSFERS, UNITS};
use sms_message::{Dropped, Outcome};
use sms_party::Status;
use sms_relay::unwrap_view;
use sms_world::{Event, Octets, WorldFault};
use std::alloc::{AllocError, Global};
use std::process::Abort;
use std::test::Fail;

/// Whether the stores are as after the fourth event.
fn stores_stand(two: &Two) -> bool {
    two.world.store(0).is_empty() && is_stored(two.world.store(1), "hi")
}

/// Whether the text stands as after the fourth event, and no other was typed.
fn texts_stand(two: &Two) -> bool {
    two.world.status(0, 1) == Some(Status::Waiting)
        && two.world.status(0, 2).is_none()
        && two.world.status(1, 1).is_none()
}

/// Whether all that can be seen of a world is as after the fourth event.
fn stands(two: &Two) -> bool {
    two.world.packet_count() == 6
        && are_put_out(&two.world, &SENT[..6])
        && stores_stand(two)
        && texts_stand(two)
}

/// Octets come from the first phone, or to the second, with another octet at a place.
fn coming_with(
    alloc: Global,
    up: bool,
    octets: &[u8],
    place: usize,
    octet: u8,
) -> Result<Event, AllocError> {
    let mut changed = octets.to_vec(alloc)?;
    if let Some(old) = changed.get_mut(place) {
        *old = octet;
    }
    Ok(Event::Inject {
        up,
        phone: usize::from(!up),
        octets: Octets::new(changed),
    })
}

/// Whether no CP message reads the octets that come.
fn is_unread(event: &Event) -> bool {
    match event {
        Event::Inject { octets, .. } => unwrap_view(octets.as_slice()).is_err(),
        _ => false,
    }
}

/// Octets are told to be no CP message.
fn is_not_cp(rt: &impl Abort, two: &mut Two, event: &Event) {
    let not_cp = Err(WorldFault::Party(Dropped::NotCp));
    holds(rt, event, happens(two, event) == not_cp);
}

/// Octets come at a side with another octet at a place, where no CP message reads them.
fn come_to(
    rt: &impl Abort,
    alloc: Global,
    two: &mut Two,
    up: bool,
    octets: &[u8],
    place: usize,
    octet: u8,
) -> Result<(), AllocError> {
    let event = coming_with(alloc, up, octets, place, octet)?;
    if is_unread(&event) {
        is_not_cp(rt, two, &event);
    }
    drop(event);
    Ok(())
}

/// Octets come at both sides as they are.
fn come_cut(rt: &impl Abort, alloc: Global, two: &mut Two, front: &[u8]) -> Result<(), AllocError> {
    come_to(rt, alloc, two, true, front, front.len(), 0)?;
    come_to(rt, alloc, two, false, front, front.len(), 0)
}

/// Octets come at both sides with each octet at a place.
fn come_with_each(
    rt: &impl Abort,
    alloc: Global,
    two: &mut Two,
    octets: &[u8],
    place: usize,
) -> Result<(), AllocError> {
    for octet in 0..=255u8 {
        come_to(rt, alloc, two, true, octets, place, octet)?;
        come_to(rt, alloc, two, false, octets, place, octet)?;
    }
    Ok(())
}

/// Octets come at both sides, cut at each place and with each octet at each place, and all that can
/// be seen stays.
fn come_damaged(
    rt: &impl Abort,
    alloc: Global,
    two: &mut Two,
    octets: &[u8],
) -> Result<(), AllocError> {
    for place in 0..octets.len() {
        come_cut(rt, alloc, two, &octets[..place])?;
        come_with_each(rt, alloc, two, octets, place)?;
        holds(rt, &(place, octets), stands(two));
    }
    Ok(())
}

/// The octets of each row come damaged.
fn all_come_damaged(
    rt: &impl Abort,
    alloc: Global,
    two: &mut Two,
    rows: &[Hostile],
) -> Result<(), AllocError> {
    for row in rows {
        come_damaged(rt, alloc, two, row.octets)?;
    }
    Ok(())
}

/// The octets of all rows come damaged.
fn all_rows_come(rt: &impl Abort, alloc: Global, two: &mut Two) -> Result<(), AllocError> {
    all_come_damaged(rt, alloc, two, UNITS.as_slice())?;
    all_come_damaged(rt, alloc, two, TRANSFERS.as_slice())?;
    all_come_damaged(rt, alloc, two, rows::ANSWERS.as_slice())
}

/// The text goes as far as its store.
fn goes_to_the_store(rt: &impl Abort, alloc: Global, two: &mut Two) -> Result<(), AllocError> {
    let events = whole_way(alloc)?;
    all_answer(rt, two, &events, &ANSWERS[..4]);
    drop(events);
    holds(rt, &"four events", stands(two));
    Ok(())
}

/// The text goes the rest of its way.
fn goes_on(rt: &impl Abort, two: &mut Two) {
    answers(rt, two, &Event::Carry(6), Ok(Outcome::Delivered));
    answers(rt, two, &Event::Carry(3), Ok(Outcome::Accepted { text: 1 }));
    were_put_out(rt, &two.world, &SENT);
    first_phone_stands(rt, two);
    has_stored(rt, two, "hi");
}

/// Damaged octets come, and the text goes the rest of its way as without them.
fn unread_octets_come(rt: &impl Abort, alloc: Global, two: &mut Two) -> Result<(), AllocError> {
    goes_to_the_store(rt, alloc, two)?;
    all_rows_come(rt, alloc, two)?;
    goes_on(rt, two);
    Ok(())
}

#[test]
fn unread_octets_change_nothing(rt: HostRuntime) -> Result<(), Fail> {
    let mut two = new_two(rt.alloc())?;
    let come = unread_octets_come(&rt, rt.alloc(), &mut two);
    drop(two);
    Ok(come?)
}
