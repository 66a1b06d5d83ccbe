//! Octets that are cut, or of which one is changed: a value and its view agree about them.

mod sent;

use crate::found::is;
use crate::written::is_written;
use sent::{ANSWERS, DELIVERIES, SUBMISSIONS, Sent, UNITS};
use sms_field::{Address, AddressView, Fault, Reason, Refusal, RpAddress, RpAddressView};
use sms_relay::{
    CpBodyView, CpMessage, CpView, Inner, InnerView, RelayFault, RpView, unwrap, unwrap_view,
};
use sms_tpdu::{
    DeliverAckView, DeliverErrorView, DeliverView, HeaderView, SubmitAckView, SubmitErrorView,
    SubmitView, Unit, View, see,
};
use std::alloc::{AllocError, Global};
use std::process::Abort;
use std::test::Fail;

/// Whether two refusals of octets are one, and a short one is at their end.
fn is_one<W: Reason + PartialEq>(octets: &[u8], refusal: Refusal<W>, fault: Fault<W>) -> bool {
    let Refusal::At { place, why } = refusal else {
        return false;
    };
    let is_placed = why != W::short() || place == octets.len();
    is_placed && place == fault.place && why == fault.why
}

/// Whether two units are written alike.
fn are_alike<U: Unit>(alloc: Global, one: &U, other: &U) -> Result<bool, AllocError> {
    let one = one.write(alloc)?;
    is_written(alloc, other, &one)
}

/// Whether octets are refused as their view is.
fn is_refused<T: Drop, S: Drop, W: Reason + PartialEq>(
    octets: &[u8],
    read: Result<(T, S), Refusal<W>>,
    fault: Fault<W>,
) -> bool {
    match read.err() {
        Some(refusal) => is_one(octets, refusal, fault),
        None => false,
    }
}

/// Whether as many octets are read as a unit that is written as this one.
fn is_read<U: Unit>(
    alloc: Global,
    octets: &[u8],
    value: &U,
    seen: usize,
) -> Result<bool, AllocError> {
    match U::read(alloc, octets) {
        Ok((unit, used)) => Ok(are_alike(alloc, &unit, value)? && used == seen),
        Err(_) => Ok(false),
    }
}

/// Whether a unit and its view are read alike.
fn agree<'a, W: Reason + PartialEq, U: Unit<Why = W>, V: View<'a, Owned = U>>(
    alloc: Global,
    octets: &'a [u8],
) -> Result<bool, AllocError> {
    match see::<V>(octets) {
        Ok((view, seen)) => is_read(alloc, octets, &view.to_value(alloc)?, seen),
        Err(fault) => Ok(is_refused(octets, U::read(alloc, octets), fault)),
    }
}

/// Whether as many octets are read as this address.
fn is_address(alloc: Global, octets: &[u8], value: &Address, seen: usize) -> bool {
    match Address::read(alloc, octets) {
        Ok((address, used)) => used == seen && address == *value,
        Err(_) => false,
    }
}

/// Whether an address and its view are read alike.
fn addresses_agree(alloc: Global, octets: &[u8]) -> Result<bool, AllocError> {
    match AddressView::read(octets) {
        Ok((view, seen)) => Ok(is_address(alloc, octets, &view.to_value(alloc)?, seen)),
        Err(fault) => Ok(is_refused(octets, Address::read(alloc, octets), fault)),
    }
}

/// Whether two addresses of the relay layer are one.
fn are_one(one: Option<&RpAddress>, other: Option<&RpAddress>) -> bool {
    match (one, other) {
        (Some(one), Some(other)) => one == other,
        (None, None) => true,
        _ => false,
    }
}

/// Whether as many octets are read as this address of the relay layer.
fn is_relay_address(alloc: Global, octets: &[u8], value: Option<&RpAddress>, seen: usize) -> bool {
    match RpAddress::read(alloc, octets) {
        Ok((address, used)) => used == seen && are_one(address.as_ref(), value),
        Err(_) => false,
    }
}

/// Whether as many octets are read as what this view lends.
fn is_lent(
    alloc: Global,
    octets: &[u8],
    view: Option<RpAddressView>,
    seen: usize,
) -> Result<bool, AllocError> {
    let lent = RpAddressView::some_to_value(alloc, &view)?;
    Ok(is_relay_address(alloc, octets, lent.as_ref(), seen))
}

/// Whether an address of the relay layer and its view are read alike.
fn relay_addresses_agree(alloc: Global, octets: &[u8]) -> Result<bool, AllocError> {
    match RpAddressView::read(octets) {
        Ok((view, seen)) => is_lent(alloc, octets, view, seen),
        Err(fault) => Ok(is_refused(octets, RpAddress::read(alloc, octets), fault)),
    }
}

/// Whether two reasons are one, and octets that are short are so at their end.
fn is_fault(octets: &[u8], one: (usize, RelayFault), other: (usize, RelayFault)) -> bool {
    let refusal = Refusal::At {
        place: one.0,
        why: one.1,
    };
    let fault = Fault {
        place: other.0,
        why: other.1,
    };
    is_one(octets, refusal, fault)
}

/// Whether what is found in a packet is the same, and octets that are short are so at their end.
fn is_found(alloc: Global, octets: &[u8], inner: &Inner, seen: &Inner) -> Result<bool, AllocError> {
    match (inner, seen) {
        (Inner::Empty, Inner::Empty) => Ok(true),
        (Inner::Relay(one), Inner::Relay(other)) => are_alike(alloc, one, other),
        (
            Inner::Bad { place, why },
            Inner::Bad {
                place: at,
                why: reason,
            },
        ) => Ok(is_fault(octets, (*place, *why), (*at, *reason))),
        _ => Ok(false),
    }
}

/// The user data of a CP message.
fn carried<'a>(message: &CpView<'a>) -> &'a [u8] {
    match &message.body {
        CpBodyView::Transfer(user) => user.as_slice(),
        _ => &[],
    }
}

/// Whether a CP message is written as its view.
fn is_message(alloc: Global, message: &CpMessage, view: &CpView) -> Result<bool, AllocError> {
    let lent = view.to_value(alloc)?;
    are_alike(alloc, message, &lent)
}

/// Whether what is found in a packet is what is seen in it.
fn is_seen(
    alloc: Global,
    octets: &[u8],
    inner: &Inner,
    seen: &InnerView,
) -> Result<bool, AllocError> {
    let seen = seen.to_value(alloc)?;
    let same = is_found(alloc, octets, inner, &seen);
    drop(seen);
    same
}

/// Whether a CP message and what is found in it are as they are seen.
fn are_seen(
    alloc: Global,
    found: (&CpMessage, &Inner),
    seen: (&CpView, &InnerView),
) -> Result<bool, AllocError> {
    Ok(is_message(alloc, found.0, seen.0)? && is_seen(alloc, carried(seen.0), found.1, seen.1)?)
}

/// Whether a packet is unwrapped as it is seen.
fn is_packet(
    alloc: Global,
    octets: &[u8],
    view: &CpView,
    seen: &InnerView,
) -> Result<bool, AllocError> {
    match unwrap(alloc, octets) {
        Ok((message, inner)) => {
            let same = are_seen(alloc, (&message, &inner), (view, seen));
            drop(message);
            drop(inner);
            same
        }
        Err(_) => Ok(false),
    }
}

/// Whether a packet and its view are unwrapped alike.
fn packets_agree(alloc: Global, octets: &[u8]) -> Result<bool, AllocError> {
    match unwrap_view(octets) {
        Ok((view, seen)) => is_packet(alloc, octets, &view, &seen),
        Err(fault) => Ok(is_refused(octets, unwrap(alloc, octets), fault)),
    }
}

/// Whether each reader of a text on its way, and of a header, agrees with its view.
fn texts_agree(alloc: Global, octets: &[u8]) -> Result<bool, AllocError> {
    Ok(
        agree::<_, _, DeliverView>(alloc, octets)?
            && agree::<_, _, SubmitView>(alloc, octets)?
            && agree::<_, _, HeaderView>(alloc, octets)?,
    )
}

/// Whether each reader of a report agrees with its view.
fn reports_agree(alloc: Global, octets: &[u8]) -> Result<bool, AllocError> {
    Ok(
        agree::<_, _, SubmitAckView>(alloc, octets)?
            && agree::<_, _, SubmitErrorView>(alloc, octets)?
            && agree::<_, _, DeliverAckView>(alloc, octets)?
            && agree::<_, _, DeliverErrorView>(alloc, octets)?,
    )
}

/// Whether each reader agrees with its view.
fn all_agree(alloc: Global, octets: &[u8]) -> Result<bool, AllocError> {
    Ok(
        texts_agree(alloc, octets)?
            && reports_agree(alloc, octets)?
            && agree::<_, _, RpView>(alloc, octets)?
            && agree::<_, _, CpView>(alloc, octets)?
            && packets_agree(alloc, octets)?
            && addresses_agree(alloc, octets)?
            && relay_addresses_agree(alloc, octets)?,
    )
}

/// Octets of which one is another.
fn changed(alloc: Global, octets: &[u8], place: usize, octet: u8) -> Result<Vec<u8>, AllocError> {
    let mut changed = Vec::from_slice(alloc, octets)?;
    if let Some(old) = changed.get_mut(place) {
        *old = octet;
    }
    Ok(changed)
}

/// Whether all agree where another octet stands at a place.
fn agree_with(alloc: Global, octets: &[u8], place: usize, octet: u8) -> Result<bool, AllocError> {
    let changed = changed(alloc, octets, place, octet)?;
    all_agree(alloc, &changed)
}

/// All agree, whatever octet stands at a place.
fn agree_at(
    rt: &impl Abort,
    alloc: Global,
    octets: &[u8],
    says: &str,
    place: usize,
) -> Result<(), AllocError> {
    for octet in 0..=255u8 {
        let told = agree_with(alloc, octets, place, octet)?;
        is(rt, (says, place, octet), told, true);
    }
    Ok(())
}

/// Tries each length, and each octet at each place.
fn try_each_place(
    rt: &impl Abort,
    alloc: Global,
    octets: &[u8],
    says: &str,
) -> Result<(), AllocError> {
    for place in 0..octets.len() {
        is(
            rt,
            (says, "cut", place),
            all_agree(alloc, &octets[..place])?,
            true,
        );
        agree_at(rt, alloc, octets, says, place)?;
    }
    Ok(())
}

/// The octets of a row from a start on.
fn rest_of(row: &Sent, start: usize) -> Result<&'static [u8], Fail> {
    match row.octets.get(start..) {
        Some(rest) => Ok(rest),
        None => Err("a start".into()),
    }
}

/// Tries what begins at each start of a row.
fn try_each_start(rt: &impl Abort, alloc: Global, row: &Sent) -> Result<(), Fail> {
    for start in row.starts {
        try_each_place(rt, alloc, rest_of(row, *start)?, row.says)?;
    }
    Ok(())
}

/// Tries each row.
fn try_each_row(rt: &impl Abort, alloc: Global, rows: &[Sent]) -> Result<(), Fail> {
    for row in rows {
        try_each_start(rt, alloc, row)?;
    }
    Ok(())
}

#[test]
fn views_of_damaged_units(rt: HostRuntime) -> Result<(), Fail> {
    try_each_row(&rt, rt.alloc(), &UNITS)
}

#[test]
fn views_of_damaged_submissions(rt: HostRuntime) -> Result<(), Fail> {
    try_each_row(&rt, rt.alloc(), &SUBMISSIONS)
}

#[test]
fn views_of_damaged_deliveries(rt: HostRuntime) -> Result<(), Fail> {
    try_each_row(&rt, rt.alloc(), &DELIVERIES)
}

#[test]
fn views_of_damaged_answers(rt: HostRuntime) -> Result<(), Fail> {
    try_each_row(&rt, rt.alloc(), &ANSWERS)
}
