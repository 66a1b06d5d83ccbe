//! Segments and messages for many recipients, and what is answered to each.

use crate::found::{holds, same};
use crate::gateway_rows::{APART, PASSING, Row, TOGETHER, Want};
use crate::joiner::checked;
use sms_field::{Address, Stamp};
use sms_join::{Alone, Gateway, GatewayLimits, Offer, OfferFault, OpenSet, Units};
use sms_text::gsm_of;
use sms_tpdu::Septets;
use std::alloc::{AllocError, Global};
use std::process::Abort;
use std::test::Fail;

/// The units of a piece; none where the default alphabet lacks a letter of it.
fn units_of(alloc: Global, text: &str) -> Result<Units, AllocError> {
    match gsm_of(alloc, text)? {
        Some(septets) => Ok(Units::Gsm(Septets::new(septets))),
        None => Ok(Units::Gsm(Septets::new(Vec::new(alloc)))),
    }
}

/// The address that a text is.
fn address_of(alloc: Global, text: &str) -> Result<Address, AllocError> {
    match Address::from_text(alloc, text) {
        Ok(address) => Ok(address),
        Err(_) => Err(AllocError),
    }
}

/// The recipient of a row; none where its text is empty.
fn recipient_of(alloc: Global, row: &Row) -> Result<Option<Address>, AllocError> {
    if row.to.is_empty() {
        return Ok(None);
    }
    Ok(Some(address_of(alloc, row.to)?))
}

/// Whether the answer is what is wanted.
fn is_wanted(answer: &Result<Offer, OfferFault>, want: Want) -> bool {
    match (answer, want) {
        (Ok(Offer::Repeat), Want::Repeat) | (Ok(Offer::Kept), Want::Kept) => true,
        (Err(OfferFault::TooManyOpen), Want::TooManyOpen) => true,
        (Ok(Offer::Finished(text)), Want::Finished(wanted)) => text.as_str() == wanted,
        _ => false,
    }
}

/// Whether it is said before that the piece finishes its set just where that is wanted.
fn is_said(gateway: &Gateway, to: Option<&Address>, origin: &Address, row: &Row) -> bool {
    let finishes = gateway.would_finish(to, origin, Stamp::new([0; 7]), checked(row.place));
    finishes == matches!(&row.want, Want::Finished(_))
}

/// Whether an offer is answered as wanted; none where it wants memory.
fn answered(
    alloc: Global,
    gateway: &mut Gateway,
    to: Option<&Address>,
    origin: &Address,
    row: &Row,
) -> Result<Option<bool>, AllocError> {
    let units = units_of(alloc, row.text)?;
    let place = checked(row.place);
    let answer = gateway.offer(0, to, origin, Stamp::new([0; 7]), place, units);
    if matches!(&answer, Err(OfferFault::Memory)) {
        return Ok(None);
    }
    Ok(Some(is_wanted(&answer, row.want)))
}

/// Whether an offer is answered as wanted, and where it wants memory, one more; and whether it was
/// said before whether it finishes.
fn is_answered_to(
    alloc: Global,
    gateway: &mut Gateway,
    to: Option<&Address>,
    origin: &Address,
    row: &Row,
) -> Result<bool, AllocError> {
    let said = is_said(gateway, to, origin, row);
    if let Some(wanted) = answered(alloc, gateway, to, origin, row)? {
        return Ok(said && wanted);
    }
    let again = answered(alloc, gateway, to, origin, row)?;
    Ok(said && again == Some(true))
}

/// Whether a row is answered as wanted.
fn is_answered(alloc: Global, gateway: &mut Gateway, row: &Row) -> Result<bool, AllocError> {
    let origin = address_of(alloc, "+1001")?;
    let to = recipient_of(alloc, row)?;
    is_answered_to(alloc, gateway, to.as_ref(), &origin, row)
}

/// Offers the rows, and says which one is answered otherwise than wanted, if any is.
fn differs_from(
    alloc: Global,
    gateway: &mut Gateway,
    rows: &[Row],
) -> Result<Option<&'static str>, AllocError> {
    for row in rows {
        if !is_answered(alloc, gateway, row)? {
            return Ok(Some(row.shows));
        }
    }
    Ok(None)
}

/// Recipients are kept apart, with a few keys that are remembered, with many, and with a seed.
#[test]
fn keeps_recipients_apart(rt: HostRuntime) -> Result<(), Fail> {
    let mut few = Gateway::new(rt.alloc(), GatewayLimits::new(4, 8))?;
    let other = differs_from(rt.alloc(), &mut few, APART.as_slice())?;
    same(&rt, &"few keys", &other, &None);
    let mut many = Gateway::new(rt.alloc(), GatewayLimits::new(4, 100))?;
    let other = differs_from(rt.alloc(), &mut many, APART.as_slice())?;
    same(&rt, &"many keys", &other, &None);
    let mut seeded = Gateway::with_seed(rt.alloc(), GatewayLimits::new(4, 100), 7)?;
    let other = differs_from(rt.alloc(), &mut seeded, APART.as_slice())?;
    same(&rt, &"with a seed", &other, &None);
    Ok(())
}

/// The limits are for all recipients together.
#[test]
fn has_limits_for_all(rt: HostRuntime) -> Result<(), Fail> {
    let mut gateway = Gateway::new(rt.alloc(), GatewayLimits::new(1, 1))?;
    let other = differs_from(rt.alloc(), &mut gateway, TOGETHER.as_slice())?;
    same(&rt, &"answered otherwise", &other, &None);
    Ok(())
}

/// Where they are passed, messages in one piece finish each time, and are not remembered.
#[test]
fn passes_messages_in_one_piece(rt: HostRuntime) -> Result<(), Fail> {
    let limits = GatewayLimits::new(1, 1).alone(Alone::Passed);
    let mut gateway = Gateway::new(rt.alloc(), limits)?;
    let other = differs_from(rt.alloc(), &mut gateway, PASSING.as_slice())?;
    same(&rt, &"answered otherwise", &other, &None);
    Ok(())
}

/// Whether the set is for this recipient.
fn is_for(set: &OpenSet<'_>, to: Option<&Address>) -> bool {
    match (set.key().recipient(), to) {
        (None, None) => true,
        (Some(own), Some(to)) => own.is_same(to),
        _ => false,
    }
}

/// Whether the sets that are told are for these, one after another.
fn are_for(gateway: &Gateway, recipients: &[Option<&Address>]) -> bool {
    let mut told = 0_usize;
    for set in gateway.open_sets() {
        match recipients.get(told) {
            Some(to) if is_for(&set, *to) => told = told.saturating_add(1),
            _ => return false,
        }
    }
    told == recipients.len()
}

/// The sets are told for whom they are, and go when they are old.
#[test]
fn tells_for_whom_sets_are(rt: HostRuntime) -> Result<(), Fail> {
    let to = address_of(rt.alloc(), "+2002")?;
    let mut gateway = Gateway::new(rt.alloc(), GatewayLimits::new(4, 8))?;
    let _ = differs_from(rt.alloc(), &mut gateway, &APART.as_slice()[1..3])?;
    holds(&rt, &"opened", are_for(&gateway, &[Some(&to), None]));
    same(&rt, &"opened", &gateway.open_count(), &2);
    holds(&rt, &"old", gateway.old_from(0, 604_800).is_some());
    gateway.age(604_800);
    holds(&rt, &"dropped", gateway.open_from(0).is_none());
    Ok(())
}

/// Which of the rows a new one answers otherwise than wanted, if any.
fn differs(
    alloc: Global,
    limits: GatewayLimits,
    rows: &[Row],
) -> Result<Option<&'static str>, AllocError> {
    let mut gateway = Gateway::new(alloc, limits)?;
    differs_from(alloc, &mut gateway, rows)
}

/// One growth is refused, whichever it is (docs/CONTRIBUTING.md says how): an offer that wants
/// memory has changed nothing, and the same offer is then answered as where none was refused.
#[test]
fn answers_recipients_after_a_refused_growth(rt: HostRuntime) -> Result<(), Fail> {
    let limits = GatewayLimits::new(4, 100);
    let other = match differs(rt.alloc(), limits, APART.as_slice()) {
        Ok(other) => other,
        Err(_) => differs(rt.alloc(), limits, APART.as_slice())?,
    };
    same(&rt, &"answered otherwise", &other, &None);
    Ok(())
}

/// The same where messages in one piece are passed.
#[test]
fn passes_after_a_refused_growth(rt: HostRuntime) -> Result<(), Fail> {
    let limits = GatewayLimits::new(1, 1).alone(Alone::Passed);
    let other = match differs(rt.alloc(), limits, PASSING.as_slice()) {
        Ok(other) => other,
        Err(_) => differs(rt.alloc(), limits, PASSING.as_slice())?,
    };
    same(&rt, &"answered otherwise", &other, &None);
    Ok(())
}
