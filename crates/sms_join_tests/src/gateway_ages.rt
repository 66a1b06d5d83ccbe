//! For how long a gateway's joiner keeps sets open and remembers keys.

use crate::found::same;
use crate::joiner::checked;
use sms_field::{Address, Stamp};
use sms_join::{Gateway, GatewayLimits, Offer, OfferFault, Ucs2Units, Units};
use sms_tpdu::{Concat, Width};
use std::alloc::Global;
use std::process::Abort;
use std::test::Fail;

/// What is answered to a piece.
#[derive(Clone, Copy, Debug, PartialEq, Eq)]
enum Told {
    Repeat,
    Kept,
    Finished,
    Refused,
}

/// What is done.
#[derive(Clone, Copy, Debug)]
enum Act {
    /// The segment of a sequence, of two, is offered under a reference at a moment.
    Offer(u16, u8, u64, Told),
    /// It ages by a moment, and then so many sets are open.
    Age(u64, usize),
}

/// Sets may be open for 100 seconds, and keys are remembered for 50.
static ACTS: [Act; 24] = [
    Act::Offer(1, 1, 10, Told::Kept),
    Act::Offer(1, 2, 20, Told::Finished),
    Act::Offer(1, 1, 30, Told::Repeat),
    // 49 seconds after it finished.
    Act::Age(69, 0),
    Act::Offer(1, 2, 69, Told::Repeat),
    // 50 seconds after it, the reference is used anew.
    Act::Age(70, 0),
    Act::Offer(1, 1, 70, Told::Kept),
    Act::Offer(1, 2, 71, Told::Finished),
    Act::Offer(1, 2, 72, Told::Repeat),
    // A set that was opened 99 seconds ago.
    Act::Offer(2, 1, 80, Told::Kept),
    Act::Age(179, 1),
    Act::Offer(2, 2, 179, Told::Finished),
    // One that was opened 100 seconds ago.
    Act::Offer(3, 1, 180, Told::Kept),
    Act::Age(280, 0),
    Act::Offer(3, 2, 280, Told::Kept),
    Act::Offer(3, 1, 281, Told::Finished),
    // A clock that goes back: the finishing counts at 281.
    Act::Offer(4, 1, 100, Told::Kept),
    Act::Offer(4, 2, 100, Told::Finished),
    Act::Age(330, 0),
    Act::Offer(3, 1, 330, Told::Repeat),
    Act::Offer(4, 1, 330, Told::Repeat),
    Act::Age(331, 0),
    Act::Offer(3, 1, 331, Told::Kept),
    Act::Offer(4, 1, 331, Told::Kept),
];

/// The place of a segment of two.
fn place_of(reference: u16, sequence: u8) -> Option<Concat> {
    Some(Concat {
        width: Width::Sixteen,
        reference,
        maximum: 2,
        sequence,
    })
}

/// What an answer tells.
fn told_of(answer: &Result<Offer, OfferFault>) -> Told {
    match answer {
        Ok(Offer::Repeat) => Told::Repeat,
        Ok(Offer::Kept) => Told::Kept,
        Ok(Offer::Finished(_)) => Told::Finished,
        Err(_) => Told::Refused,
    }
}

/// Carries the acts out, and compares what is told with what they say.
fn tells(rt: &impl Abort, alloc: Global, gateway: &mut Gateway) -> Result<(), Fail> {
    let origin = Address::from_text(alloc, "+1001")?;
    let to = Address::from_text(alloc, "+2001")?;
    for act in ACTS.as_slice() {
        match *act {
            Act::Age(now, open_count) => {
                gateway.age(now);
                same(rt, act, &gateway.open_count(), &open_count);
            }
            Act::Offer(reference, sequence, now, told) => {
                let place = checked(place_of(reference, sequence));
                let units = Units::Ucs2(Ucs2Units::new(vec![in alloc; 0x61]?));
                let stamp = Stamp::new([0; 7]);
                let answer = gateway.offer(now, Some(&to), &origin, stamp, place, units);
                same(rt, act, &told_of(&answer), &told);
            }
        }
    }
    Ok(())
}

/// With a few keys that are remembered, and with many.
#[test]
fn forgets_by_age(rt: HostRuntime) -> Result<(), Fail> {
    let limits = GatewayLimits::new(4, 8).open_for(100).remember_for(50);
    let mut few = Gateway::new(rt.alloc(), limits)?;
    tells(&rt, rt.alloc(), &mut few)?;
    let limits = GatewayLimits::new(20, 100).open_for(100).remember_for(50);
    let mut many = Gateway::with_seed(rt.alloc(), limits, 9)?;
    tells(&rt, rt.alloc(), &mut many)
}
