//! Which sets are open, in which order, and with which pieces.

use crate::crowd::Chance;
use crate::found::same;
use crate::joiner::checked;
use sms_field::{Address, Stamp};
use sms_join::{Joiner, Key, OpenSet, Ucs2Units, Units};
use sms_tpdu::{Concat, Width};
use std::alloc::{AllocError, Global};
use std::process::Abort;
use std::test::Fail;

/// How long a set may be open.
const WEEK: u64 = 604_800;

/// What is told of a set: its reference, the moment of its first piece, how many pieces have come,
/// and a digit for each that has.
#[derive(Clone, Copy, Debug, PartialEq, Eq)]
struct Told {
    reference: u16,
    moment: u64,
    count: usize,
    come: u32,
}

/// What is done.
#[derive(Clone, Copy, Debug)]
enum Act {
    /// The piece of a sequence, of three, is offered under a reference at a moment.
    Offer(u16, u8, u64),
    Age(u64),
}

/// Something that is done, and what is told then: of each set the fields of `Told`, in their order.
struct Row {
    act: Act,
    told: &'static [(u16, u64, usize, u32)],
}

static ROWS: [Row; 20] = [
    Row {
        act: Act::Offer(5, 1, 100),
        told: &[(5, 100, 1, 1)],
    },
    Row {
        act: Act::Offer(3, 1, 110),
        told: &[(5, 100, 1, 1), (3, 110, 1, 1)],
    },
    Row {
        act: Act::Offer(9, 3, 120),
        told: &[(5, 100, 1, 1), (3, 110, 1, 1), (9, 120, 1, 100)],
    },
    Row {
        act: Act::Offer(4, 1, 130),
        told: &[
            (5, 100, 1, 1),
            (3, 110, 1, 1),
            (9, 120, 1, 100),
            (4, 130, 1, 1),
        ],
    },
    // A further piece moves no set, and leaves its moment.
    Row {
        act: Act::Offer(5, 3, 140),
        told: &[
            (5, 100, 2, 101),
            (3, 110, 1, 1),
            (9, 120, 1, 100),
            (4, 130, 1, 1),
        ],
    },
    // A repeat changes nothing.
    Row {
        act: Act::Offer(5, 3, 141),
        told: &[
            (5, 100, 2, 101),
            (3, 110, 1, 1),
            (9, 120, 1, 100),
            (4, 130, 1, 1),
        ],
    },
    Row {
        act: Act::Offer(3, 2, 150),
        told: &[
            (5, 100, 2, 101),
            (3, 110, 2, 11),
            (9, 120, 1, 100),
            (4, 130, 1, 1),
        ],
    },
    // A set that is whole goes, and the others keep their order.
    Row {
        act: Act::Offer(3, 3, 160),
        told: &[(5, 100, 2, 101), (9, 120, 1, 100), (4, 130, 1, 1)],
    },
    Row {
        act: Act::Offer(7, 2, 170),
        told: &[
            (5, 100, 2, 101),
            (9, 120, 1, 100),
            (4, 130, 1, 1),
            (7, 170, 1, 10),
        ],
    },
    Row {
        act: Act::Offer(5, 2, 180),
        told: &[(9, 120, 1, 100), (4, 130, 1, 1), (7, 170, 1, 10)],
    },
    // The moment before that at which the first is too old, and that one.
    Row {
        act: Act::Age(119 + WEEK),
        told: &[(9, 120, 1, 100), (4, 130, 1, 1), (7, 170, 1, 10)],
    },
    Row {
        act: Act::Age(120 + WEEK),
        told: &[(4, 130, 1, 1), (7, 170, 1, 10)],
    },
    // A set that is opened again is the last.
    Row {
        act: Act::Offer(9, 1, 200),
        told: &[(4, 130, 1, 1), (7, 170, 1, 10), (9, 200, 1, 1)],
    },
    // Moments that fall: the order is that of opening all the same, and each set has its own age.
    Row {
        act: Act::Offer(2, 1, 50),
        told: &[
            (4, 130, 1, 1),
            (7, 170, 1, 10),
            (9, 200, 1, 1),
            (2, 50, 1, 1),
        ],
    },
    Row {
        act: Act::Offer(1, 1, 190),
        told: &[
            (4, 130, 1, 1),
            (7, 170, 1, 10),
            (9, 200, 1, 1),
            (2, 50, 1, 1),
            (1, 190, 1, 1),
        ],
    },
    Row {
        act: Act::Age(50 + WEEK),
        told: &[
            (4, 130, 1, 1),
            (7, 170, 1, 10),
            (9, 200, 1, 1),
            (1, 190, 1, 1),
        ],
    },
    Row {
        act: Act::Age(190 + WEEK),
        told: &[(9, 200, 1, 1)],
    },
    Row {
        act: Act::Offer(8, 1, 199),
        told: &[(9, 200, 1, 1), (8, 199, 1, 1)],
    },
    Row {
        act: Act::Age(199 + WEEK),
        told: &[(9, 200, 1, 1)],
    },
    Row {
        act: Act::Age(1_000 + WEEK),
        told: &[],
    },
];

/// A piece of three.
fn place_of(reference: u16, sequence: u8) -> Option<Concat> {
    Some(Concat {
        width: Width::Sixteen,
        reference,
        maximum: 3,
        sequence,
    })
}

/// A digit for each piece of three that has come: the last for that of sequence 1.
fn come_of(set: &OpenSet<'_>) -> u32 {
    let Key::Segmented { maximum: 3, .. } = set.key() else {
        return 0;
    };
    let mut come = 0_u32;
    if set.has(1) {
        come = 1;
    }
    if set.has(2) {
        come = come.saturating_add(10);
    }
    if set.has(3) {
        come = come.saturating_add(100);
    }
    come
}

/// What is told of a set.
fn told_of(set: &OpenSet<'_>) -> Told {
    let reference = match set.key() {
        Key::Segmented { reference, .. } => *reference,
        Key::SegmentedTo { reference, .. } => *reference,
        Key::Single { .. } => 0,
        Key::SingleTo { .. } => 0,
    };
    Told {
        reference,
        moment: set.moment(),
        count: set.count(),
        come: come_of(set),
    }
}

/// What is told of all open sets.
fn tell(alloc: Global, joiner: &Joiner) -> Result<Vec<Told>, AllocError> {
    let mut told = Vec::new(alloc);
    for set in joiner.open_sets() {
        told.push(told_of(&set))?;
    }
    Ok(told)
}

/// The same, each set asked for by the number of its opening.
fn tell_by_number(alloc: Global, joiner: &Joiner) -> Result<Vec<Told>, AllocError> {
    let mut told = Vec::new(alloc);
    let mut from = 0;
    for _ in 0..joiner.open_count() {
        if let Some(set) = joiner.open_from(from) {
            told.push(told_of(&set))?;
            from = set.turn().saturating_add(1);
        }
    }
    Ok(told)
}

/// Offers a piece, or ages.
fn carry_out(
    alloc: Global,
    joiner: &mut Joiner,
    origin: &Address,
    act: Act,
) -> Result<(), AllocError> {
    match act {
        Act::Age(now) => joiner.age(now),
        Act::Offer(reference, sequence, now) => {
            let place = checked(place_of(reference, sequence));
            let units = Units::Ucs2(Ucs2Units::new(vec![in alloc; 0x61]?));
            if joiner
                .offer(now, origin, Stamp::new([0; 7]), place, units)
                .is_err()
            {
                return Err(AllocError);
            }
        }
    }
    Ok(())
}

/// After each row a joiner tells what the row says.
fn tells_rows(rt: &impl Abort, alloc: Global, joiner: &mut Joiner) -> Result<(), Fail> {
    let origin = Address::from_text(alloc, "+1001")?;
    for row in ROWS.as_slice() {
        carry_out(alloc, joiner, &origin, row.act)?;
        let mut told = Vec::new(alloc);
        for set in tell(alloc, joiner)?.iter() {
            told.push((set.reference, set.moment, set.count, set.come))?;
        }
        same(rt, &row.act, &told.as_slice(), &row.told);
    }
    Ok(())
}

#[test]
fn tells_open_sets(rt: HostRuntime) -> Result<(), Fail> {
    let mut joiner = Joiner::new(rt.alloc(), 10, 10)?;
    tells_rows(&rt, rt.alloc(), &mut joiner)
}

#[test]
fn tells_open_sets_with_a_seed(rt: HostRuntime) -> Result<(), Fail> {
    let mut joiner = Joiner::with_seed(
        rt.alloc(),
        10,
        40,
        0x0123_4567_89AB_CDEF_0011_2233_4455_6677,
    )?;
    tells_rows(&rt, rt.alloc(), &mut joiner)
}

/// What a plain list of open sets says after an offer.
fn offer_plainly(
    list: &mut Vec<Told>,
    reference: u16,
    sequence: u8,
    now: u64,
) -> Result<(), AllocError> {
    let digit = match sequence {
        1 => 1,
        2 => 10,
        _ => 100,
    };
    let Some(index) = list.iter().position(|set| set.reference == reference) else {
        let set = Told {
            reference,
            moment: now,
            count: 1,
            come: digit,
        };
        return Ok(list.push(set)?);
    };
    let Some(set) = list.get_mut(index) else {
        return Ok(());
    };
    let has = match sequence {
        1 => set.come % 10 == 1,
        2 => set.come / 10 % 10 == 1,
        _ => set.come / 100 == 1,
    };
    if !has {
        set.come = set.come.saturating_add(digit);
        set.count = set.count.saturating_add(1);
    }
    if set.count == 3 && index < list.len() {
        list.remove(index);
    }
    Ok(())
}

/// Many sets of three pieces, opened and finished in a made order, of which some grow too old: the
/// joiner, and one with a seed, tell what a plain list says.
#[test]
fn tells_a_crowd(rt: HostRuntime) -> Result<(), Fail> {
    let alloc = rt.alloc();
    let origin = Address::from_text(alloc, "+1001")?;
    let mut joiner = Joiner::new(alloc, 400, 1)?;
    let mut seeded = Joiner::with_seed(alloc, 400, 1, 7)?;
    let mut list = Vec::new(alloc);
    let mut chance = Chance(300);
    for step in 0..3_000_u64 {
        let reference = (chance.below(300) % 300) as u16 + 1;
        let sequence = 1 + (chance.below(3) % 3) as u8;
        let later = chance.below(step / 1_000 * 50_000 + 1);
        let now = (1_000 * step).saturating_add(later);
        let act_now = Act::Offer(reference, sequence, now);
        let before = joiner.open_count();
        carry_out(alloc, &mut joiner, &origin, act_now)?;
        carry_out(alloc, &mut seeded, &origin, act_now)?;
        let known = list.iter().any(|set: &Told| set.reference == reference);
        if known || joiner.open_count() > before {
            offer_plainly(&mut list, reference, sequence, now)?;
        }
        if step % 50 == 0 {
            joiner.age(now);
            seeded.age(now);
            list.retain(|set: &Told| set.moment.saturating_add(WEEK) > now);
            let told = tell(alloc, &joiner)?;
            same(&rt, &step, &told, &list);
            let told = tell(alloc, &seeded)?;
            same(&rt, &step, &told, &list);
            let told = tell_by_number(alloc, &joiner)?;
            same(&rt, &step, &told, &list);
        }
    }
    Ok(())
}

/// A row of offers that open and finish sets, and what is told after them.
fn told_after(alloc: Global) -> Result<Vec<Told>, AllocError> {
    let Ok(origin) = Address::from_text(alloc, "+1001") else {
        return Err(AllocError);
    };
    let mut joiner = Joiner::with_seed(alloc, 40, 40, 1)?;
    for reference in 0..20 {
        let offer = Act::Offer(reference, 1, 100);
        if carry_out(alloc, &mut joiner, &origin, offer).is_err() {
            carry_out(alloc, &mut joiner, &origin, offer)?;
        }
    }
    for reference in 1..20 {
        carry_out(alloc, &mut joiner, &origin, Act::Offer(reference, 2, 100))?;
        let offer = Act::Offer(reference, 3, 100);
        if carry_out(alloc, &mut joiner, &origin, offer).is_err() {
            carry_out(alloc, &mut joiner, &origin, offer)?;
        }
    }
    tell(alloc, &joiner)
}

/// One growth is refused, whichever it is: an offer that wants memory has changed nothing, and the
/// same offer is then answered as where none was refused.
#[test]
fn tells_after_a_refused_growth(rt: HostRuntime) -> Result<(), Fail> {
    let told = match told_after(rt.alloc()) {
        Ok(told) => told,
        Err(_) => told_after(rt.alloc())?,
    };
    let left = Told {
        reference: 0,
        moment: 100,
        count: 1,
        come: 1,
    };
    same(&rt, &"told", &told.as_slice(), &[left].as_slice());
    Ok(())
}
