//! The clock of units that come one after another: the moment at which open sets grow old.

ghost use Rattle.std.specs.Prelude.{◌≡◌};
ghost use Rattle.sms_stream.specs.Clock.{new_clock, first_clock, ticked};
ghost use Rattle.sms_stream.specs.Clock.{after_first, after_sure, after_row, after_far};
ghost use Rattle.sms_stream.specs.Clock.{is_far_after, goes_on, is_refuted, standing_after};
ghost use Rattle.sms_stream.specs.Clock.{is_unset, opened_at, recalled};

use sms_field::Address;

/// How many seconds a week has: so long after its first segment a set is old, and a stamp that lies
/// further ahead of the clock is not believed alone.
pub const WEEK: u64 = 604_800;

/// How many units of one origin are not believed alone; one more is.
const FEW: u8 = 3;

/// Units that came one after the other, each more than a week after the clock, all of one origin.
#[derive(Drop)]
pub struct Row {
    /// Whom they are from (TP-OA).
    pub origin: Address,
    /// The least of the moments of their stamps (TP-SCTS).
    pub least: u64,
    /// How many they are.
    pub count: u8,
}

/// What a clock rests on.
#[derive(Drop)]
pub enum Standing {
    /// No unit had a stamp yet.
    Unset,
    /// All units with a stamp are of one origin, and are few: they are believed for want of others.
    First {
        /// Whom they are from (TP-OA).
        origin: Address,
        /// How many they are.
        count: u8,
    },
    /// Units bore it out, and the last one with a stamp did not lie far ahead.
    Sure,
    /// Units bore it out; those of a row came last.
    Ahead(Row),
}

/// A clock.
#[derive(Drop)]
pub struct Clock {
    /// What it shows, in seconds since the beginning of 2000.
    pub time: u64,
    pub standing: Standing,
}

/// The same address. It takes no memory.
fn same(origin: &Address) -> Address
    ensures { result ≡ origin.now }
{
    Address {
        type_of_number: origin.type_of_number,
        plan: origin.plan,
        symbols: origin.symbols.copy(),
    }
}

/// Whether more than a week goes by from the earlier of two moments to the later.
fn is_far_after(later: u64, earlier: u64) -> bool
    ensures { result ≡ is_far_after later earlier }
{
    later.saturating_sub(earlier) > WEEK
}

/// Whether a unit is one more of those of an origin which are few.
fn goes_on(first: &Address, count: u8, origin: &Address) -> bool
    ensures { result ≡ goes_on first.now count origin.now }
{
    count < FEW && first.is_same(origin)
}

/// Whether a unit shows that those of the first origin lay too far ahead.
fn is_refuted(time: u64, first: &Address, origin: &Address, moment: u64) -> bool
    ensures { result ≡ is_refuted time first.now origin.now moment }
{
    is_far_after(time, moment) && !first.is_same(origin)
}

/// What the clock rests on after units of the first origin, and one that does not lie far ahead.
fn standing_after(first: &Address, count: u8, origin: &Address) -> Standing
    ensures { result ≡ standing_after first.now count origin.now }
{
    if goes_on(first, count, origin) {
        return Standing::First {
            origin: same(first),
            count: count + 1,
        };
    }
    Standing::Sure
}

/// The clock after the first stamp.
fn first_clock(origin: &Address, moment: u64) -> Clock
    ensures { result ≡ first_clock origin.now moment }
{
    Clock {
        time: moment,
        standing: Standing::First {
            origin: same(origin),
            count: 1,
        },
    }
}

/// The clock after units of the first origin, and one more unit.
fn after_first(time: u64, first: &Address, count: u8, origin: &Address, moment: u64) -> Clock
    ensures { result ≡ after_first time first.now count origin.now moment }
{
    if is_refuted(time, first, origin, moment) {
        return Clock {
            time: moment,
            standing: Standing::Sure,
        };
    }
    if is_far_after(moment, time) {
        return after_sure(time, origin, moment);
    }
    Clock {
        time: time.max(moment),
        standing: standing_after(first, count, origin),
    }
}

/// The sure clock after one more unit, before which none lay far ahead.
fn after_sure(time: u64, origin: &Address, moment: u64) -> Clock
    ensures { result ≡ after_sure time origin.now moment }
{
    if is_far_after(moment, time) {
        let row = Row {
            origin: same(origin),
            least: moment,
            count: 1,
        };
        return Clock {
            time,
            standing: Standing::Ahead(row),
        };
    }
    Clock {
        time: time.max(moment),
        standing: Standing::Sure,
    }
}

/// The sure clock after a row and one more unit.
fn after_row(time: u64, row: &Row, origin: &Address, moment: u64) -> Clock
    ensures { result ≡ after_row time row.now origin.now moment }
{
    if is_far_after(moment, time) {
        return after_far(time, row, origin, moment);
    }
    Clock {
        time: time.max(moment),
        standing: Standing::Sure,
    }
}

/// The sure clock after a row and one more unit that lies far ahead.
fn after_far(time: u64, row: &Row, origin: &Address, moment: u64) -> Clock
    ensures { result ≡ after_far time row.now origin.now moment }
{
    let least = row.least.min(moment);
    if goes_on(&row.origin, row.count, origin) {
        let row = Row {
            origin: same(&row.origin),
            least,
            count: row.count + 1,
        };
        return Clock {
            time,
            standing: Standing::Ahead(row),
        };
    }
    after_sure(least, origin, moment)
}

/// Whether no unit had a stamp yet.
fn is_unset(standing: &Standing) -> bool
    ensures { result ≡ is_unset standing.now }
{
    match standing {
        Standing::Unset => true,
        _ => false,
    }
}

impl Clock {
    /// The clock before the first unit.
    pub fn new() -> Clock
        ensures { result ≡ new_clock }
    {
        Clock {
            time: 0,
            standing: Standing::Unset,
        }
    }

    /// A unit comes: whom it is from (TP-OA), and the moment of its stamp (TP-SCTS). It takes no
    /// memory.
    pub fn take(&mut self, origin: &Address, moment: u64)
        ensures { self.new ≡ ticked self.old origin.now moment }
    {
        let next = match &self.standing {
            Standing::Unset => first_clock(origin, moment),
            Standing::First {
                origin: first,
                count,
            } => after_first(self.time, first, *count, origin, moment),
            Standing::Sure => after_sure(self.time, origin, moment),
            Standing::Ahead(row) => after_row(self.time, row, origin, moment),
        };
        *self = next;
    }

    /// The same of a unit that was taken long ago: one that lies more than a week ahead of the clock
    /// moves nothing, unless it sets the clock.
    pub fn take_near(&mut self, origin: &Address, moment: u64)
        ensures { self.new ≡ recalled self.old origin.now moment }
    {
        if !is_unset(&self.standing) && is_far_after(moment, self.time) {
            return;
        }
        self.take(origin, moment);
    }

    /// The moment at which a set is opened whose first segment came last, with a stamp of this
    /// moment if it has one.
    pub fn opening(&self, moment: Option<u64>) -> u64
        ensures { result ≡ opened_at self.now moment }
    {
        moment.unwrap_or(0).max(self.time)
    }
}
