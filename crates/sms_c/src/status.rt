//! What a call answers, and why octets are refused.

ghost use Rattle.std.specs.Prelude.{◌≡◌, Err};
ghost use Rattle.sms_c.specs.Status as numbers;
ghost use Rattle.sms_c.specs.declared.status.Failure.TheVariants.{Memory, NoRoom};

use sms_card::RecordFault;
use sms_field::{Fault, TextFault};
use sms_join::SplitFault;
use sms_keep::HeldFault;
use sms_relay::RelayFault;
use sms_saved::StateFault;
use sms_tpdu::{DataFault, UnitFault};
use std::alloc::{AllocError, AllocFailed};

/// What a call answers that did what it is for.
pub const OK: u32 = 0;

/// Why a call did not do what it is for.
#[derive(Clone, Copy)]
pub enum Failure {
    /// The octets are refused.
    Refused,
    /// Memory ran out.
    Memory,
    /// There is no room for the answer.
    NoRoom,
    /// The text is not in UTF-8.
    NotUtf8,
    /// The text is no address.
    BadAddress,
    /// There is more than a message or a packet can carry.
    TooLong,
    /// A value is none of those that may be given.
    OutOfRange,
    /// What is asked for is not there.
    NotThere,
    /// As many sets of segments are open as may be.
    TooManyOpen,
    /// The joiner is not open.
    Closed,
    /// The joiner has changed since.
    Changed,
}

impl Failure {
    /// Its number.
    pub fn status(self) -> u32
        ensures { result ≡ numbers.status_of self }
    {
        match self {
            Failure::Refused => 1,
            Failure::Memory => 2,
            Failure::NoRoom => 3,
            Failure::NotUtf8 => 4,
            Failure::BadAddress => 5,
            Failure::TooLong => 6,
            Failure::OutOfRange => 7,
            Failure::NotThere => 8,
            Failure::TooManyOpen => 9,
            Failure::Closed => 10,
            Failure::Changed => 11,
        }
    }
}

/// The number of what a call answers.
pub fn status_of(answer: Result<(), Failure>) -> u32
    ensures status { result ≡ numbers.status_in answer }
    ensures no_room { result ≡ 3 → answer ≡ Err NoRoom }
{
    match answer {
        Ok(()) => OK,
        Err(failure) => failure.status(),
    }
}

impl From<AllocError> for Failure {
    ghost from_gives = { λ _ e. e ≡ Memory };

    fn from(_error: AllocError) -> Failure {
        Failure::Memory
    }
}

impl<T: Drop> From<AllocFailed<T>> for Failure {
    ghost from_gives = { λ _ e. e ≡ Memory };

    fn from(_error: AllocFailed<T>) -> Failure {
        Failure::Memory
    }
}

impl From<TextFault> for Failure {
    ghost from_gives = { λ fault e. e ≡ numbers.of_text fault };

    fn from(fault: TextFault) -> Failure {
        match fault {
            TextFault::Memory => Failure::Memory,
            TextFault::Address(_) => Failure::BadAddress,
        }
    }
}

impl From<SplitFault> for Failure {
    ghost from_gives = { λ fault e. e ≡ numbers.of_split fault };

    fn from(fault: SplitFault) -> Failure {
        match fault {
            SplitFault::Memory => Failure::Memory,
            SplitFault::TooManySegments => Failure::TooLong,
        }
    }
}

/// Where octets are refused, and why.
#[repr(C)]
#[derive(Clone, Copy)]
pub struct Refused {
    /// The place of the first octet that cannot stand there, or the length where octets are
    /// missing at the end.
    pub place: usize,
    /// The number of the reason.
    pub reason: u32,
}

/// The number of what is wrong with a unit.
pub fn unit_reason(fault: UnitFault) -> u32
    ensures { result ≡ numbers.unit_reason fault }
{
    match fault {
        UnitFault::Short => 1,
        UnitFault::WrongType => 2,
        UnitFault::AddressTooLong => 3,
        UnitFault::BadDigit => 4,
        UnitFault::DataTooLong => 5,
        UnitFault::HeaderTooLong => 6,
    }
}

/// The number of what is wrong with a message of the relay or the connection.
pub fn relay_reason(fault: RelayFault) -> u32
    ensures { result ≡ numbers.relay_reason fault }
{
    match fault {
        RelayFault::Short => 1,
        RelayFault::DataTooLong => 5,
        RelayFault::NotSms => 7,
        RelayFault::BadTransaction => 8,
        RelayFault::UnknownType => 9,
        RelayFault::BadAddress => 10,
        RelayFault::BadCause => 11,
    }
}

/// Tells where a unit is refused, and why.
pub fn unit_refused(out: &mut Refused, fault: Fault<UnitFault>) -> u32
    ensures status { result ≡ 1 }
    ensures told { out.new ≡ numbers.unit_refused fault }
{
    *out = Refused {
        place: fault.place,
        reason: unit_reason(fault.why),
    };
    Failure::Refused.status()
}

/// The number of what is wrong with user data whose septets stand one an octet.
pub fn data_reason(fault: DataFault) -> u32
    ensures { result ≡ numbers.data_reason fault }
{
    match fault {
        DataFault::Short => 1,
        DataFault::DataTooLong => 5,
        DataFault::HeaderTooLong => 6,
        DataFault::BadSeptet => 12,
    }
}

/// Tells where such data are refused, and why.
pub fn data_refused(out: &mut Refused, fault: Fault<DataFault>) -> u32
    ensures status { result ≡ 1 }
    ensures told { out.new ≡ numbers.data_refused fault }
{
    let Fault { place, why } = fault;
    let reason = data_reason(why);
    *out = Refused { place, reason };
    Failure::Refused.status()
}

/// Tells where a message is refused, and why.
pub fn relay_refused(out: &mut Refused, fault: Fault<RelayFault>) -> u32
    ensures status { result ≡ 1 }
    ensures told { out.new ≡ numbers.relay_refused fault }
{
    let Fault { place, why } = fault;
    let reason = relay_reason(why);
    *out = Refused { place, reason };
    Failure::Refused.status()
}

/// The number of what is wrong with a record of a card.
pub fn record_reason(fault: RecordFault) -> u32
    ensures { result ≡ numbers.record_reason fault }
{
    match fault {
        RecordFault::Short => 1,
        RecordFault::BadStatus => 13,
        RecordFault::Centre(_) => 10,
        RecordFault::Unit(why) => unit_reason(why),
        RecordFault::NotPadding => 14,
        RecordFault::OtherLength => 15,
    }
}

/// Tells where a record is refused, and why.
pub fn record_refused(out: &mut Refused, fault: Fault<RecordFault>) -> u32
    ensures status { result ≡ 1 }
    ensures told { out.new ≡ numbers.record_refused fault }
{
    let Fault { place, why } = fault;
    let reason = record_reason(why);
    *out = Refused { place, reason };
    Failure::Refused.status()
}

/// The number of what is wrong with octets that are no state.
fn state_reason(fault: StateFault) -> u32
    ensures { result ≡ numbers.state_reason fault }
{
    match fault {
        StateFault::Short => 1,
        StateFault::LongAddress => 3,
        StateFault::NotSeptet => 12,
        StateFault::NotAState => 16,
        StateFault::Newer(_) => 17,
        StateFault::Flag => 18,
        StateFault::OtherLimits => 19,
        StateFault::TooMany => 20,
        StateFault::NotOpen => 21,
        StateFault::OutOfOrder => 22,
        StateFault::Repeated => 23,
        StateFault::Trailing => 24,
        StateFault::Checksum => 25,
    }
}

/// The number of what is wrong with octets that are no state of a joiner.
pub fn held_reason(fault: HeldFault) -> u32
    ensures { result ≡ numbers.held_reason fault }
{
    match fault {
        HeldFault::State(why) => state_reason(why),
        HeldFault::Address => 26,
        HeldFault::Moments => 27,
    }
}

/// Tells where a state is refused, and why.
pub fn held_refused(out: &mut Refused, fault: sms_keep::Fault) -> u32
    ensures status { result ≡ 1 }
    ensures told { out.new ≡ numbers.held_refused fault }
{
    let sms_keep::Fault { place, why } = fault;
    let reason = held_reason(why);
    *out = Refused { place, reason };
    Failure::Refused.status()
}
