//! The whole state.

ghost use Rattle.std.specs.Prelude.{◌≡◌, length};
ghost use Rattle.sms_saved.specs.Value.{view};
ghost use Rattle.sms_saved.specs.Reading.Fields.{Gives};
ghost use Rattle.sms_saved.specs.Reading.Whole.{Tells, placed, any_limits_at, same_flag, same_age, same_limits, limits_at, version_at, head_at, body_at, sealed_at, state_at};

use crate::digest::digest_of;
use crate::fault::{Fault, ReadFault, StateFault, Stop, halted};
use crate::reading::fields::{age_of, flag_of, u64_of};
use crate::reading::lists::{few_keys_of, few_sets_of};
use crate::seen::Seen;
use crate::state::{Limits, State};
use std::alloc::Global;

/// Limits of any joiner.
#[tactic(auto, unfolding(crate::specs::Reading::Whole::any_limits_at))]
fn any_limits_of(bytes: &[u8]) -> Result<(Limits, &[u8]), Stop>
    ensures { Gives (λ x. (x.0, x.1.now)) result (any_limits_at bytes.now) }
{
    let (sets, rest) = u64_of(bytes)?;
    let (keys, rest) = u64_of(rest)?;
    let (age_of_sets, rest) = u64_of(rest)?;
    let (age_of_keys, rest) = age_of(rest)?;
    let (passes_singles, rest) = flag_of(rest)?;
    let limits = Limits {
        sets,
        keys,
        age_of_sets,
        age_of_keys,
        passes_singles,
    };
    Ok((limits, rest))
}

/// Whether two ages are the same.
fn is_same_age(one: Option<u64>, other: Option<u64>) -> bool
    ensures { result ≡ same_age one other }
{
    match (one, other) {
        (None, None) => true,
        (Some(one), Some(other)) => one == other,
        _ => false,
    }
}

/// Whether both are so or neither.
fn is_same_flag(one: bool, other: bool) -> bool
    ensures { result ≡ same_flag one other }
{
    if one { other } else { !other }
}

/// Whether two joiners have the same limits.
#[tactic(auto, unfolding(crate::specs::Reading::Whole::same_limits))]
fn is_same_limits(one: Limits, other: Limits) -> bool
    ensures { result ≡ same_limits one other }
{
    one.sets == other.sets
        && one.keys == other.keys
        && one.age_of_sets == other.age_of_sets
        && is_same_age(one.age_of_keys, other.age_of_keys)
        && is_same_flag(one.passes_singles, other.passes_singles)
}

/// The limits, which have to be these.
#[tactic(auto, unfolding(crate::specs::Reading::Fields::tested_at))]
pub(crate) fn limits_of(own: Limits, bytes: &[u8]) -> Result<(Limits, &[u8]), Stop>
    ensures { Gives (λ x. (x.0, x.1.now)) result (limits_at own bytes.now) }
{
    let (limits, rest) = any_limits_of(bytes)?;
    if !is_same_limits(own, limits) {
        return Err(halted(bytes, StateFault::OtherLimits));
    }
    Ok((limits, rest))
}

/// The version, which is 1.
#[tactic(auto, unfolding(crate::specs::Reading::Whole::version_at))]
fn version_of(bytes: &[u8]) -> Result<&[u8], Stop>
    ensures { Gives (λ rest. rest.now) result (version_at bytes.now) }
{
    match bytes {
        [] => Err(halted(bytes, StateFault::Short)),
        [0, ..] => Err(halted(bytes, StateFault::NotAState)),
        [1, rest @ ..] => Ok(rest),
        [version, ..] => Err(halted(bytes, StateFault::Newer(*version))),
    }
}

/// What a state begins with.
#[tactic(auto, unfolding(crate::specs::Reading::Whole::head_at))]
pub(crate) fn head_of(bytes: &[u8]) -> Result<&[u8], Stop>
    ensures { Gives (λ rest. rest.now) result (head_at bytes.now) }
{
    if bytes.len() < 8 {
        return Err(halted(bytes, StateFault::NotAState));
    }
    let (front, rest) = bytes.split_at(8);
    if front != b"SMSSTATE".as_slice() {
        return Err(halted(bytes, StateFault::NotAState));
    }
    version_of(rest)
}

/// All but the checksum.
#[tactic(auto, unfolding(crate::specs::Reading::Whole::body_at))]
fn body_of(alloc: Global, seed: u128, own: Limits, bytes: &[u8]) -> Result<(State, &[u8]), Stop>
    ensures { Gives (λ x. (view x.0, x.1.now)) result (body_at own bytes.now) }
{
    let rest = head_of(bytes)?;
    let (limits, rest) = limits_of(own, rest)?;
    let (taken, rest) = u64_of(rest)?;
    let (next, rest) = u64_of(rest)?;
    let mut seen = Seen::new(alloc, seed)?;
    let (sets, rest) = few_sets_of(alloc, own.sets, next, &mut seen, rest)?;
    let (keys, rest) = few_keys_of(alloc, own.keys, &mut seen, rest)?;
    let state = State {
        limits,
        taken,
        next,
        sets,
        keys,
    };
    Ok((state, rest))
}

/// The state, where its checksum follows and nothing more.
#[tactic(auto, unfolding(crate::specs::Reading::Whole::sealed_at))]
fn sealed_of(bytes: &[u8], state: State, rest: &[u8]) -> Result<State, Stop>
    ensures { Gives view result (sealed_at bytes.now (view state, rest.now)) }
{
    if rest.len() < 32 {
        return Err(halted(rest, StateFault::Short));
    }
    if rest.len() > 32 {
        return Err(halted(rest, StateFault::Trailing));
    }
    let body = &bytes[..bytes.len().saturating_sub(32)];
    let sum = digest_of(body);
    if rest != sum.as_slice() {
        return Err(halted(rest, StateFault::Checksum));
    }
    Ok(state)
}

/// The state.
#[tactic(auto, unfolding(crate::specs::Reading::Whole::state_at))]
fn state_of(alloc: Global, seed: u128, own: Limits, bytes: &[u8]) -> Result<State, Stop>
    ensures { Gives view result (state_at own bytes.now) }
{
    let (state, rest) = body_of(alloc, seed, own, bytes)?;
    sealed_of(bytes, state, rest)
}

/// The same, with the place of a fault counted from the first octet.
pub(crate) fn told(
    alloc: Global,
    seed: u128,
    own: Limits,
    octets: &[u8],
) -> Result<State, ReadFault>
    ensures { Tells view result (placed (length octets.now) (state_at own octets.now)) }
{
    match state_of(alloc, seed, own, octets) {
        Ok(state) => Ok(state),
        Err(Stop::Memory) => Err(ReadFault::Memory),
        Err(Stop::At(halt)) => Err(ReadFault::At(Fault {
            place: octets.len().saturating_sub(halt.left),
            why: halt.why,
        })),
    }
}
