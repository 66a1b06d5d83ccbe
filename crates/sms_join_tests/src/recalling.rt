//! Keys that a joiner remembered before, put back all together.

ghost use Rattle.std.specs.Prelude.{◌≤◌};

use crate::found::same;
use sms_field::{Address, Stamp};
use sms_join::{Gateway, GatewayLimits, Key, Recalling};
use std::alloc::{AllocError, Global};
use std::process::Abort;
use std::test::Fail;

/// The key of a message in one piece, by a number.
fn single_of(alloc: Global, number: u8) -> Result<Key, AllocError> {
    match Address::from_text(alloc, "+1001") {
        Ok(origin) => Ok(Key::Single {
            origin,
            stamp: Stamp::new([number; 7]),
        }),
        Err(_) => Err(AllocError),
    }
}

/// The keys of three numbers, in a joiner with such limits: the second finished after the third.
#[tactic(auto, unfolding(sms_join::specs::Joiner::new_joiner))]
fn recalled(
    alloc: Global,
    limits: GatewayLimits,
    seed: Option<u128>,
    numbers: [u8; 3],
) -> Result<Option<Gateway>, AllocError>
    requires { 3 ≤ limits.remembered }
{
    let mut recalling = Recalling::new(alloc, limits, seed)?;
    let [first, second, third] = numbers;
    recalling.remember(single_of(alloc, first)?, 50);
    recalling.remember(single_of(alloc, second)?, 60);
    recalling.remember(single_of(alloc, third)?, 40);
    Ok(recalling.end())
}

/// How many keys are remembered, whether the key of a number is, and the moment of the last one.
type Remembered = (usize, bool, Option<u64>);

/// What a joiner tells of its keys, and of that of a number.
fn told_of(gateway: &Gateway, key: &Key) -> Remembered {
    let last = gateway.remembered_at(0).map(|last| last.moment);
    (gateway.remembered_count(), gateway.remembers(key), last)
}

/// Of three keys each is remembered, and none is that comes twice.
fn are_recalled(
    rt: &impl Abort,
    alloc: Global,
    limits: GatewayLimits,
    seed: Option<u128>,
) -> Result<(), Fail>
    requires { 3 ≤ limits.remembered }
{
    if let Some(gateway) = recalled(alloc, limits, seed, [1, 2, 3])? {
        let second = told_of(&gateway, &single_of(alloc, 2)?);
        same(rt, &"second", &second, &(3, true, Some(60)));
        let other = told_of(&gateway, &single_of(alloc, 4)?);
        same(rt, &"other", &other, &(3, false, Some(60)));
    } else {
        same(rt, &"three keys", &false, &true);
    }
    let twice = recalled(alloc, limits, seed, [1, 2, 1])?;
    same(rt, &"twice", &twice.is_none(), &true);
    let at_once = recalled(alloc, limits, seed, [1, 2, 2])?;
    same(rt, &"twice at once", &at_once.is_none(), &true);
    Ok(())
}

/// With a few keys that may be remembered, and with many, hashed with a seed and without.
#[test]
fn recalls_each_key_once(rt: HostRuntime) -> Result<(), Fail> {
    are_recalled(&rt, rt.alloc(), GatewayLimits::new(4, 3), None)?;
    are_recalled(&rt, rt.alloc(), GatewayLimits::new(4, 100), None)?;
    are_recalled(&rt, rt.alloc(), GatewayLimits::new(4, 100), Some(9))
}

/// Where the room for the keys was refused, the next attempt finds it.
#[test]
fn recalls_after_a_refused_growth(rt: HostRuntime) -> Result<(), Fail> {
    let limits = GatewayLimits::new(4, 100);
    let back = match recalled(rt.alloc(), limits, Some(9), [1, 2, 3]) {
        Ok(back) => back,
        Err(_) => recalled(rt.alloc(), limits, Some(9), [1, 2, 3])?,
    };
    same(&rt, &"three keys", &back.is_some(), &true);
    Ok(())
}
