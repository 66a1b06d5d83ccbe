//! Remembered keys, put back as they were saved.

ghost use Rattle.std.specs.Prelude.{◌≡◌, ◌<◌, ◌≤◌, ◌^◌, [], length, IfErr, IfOk, MatchResult, OnOk};
ghost use Rattle.sms_saved.specs.Fits.{StateFits};
ghost use Rattle.sms_saved.specs.Spelling.{spelling};
ghost use Rattle.sms_saved.specs.Value.{view};
ghost use Rattle.sms_keep.specs.Held.{AreInTime, KeysHaveAddresses, SetsHaveAddresses};
ghost use Rattle.sms_keep.specs.Restored.{IsBadKey};
ghost use Rattle.sms_keep.specs.Inside.Restoring.{CanFollow, CannotFollow, FailsBy, Remembers};

use crate::fault::{Fault, HeldFault, ReadFault};
use crate::keys::key_from;
use crate::places::place_of_key;
use sms_join::{Gateway, Key};
use sms_saved::{Remembered, State};
use std::alloc::{AllocError, Global};

/// The key, where it can be remembered after one that finished at this moment.
fn judged(alloc: Global, last: u64, own: &Remembered) -> Result<Result<Key, HeldFault>, AllocError>
    ensures { IfOk result (λ judged. MatchResult judged
        (CanFollow last own.now) (CannotFollow last own.now)) }
{
    let Some(key) = key_from(alloc, &own.key)? else {
        return Ok(Err(HeldFault::Address));
    };
    if own.moment < last {
        return Ok(Err(HeldFault::Moments));
    }
    Ok(Ok(key))
}

/// Remembers the keys of a state whose sets have addresses, in a joiner that holds nothing.
pub(crate) fn remember_keys(
    alloc: Global,
    gateway: &mut Gateway,
    state: &State,
) -> Result<(), ReadFault>
    requires none { Remembers gateway.old [] }
    requires fits { StateFits (view state.now) }
    requires sets { SetsHaveAddresses (view state.now).sets }
    requires few { length (view state.now).keys ≤ gateway.old.limits.remembered }
    requires places { length (spelling (view state.now)) < 2 ^ 64 }
    ensures keys { OnOk result (Remembers gateway.new (view state.now).keys) }
    ensures addresses { OnOk result (KeysHaveAddresses (view state.now).keys) }
    ensures in_time { OnOk result (AreInTime 0 (view state.now).keys) }
    ensures limits { gateway.new.limits ≡ gateway.old.limits }
    ensures bad { IfErr result (FailsBy (IsBadKey (view state.now))) }
{
    let keys = state.keys.as_slice();
    gateway.expect(keys.len());
    let mut last = 0;
    for before in 0..keys.len() {
        let own = &keys[before];
        match judged(alloc, last, own)? {
            Ok(key) => gateway.remember(key, own.moment),
            Err(why) => {
                let place = place_of_key(state, before);
                return Err(ReadFault::At(Fault { place, why }));
            }
        }
        last = own.moment;
    }
    Ok(())
}
