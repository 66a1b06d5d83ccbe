//! A state that is held as it is read: each remembered key goes from its octets to its place.

ghost use Rattle.std.specs.Prelude.{◌≡◌, ◌≤◌, [], drop, IfOk, IfSome};
ghost use Rattle.std.specs.Str.{bytes_eq};
ghost use Rattle.sms_saved.specs.Parts.{unsealed};
ghost use Rattle.sms_keep.specs.Saved.{saved_limits};
ghost use Rattle.sms_keep.specs.Inside.AtOnce.{AreTaken, IsReadAs};
ghost use Rattle.sms_keep.specs.Inside.Restoring.{Remembers};

use crate::keys::key_in;
use crate::restoring::Restored;
use crate::sets_back::put_sets_back;
use sms_join::{GatewayLimits, Recalling};
use sms_saved::laws::{keys_have_own_octets, parts_make_a_state};
use sms_saved::{Limits, is_sealed, read_front, read_remembered};
use std::alloc::{AllocError, Global};

/// Remembers so many keys from the front of the octets, in a joiner that holds nothing, and hands
/// on the octets after them; none where one of them cannot be remembered. Whether one comes twice
/// is not told.
fn take_keys<'a>(
    alloc: Global,
    recalling: &mut Recalling,
    count: u64,
    octets: &'a [u8],
) -> Result<Option<&'a [u8]>, AllocError>
    requires none { Remembers recalling.old [] }
    requires few { count ≤ recalling.old.limits.remembered }
    ensures taken { IfOk result (λ behind. IfSome behind
        (λ rest. AreTaken recalling.new count octets.now rest.now)) }
    ensures limits { recalling.new.limits ≡ recalling.old.limits }
{
    let mut rest = octets;
    let mut last = 0;
    for _ in 0..count {
        let Some((own, after)) = read_remembered(rest) else {
            return Ok(None);
        };
        let Some(key) = key_in(alloc, own.key)? else {
            return Ok(None);
        };
        if own.moment < last {
            return Ok(None);
        }
        recalling.remember(key, own.moment);
        last = own.moment;
        rest = after;
    }
    Ok(Some(rest))
}

/// Whether these are the last 32 octets.
fn are_last(octets: &[u8], rest: &[u8]) -> bool
    ensures { result ≡ bytes_eq rest.now (drop (unsealed octets.now) octets.now) }
{
    let (_, last) = octets.split_at(octets.len().saturating_sub(32));
    rest == last
}

/// The joiner that holds what the octets spell; none where they are no state that it can hold, and
/// `read` tells why.
pub(crate) fn read_at_once(
    alloc: Global,
    seed: Option<u128>,
    limits: GatewayLimits,
    own: Limits,
    octets: &[u8],
) -> Result<Option<Restored>, AllocError>
    requires { own ≡ saved_limits limits }
    ensures { IfOk result (λ back. IfSome back (IsReadAs own octets.now)) }
{
    keys_have_own_octets();
    parts_make_a_state();
    let Some(front) = read_front(alloc, seed.unwrap_or(0), own, octets)? else {
        return Ok(None);
    };
    let mut recalling = Recalling::new(alloc, limits, seed)?;
    let Some(rest) = take_keys(alloc, &mut recalling, front.count, front.rest)? else {
        return Ok(None);
    };
    if !are_last(octets, rest) || !is_sealed(octets) {
        return Ok(None);
    }
    let Some(mut gateway) = recalling.end() else {
        return Ok(None);
    };
    let _remembered = gateway.remembered_count();
    let taken = front.taken;
    if !put_sets_back(alloc, &mut gateway, front.sets)? {
        return Ok(None);
    }
    let _open = gateway.open_sets();
    let _count = gateway.remembered_count();
    Ok(Some(Restored { gateway, taken }))
}
