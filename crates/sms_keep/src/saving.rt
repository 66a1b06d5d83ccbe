//! What a joiner holds, as octets.

ghost use Rattle.std.specs.Prelude.{◌≡◌, ◌<◌, ◌++◌, ◌^◌, length, OnOk, IfOk};
ghost use Rattle.std.specs.List.{AllByRecursion, flat_map};
ghost use Rattle.sms_saved.specs.Fits.{LimitsFit};
ghost use Rattle.sms_saved.specs.Spelling.{body, counted, digest, remembered, spelling};
ghost use Rattle.sms_keep.specs.Saved.{next_opening, passes, saved, saved_finishings, saved_key, saved_limits};
ghost use Rattle.sms_keep.specs.Held.{CanBeSaved};
ghost use Rattle.sms_keep.specs.Inside.Saving.{KeyIsSound};

use crate::keys::key_of;
use crate::sets::put_sets;
use sms_join::{Alone, Gateway, GatewayLimits, Key, ToldSets};
use sms_saved::laws::keys_have_own_octets;
use sms_saved::{ADDRESS_MAX, Limits, Writer};
use std::alloc::{AllocError, Global};

/// Whether messages in one piece are passed through.
fn passes(alone: Alone) -> bool
    ensures { result ≡ passes alone }
{
    match alone {
        Alone::Remembered => false,
        Alone::Passed => true,
    }
}

/// What the joiner was made with.
pub(crate) fn limits_of(limits: GatewayLimits) -> Limits
    ensures value { result ≡ saved_limits limits }
    ensures fit { LimitsFit (saved_limits limits) }
{
    Limits {
        sets: limits.open_max() as u64,
        keys: limits.remembered() as u64,
        age_of_sets: limits.longest_open(),
        age_of_keys: limits.longest_remembered(),
        passes_singles: passes(limits.of_alone()),
    }
}

/// The number of the next opening: one above that of the last one that is open.
fn next_of(sets: ToldSets<'_>) -> Result<u64, AllocError>
    ensures value { IfOk result (λ next. next ≡ next_opening sets.entry) }
    ensures fits { OnOk result (next_opening sets.entry < 2 ^ 64) }
{
    let mut next = 0;
    for set in sets {
        next = set.turn().checked_add(1).ok_or(AllocError)?;
    }
    Ok(next)
}

/// The key of a message, and the moment at which it finished.
#[inline(always)]
fn put_finished(
    room: &mut Vec<u8>,
    writer: &mut Writer,
    key: &Key,
    moment: u64,
) -> Result<(), AllocError>
    ensures value { OnOk result (writer.new
        ≡ writer.old ++ remembered (record { key = saved_key key.now; moment = moment })) }
    ensures sound { OnOk result (KeyIsSound key.now) }
    ensures fits { moment < 2 ^ 64 }
{
    writer.put_key(&key_of(room, key)?, moment)
}

/// The keys that are remembered, the oldest first.
fn put_keys(room: &mut Vec<u8>, writer: &mut Writer, gateway: &Gateway) -> Result<(), AllocError>
    ensures value { OnOk result (writer.new ≡ writer.old ++ counted remembered
        (saved_finishings gateway.now.holds.finished gateway.now.finishings)) }
    ensures sound { OnOk result (AllByRecursion KeyIsSound gateway.now.holds.finished) }
    ensures moments { OnOk result (AllByRecursion (λ m. m < 2 ^ 64) gateway.now.finishings) }
{
    let count = gateway.remembered_count();
    writer.begin_keys(count)?;
    for done in 0..count {
        match gateway.remembered_at(count - 1 - done) {
            None => unreachable!(),
            Some(own) => put_finished(room, writer, own.key, own.moment)?,
        }
    }
    Ok(())
}

/// All that the joiner holds, and how many lines of its input were taken, before the checksum is
/// made of it (docs/SAVED.md): whoever has too little room is told so in less time.
#[tactic(auto, unfolding(sms_saved::specs::Spelling::body))]
pub fn written(alloc: Global, gateway: &Gateway, taken: u64) -> Result<Writer, AllocError>
    ensures spelled { IfOk result (λ w. w ++ digest w ≡ spelling (saved gateway.now taken)) }
    // So it is read back, by `again` of `read`.
    ensures fits { OnOk result (CanBeSaved gateway.now taken) }
{
    keys_have_own_octets();
    let _count = gateway.remembered_count();
    let limits = limits_of(gateway.limits());
    let next = next_of(gateway.open_sets())?;
    let mut writer = Writer::begin(alloc, limits, taken, next, gateway.open_count())?;
    let mut room = Vec::with_capacity(alloc, ADDRESS_MAX)?;
    put_sets(&mut room, &mut writer, gateway.open_sets())?;
    put_keys(&mut room, &mut writer, gateway)?;
    Ok(writer)
}

/// All that the joiner holds, as octets, and how many lines of its input were taken
/// (docs/SAVED.md).
pub fn save(alloc: Global, gateway: &Gateway, taken: u64) -> Result<Vec<u8>, AllocError>
    ensures spelled { IfOk result (λ v. v.items ≡ spelling (saved gateway.now taken)) }
    // So it is read back, by `again` of `read`.
    ensures fits { OnOk result (CanBeSaved gateway.now taken) }
{
    written(alloc, gateway, taken)?.end()
}
