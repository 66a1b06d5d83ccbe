//! Octets as what a joiner holds.

ghost use Rattle.std.specs.Prelude.{◌≡◌, ℕ, ◌<◌, ◌^◌, length, IfErr, IfOk, MatchResult, OnOk};
ghost use Rattle.sms_join.specs.Gateway.Value.{GatewayValue};
ghost use Rattle.sms_saved.specs.Fits.{StateFits};
ghost use Rattle.sms_saved.specs.Reading.Whole.{placed, state_at};
ghost use Rattle.sms_saved.specs.Spelling.{spelling};
ghost use Rattle.sms_saved.specs.Value.{StateValue, view};
ghost use Rattle.sms_keep.specs.Saved.{saved, saved_limits};
ghost use Rattle.sms_keep.specs.Held.{AreAlike, CanBeSaved, CanHold, SetsHaveAddresses};
ghost use Rattle.sms_keep.specs.Restored.{HoldsRestored, IsBadSet, Restores};
ghost use Rattle.sms_keep.specs.Inside.Restoring.{FailsBy, TellsGateway, TellsOf, IsNew};
ghost use Rattle.sms_keep.specs.declared.fault.ReadFault.TheVariants.{Memory};

use crate::at_once::read_at_once;
use crate::fault::{Fault, HeldFault, ReadFault};
use crate::keys::key_from;
use crate::keys_back::remember_keys;
use crate::places::place_of_set;
use crate::saving::limits_of;
use crate::sets_back::put_sets_back;
use sms_join::{Gateway, GatewayLimits};
use sms_saved::laws::states_have_own_octets;
use sms_saved::{State, read as read_state};
use std::alloc::{AllocError, Global};

/// A joiner that was read back.
#[derive(Drop)]
pub struct Restored {
    /// What it held.
    pub gateway: Gateway,
    /// How many lines of its input were taken before.
    pub taken: u64,
}

/// What is told of octets that are no state.
fn fault_from(fault: sms_saved::ReadFault) -> ReadFault
    ensures { TellsOf fault result }
{
    match fault {
        sms_saved::ReadFault::Memory => ReadFault::Memory,
        sms_saved::ReadFault::At(fault) => ReadFault::At(Fault {
            place: fault.place,
            why: HeldFault::State(fault.why),
        }),
    }
}

/// Whether the sets of a state have keys that a joiner can hold.
fn check_sets(alloc: Global, state: &State) -> Result<(), ReadFault>
    requires { length (spelling (view state.now)) < 2 ^ 64 }
    ensures good { OnOk result (SetsHaveAddresses (view state.now).sets) }
    ensures bad { IfErr result (FailsBy (IsBadSet (view state.now))) }
{
    let sets = state.sets.as_slice();
    for before in 0..sets.len() {
        if key_from(alloc, &sets[before].key)?.is_none() {
            let place = place_of_set(state, before);
            let why = HeldFault::Address;
            return Err(ReadFault::At(Fault { place, why }));
        }
    }
    Ok(())
}

/// A joiner that holds nothing, whose tables hash with the seed, if there is one.
fn new_gateway(
    alloc: Global,
    seed: Option<u128>,
    limits: GatewayLimits,
) -> Result<Gateway, AllocError>
    ensures { IfOk result (IsNew limits) }
{
    match seed {
        None => Gateway::new(alloc, limits),
        Some(seed) => Gateway::with_seed(alloc, limits, seed),
    }
}

/// The joiner that holds the state. The sets' units are moved.
fn hold(
    alloc: Global,
    seed: Option<u128>,
    limits: GatewayLimits,
    state: State,
) -> Result<Gateway, ReadFault>
    requires fits { StateFits (view state) }
    requires same { (view state).limits ≡ saved_limits limits }
    requires places { length (spelling (view state)) < 2 ^ 64 }
    ensures { TellsGateway result (view state) }
{
    check_sets(alloc, &state)?;
    let mut gateway = new_gateway(alloc, seed, limits)?;
    remember_keys(alloc, &mut gateway, &state)?;
    if !put_sets_back(alloc, &mut gateway, state.sets)? {
        unreachable!()
    }
    let _open = gateway.open_sets();
    let _count = gateway.remembered_count();
    Ok(gateway)
}

/// The joiner with these limits that holds what the octets spell, all of them, and how many lines
/// of its input were taken before (docs/SAVED.md). Its tables hash with the seed, if there is one;
/// it does not show. Room is asked for no more entries than the octets can hold, whatever the
/// counts say.
pub fn read(
    alloc: Global,
    seed: Option<u128>,
    limits: GatewayLimits,
    octets: &[u8],
) -> Result<Restored, ReadFault>
    // What is read is spelled so, is of a joiner with these limits, and the joiner holds it.
    ensures found { IfOk result (λ r. (s : StateValue) × StateFits s
        × (s.limits ≡ saved_limits limits) × (octets.now ≡ spelling s) × HoldsRestored s r) }
    // What is spelled so and a joiner can hold is read, unless memory runs out.
    ensures only { (s : StateValue) → StateFits s → s.limits ≡ saved_limits limits → CanHold s
        → octets.now ≡ spelling s
        → MatchResult result (HoldsRestored s) (λ e. e ≡ Memory) }
    // What is saved is read back, unless memory runs out: a joiner that differs in the numbers of
    // openings alone.
    ensures again { (g : GatewayValue) (taken : ℕ) → CanBeSaved g taken → g.limits ≡ limits
        → octets.now ≡ spelling (saved g taken)
        → MatchResult result (λ r. (r.taken ≡ taken) × AreAlike r.gateway g)
        (λ e. e ≡ Memory) }
    // Which fault it is, and where.
    ensures exact { Restores result
        (placed (length octets.now) (state_at (saved_limits limits) octets.now)) }
{
    states_have_own_octets();
    let own = limits_of(limits);
    if let Some(restored) = read_at_once(alloc, seed, limits, own, octets)? {
        return Ok(restored);
    }
    let state = match read_state(alloc, seed.unwrap_or(0), own, octets) {
        Ok(state) => state,
        Err(fault) => return Err(fault_from(fault)),
    };
    let taken = state.taken;
    match hold(alloc, seed, limits, state) {
        Ok(gateway) => Ok(Restored { gateway, taken }),
        Err(fault) => Err(fault),
    }
}
