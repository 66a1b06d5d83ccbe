//! A joiner for many recipients of C opened with what it held.

ghost use Rattle.std.specs.Prelude.{[], ◌≡◌, ◌≢◌, ℕ, ◌⊎◌, ◌↔◌, false, true, IfSome, IfOk, IfErr, MatchResult};
ghost use Rattle.std.specs.String.{string_bytes};
ghost use Rattle.sms_join.specs.Gateway.Value.{GatewayValue};
ghost use Rattle.sms_saved.specs.Fits.{StateFits};
ghost use Rattle.sms_saved.specs.Spelling.{spelling};
ghost use Rattle.sms_saved.specs.Value.{StateValue};
ghost use Rattle.sms_keep.specs.Held.{AreAlike, CanBeSaved, CanHold};
ghost use Rattle.sms_keep.specs.Saved.{saved_limits};
ghost use Rattle.sms_c.specs.GatewayKept.{count};
ghost use Rattle.sms_c.specs.GatewayLimits.{fits_limits, limits_of as limits_told};
ghost use Rattle.sms_c.specs.GatewayStates.{IsReadBack, SaysRead, octets_of_state, state_in};
ghost use Rattle.sms_c.specs.Status.{status_in};
ghost use Rattle.sms_c.specs.declared.status.Failure.TheVariants.{Memory, Refused as TheRefused};

use crate::gateway::GatewayHandle;
use crate::gateway::inside::Inside;
use crate::gateway::limits::{Limits, fits, limits_of, seed_of};
use crate::status::{Failure, OK, Refused, held_refused};
use sms_join::Gateway;
use sms_keep::{ReadFault, Restored, read};
use std::alloc::{AllocError, Global};
use std::mem;

/// What a joiner holds that was read back, in a box, and how much of its input was taken before.
#[derive(Drop)]
struct Back {
    inside: Box<Inside, Global>,
    taken: u64,
}

/// The joiner with these limits that holds what the octets say, and what they say was taken.
fn restored(
    alloc: Global,
    limits: &Limits,
    octets: &[u8],
    refused: &mut Refused,
) -> Result<Restored, Failure>
    requires { fits_limits limits.now ≡ true }
    ensures found { IfOk result (λ it. IsReadBack limits.now octets.now it.taken it.gateway) }
    ensures only { (s : StateValue) → StateFits s
        → s.limits ≡ saved_limits (limits_told limits.now) → CanHold s
        → octets.now ≡ spelling s → (status_in result ≡ 0) ⊎ (status_in result ≡ 2) }
    ensures again { (g : GatewayValue) (n : ℕ) → CanBeSaved g n
        → g.limits ≡ limits_told limits.now → octets.now ≡ octets_of_state g n
        → MatchResult result (λ it. (it.taken ≡ n) × AreAlike it.gateway g)
        (λ why. why ≡ Memory) }
    ensures exact { SaysRead (state_in limits.now octets.now) (status_in result) refused.new }
    ensures untold { (status_in result ≡ 1 → ⊥) → refused.new ≡ refused.old }
    ensures answered { IfErr result (λ why. (why ≡ TheRefused) ⊎ (why ≡ Memory)) }
{
    match read(alloc, seed_of(limits), limits_of(limits), octets) {
        Ok(it) => Ok(it),
        Err(ReadFault::Memory) => Err(Failure::Memory),
        Err(ReadFault::At(fault)) => {
            held_refused(refused, fault);
            Err(Failure::Refused)
        }
    }
}

/// A box with a joiner that holds this, and in which no text has finished yet.
fn boxed(alloc: Global, gateway: Gateway) -> Result<Box<Inside, Global>, AllocError>
    ensures holds { IfOk result (λ inside. inside.value.gateway ≡ gateway) }
    ensures text { IfOk result (λ inside. string_bytes inside.value.text ≡ []) }
    ensures changes { IfOk result (λ inside. inside.value.changes ≡ 1) }
{
    let inside = Inside {
        gateway,
        text: String::new(alloc),
        changes: 1,
    };
    Ok(Box::new(alloc, inside)?)
}

/// The same in a box.
fn read_back(
    alloc: Global,
    limits: &Limits,
    octets: &[u8],
    refused: &mut Refused,
) -> Result<Back, Failure>
    requires { fits_limits limits.now ≡ true }
    ensures found { IfOk result (λ it.
        IsReadBack limits.now octets.now it.taken it.inside.value.gateway) }
    ensures text { IfOk result (λ it. string_bytes it.inside.value.text ≡ []) }
    ensures changes { IfOk result (λ it. it.inside.value.changes ≡ 1) }
    ensures only { (s : StateValue) → StateFits s
        → s.limits ≡ saved_limits (limits_told limits.now) → CanHold s
        → octets.now ≡ spelling s → (status_in result ≡ 0) ⊎ (status_in result ≡ 2) }
    ensures again { (g : GatewayValue) (n : ℕ) → CanBeSaved g n
        → g.limits ≡ limits_told limits.now → octets.now ≡ octets_of_state g n
        → MatchResult result (λ it. (it.taken ≡ n) × AreAlike it.inside.value.gateway g)
        (λ why. why ≡ Memory) }
    ensures exact { SaysRead (state_in limits.now octets.now) (status_in result) refused.new }
    ensures untold { (status_in result ≡ 1 → ⊥) → refused.new ≡ refused.old }
    ensures answered { IfErr result (λ why. (why ≡ TheRefused) ⊎ (why ≡ Memory)) }
{
    let Restored { gateway, taken } = restored(alloc, limits, octets, refused)?;
    let inside = boxed(alloc, gateway)?;
    Ok(Back { inside, taken })
}

/// Opens a joiner for many recipients with what the octets say that it held, and tells how much of
/// its input was taken before. Where they say none it is as it was.
#[unsafe(no_mangle)]
pub extern "C" fn sms_gateway_read(
    alloc: Global,
    gateway: &mut GatewayHandle,
    limits: &Limits,
    octets: &[u8],
    taken: &mut u64,
    refused: &mut Refused,
) -> u32
    ensures range { (result ≡ 7) ↔ (fits_limits limits.now ≡ false) }
    ensures same { result ≢ 0 → gateway.new ≡ gateway.old }
    ensures untaken { result ≢ 0 → taken.new ≡ taken.old }
    ensures untold { (result ≡ 1 → ⊥) → refused.new ≡ refused.old }
    ensures answered { result ≢ 7 → (result ≡ 0) ⊎ (result ≡ 1) ⊎ (result ≡ 2) }
    ensures held { result ≡ 0 → count gateway.new.kept.held ≡ 1 }
    // What is read is a state of a joiner with these limits, which holds it.
    ensures found { result ≡ 0 → IfSome gateway.new.kept.held (λ inside.
        IsReadBack limits.now octets.now taken.new inside.gateway) }
    ensures text { result ≡ 0 → IfSome gateway.new.kept.held (λ inside.
        string_bytes inside.text ≡ []) }
    ensures changes { result ≡ 0 → IfSome gateway.new.kept.held (λ inside.
        inside.changes ≡ 1) }
    // A state that a joiner with these limits can hold is read, unless memory runs out.
    ensures only { fits_limits limits.now ≡ true → (s : StateValue) → StateFits s
        → s.limits ≡ saved_limits (limits_told limits.now) → CanHold s
        → octets.now ≡ spelling s → (result ≡ 0) ⊎ (result ≡ 2) }
    // What is saved is read back, unless memory runs out: a joiner that differs in the numbers of
    // openings alone.
    ensures again { fits_limits limits.now ≡ true → (g : GatewayValue) (n : ℕ)
        → CanBeSaved g n → g.limits ≡ limits_told limits.now
        → octets.now ≡ octets_of_state g n
        → (result ≢ 2) → (taken.new ≡ n)
        × IfSome gateway.new.kept.held (λ inside. AreAlike inside.gateway g) }
    // Which fault it is, and where.
    ensures exact { fits_limits limits.now ≡ true
        → SaysRead (state_in limits.now octets.now) result refused.new }
{
    if !fits(limits) {
        return Failure::OutOfRange.status();
    }
    match read_back(alloc, limits, octets, refused) {
        Ok(it) => {
            let Back {
                inside,
                taken: before,
            } = it;
            let old = mem::replace(gateway, GatewayHandle::of(inside)).into_box();
            drop(old);
            *taken = before;
            OK
        }
        Err(failure) => failure.status(),
    }
}
