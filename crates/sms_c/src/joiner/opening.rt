//! A joiner of C opened.

ghost use Rattle.std.specs.Prelude.{[], ◌≡◌, ◌≢◌, ◌<◌, ◌⊎◌, ◌↔◌, None, Err, IfSome, IfOk, IfErr};
ghost use Rattle.std.specs.String.{string_bytes};
ghost use Rattle.sms_join.specs.Joiner.{new_joiner};
ghost use Rattle.sms_c.specs.Kept.{count};
ghost use Rattle.sms_c.specs.declared.status.Failure.TheVariants.{Memory};

use crate::joiner::Handle;
use crate::joiner::inside::Inside;
use crate::status::{Failure, OK};
use sms_join::Joiner;
use std::alloc::{AllocError, Global};
use std::mem;

/// A joiner that holds nothing. With a seed its tables hash by that.
fn empty(
    alloc: Global,
    open_max: usize,
    remembered: usize,
    seed: Option<u128>,
) -> Result<Joiner, AllocError>
    requires sets { 0 < open_max }
    requires keys { 0 < remembered }
    ensures { IfOk result (λ joiner. joiner ≡ record {
      open_max = open_max;
      remembered = remembered;
      holds = new_joiner;
      told = [];
    }) }
{
    match seed {
        None => Joiner::new(alloc, open_max, remembered),
        Some(seed) => Joiner::with_seed(alloc, open_max, remembered, seed),
    }
}

/// A box with a joiner that holds nothing.
fn opened(
    alloc: Global,
    open_max: usize,
    remembered: usize,
    seed: Option<u128>,
) -> Result<Box<Inside, Global>, Failure>
    requires sets { 0 < open_max }
    requires keys { 0 < remembered }
    ensures holds { IfOk result (λ inside. inside.value.joiner
        ≡ record {
          open_max = open_max;
          remembered = remembered;
          holds = new_joiner;
          told = [];
        }) }
    ensures text { IfOk result (λ inside. string_bytes inside.value.text ≡ []) }
    ensures changes { IfOk result (λ inside. inside.value.changes ≡ 1) }
    ensures memory { IfErr result (λ why. why ≡ Memory) }
{
    let joiner = empty(alloc, open_max, remembered, seed)?;
    let inside = Inside {
        joiner,
        text: String::new(alloc),
        changes: 1,
    };
    Ok(Box::new(alloc, inside)?)
}

/// Opens a joiner, which is closed first, unless a limit is 0: then it is as it was.
fn reopen(
    alloc: Global,
    handle: &mut Handle,
    open_max: usize,
    remembered: usize,
    seed: Option<u128>,
) -> u32
    ensures range { (result ≡ 7) ↔ ((open_max ≡ 0) ⊎ (remembered ≡ 0)) }
    ensures same { result ≡ 7 → handle.new ≡ handle.old }
    ensures closed { result ≢ 0 → result ≢ 7 → handle.new.kept.held ≡ None }
    ensures answered { result ≢ 7 → (result ≡ 0) ⊎ (result ≡ 2) }
    ensures held { result ≡ 0 → count handle.new.kept.held ≡ 1 }
    ensures text { result ≡ 0 → IfSome handle.new.kept.held (λ inside.
        string_bytes inside.text ≡ []) }
    ensures holds { result ≡ 0 → IfSome handle.new.kept.held (λ inside. inside.joiner
        ≡ record {
          open_max = open_max;
          remembered = remembered;
          holds = new_joiner;
          told = [];
        }) }
    ensures changes { result ≡ 0 → IfSome handle.new.kept.held (λ inside.
        inside.changes ≡ 1) }
{
    if open_max == 0 || remembered == 0 {
        return Failure::OutOfRange.status();
    }
    let old = mem::replace(handle, Handle::closed(alloc)).into_box();
    drop(old);
    match opened(alloc, open_max, remembered, seed) {
        Ok(inside) => {
            *handle = Handle::of(inside);
            OK
        }
        Err(failure) => failure.status(),
    }
}

/// Opens a joiner.
#[unsafe(no_mangle)]
pub extern "C" fn sms_joiner_open(
    alloc: Global,
    handle: &mut Handle,
    open_max: usize,
    remembered: usize,
) -> u32
    ensures range { (result ≡ 7) ↔ ((open_max ≡ 0) ⊎ (remembered ≡ 0)) }
    ensures same { result ≡ 7 → handle.new ≡ handle.old }
    ensures closed { result ≢ 0 → result ≢ 7 → handle.new.kept.held ≡ None }
    ensures answered { result ≢ 7 → (result ≡ 0) ⊎ (result ≡ 2) }
    ensures held { result ≡ 0 → count handle.new.kept.held ≡ 1 }
    ensures text { result ≡ 0 → IfSome handle.new.kept.held (λ inside.
        string_bytes inside.text ≡ []) }
    ensures holds { result ≡ 0 → IfSome handle.new.kept.held (λ inside. inside.joiner
        ≡ record {
          open_max = open_max;
          remembered = remembered;
          holds = new_joiner;
          told = [];
        }) }
    ensures changes { result ≡ 0 → IfSome handle.new.kept.held (λ inside.
        inside.changes ≡ 1) }
{
    reopen(alloc, handle, open_max, remembered, None)
}

/// Opens a joiner whose tables hash with a seed: the one half of it, and the other.
#[unsafe(no_mangle)]
pub extern "C" fn sms_joiner_open_seeded(
    alloc: Global,
    handle: &mut Handle,
    open_max: usize,
    remembered: usize,
    seed_low: u64,
    seed_high: u64,
) -> u32
    ensures range { (result ≡ 7) ↔ ((open_max ≡ 0) ⊎ (remembered ≡ 0)) }
    ensures same { result ≡ 7 → handle.new ≡ handle.old }
    ensures closed { result ≢ 0 → result ≢ 7 → handle.new.kept.held ≡ None }
    ensures answered { result ≢ 7 → (result ≡ 0) ⊎ (result ≡ 2) }
    ensures held { result ≡ 0 → count handle.new.kept.held ≡ 1 }
    ensures text { result ≡ 0 → IfSome handle.new.kept.held (λ inside.
        string_bytes inside.text ≡ []) }
    ensures holds { result ≡ 0 → IfSome handle.new.kept.held (λ inside. inside.joiner
        ≡ record {
          open_max = open_max;
          remembered = remembered;
          holds = new_joiner;
          told = [];
        }) }
    ensures changes { result ≡ 0 → IfSome handle.new.kept.held (λ inside.
        inside.changes ≡ 1) }
{
    let seed = u128::from(seed_high) << 64 | u128::from(seed_low);
    reopen(alloc, handle, open_max, remembered, Some(seed))
}
