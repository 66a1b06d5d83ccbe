//! All sets that are not whole, and those that are dropped, as they are told.

ghost use Rattle.std.specs.Prelude.{◌≡◌, codes, IfOk, OnErr};
ghost use Rattle.std.specs.List.{flat_map};
ghost use Rattle.sms_join.specs.OpenSets.Told.{old_after};
ghost use Rattle.sms_page.specs.Page.{Puts};
ghost use Rattle.sms_told.specs.Sets.{PutsFirst, set_text};

use crate::form::Form;
use crate::open_set::put_open;
use sms_join::Gateway;
use sms_join::walks::open_sets_are_walked;
use sms_page::Page;
use std::alloc::{AllocError, Global};

/// Adds the open sets of a joiner, in order of opening. Where there is no memory for the name of an
/// address, those before its set are added.
pub fn put_open_sets(
    alloc: Global,
    form: Form,
    gateway: &Gateway,
    page: &mut Page,
) -> Result<(), AllocError>
    ensures put { IfOk result (λ _. Puts page.old page.new
        (flat_map (set_text form (codes "open")) gateway.now.told)) }
    ensures refused { OnErr result (PutsFirst page.old page.new
        (set_text form (codes "open")) gateway.now.told) }
{
    for set in gateway.open_sets() {
        put_open(alloc, form, "open", &set, page)?;
    }
    Ok(())
}

/// Adds the sets that `age` drops at a moment, in order of opening. Where there is no memory for
/// the name of an address, those before its set are added.
pub fn put_old_sets(
    alloc: Global,
    form: Form,
    gateway: &Gateway,
    now: u64,
    page: &mut Page,
) -> Result<(), AllocError>
    ensures put { IfOk result (λ _. Puts page.old page.new
        (flat_map (set_text form (codes "dropped"))
        (old_after gateway.now.limits.open_for now gateway.now.told))) }
    ensures refused { OnErr result (PutsFirst page.old page.new
        (set_text form (codes "dropped"))
        (old_after gateway.now.limits.open_for now gateway.now.told)) }
{
    open_sets_are_walked();
    let _open = gateway.open_sets();
    let count = gateway.open_count();
    let mut told = 0;
    let mut next = gateway.old_from(0, now);
    while told < count {
        let Some(set) = next else {
            return Ok(());
        };
        put_open(alloc, form, "dropped", &set, page)?;
        next = gateway.old_from(set.turn() + 1, now);
        told += 1;
    }
    Ok(())
}
