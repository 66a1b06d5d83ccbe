//! Sets of segments that are not whole, as they are told.

ghost use Rattle.std.specs.Prelude.{◌≡◌, true, option_copied, IfOk, OnErr};
ghost use Rattle.std.specs.List.{list_all};
ghost use Rattle.sms_join.specs.Key.{maximum_of};
ghost use Rattle.sms_page.specs.Page.{Puts};
ghost use Rattle.sms_page.specs.Plain.{is_plain};
ghost use Rattle.sms_told.specs.Sets.{missing, set_text, shared_text};

use crate::address_text::AddressText;
use crate::form::Form;
use crate::party::Party;
use crate::set_parts::{SetParts, put_set_parts};
use crate::shared::{Shared, shared_in};
use sms_join::OpenSet;
use sms_page::Page;
use std::alloc::{AllocError, Global};

/// Adds a set for a recipient, or for none, with the text of its origin.
fn put_to(
    alloc: Global,
    form: Form,
    name: &str,
    shared: &Shared<'_>,
    to: Option<Party<'_>>,
    set: &OpenSet<'_>,
    page: &mut Page,
) -> Result<(), AllocError>
    requires plain { list_all (is_plain 34) name.now ≡ true }
    requires to { to ≡ shared.now.recipient }
    ensures put { IfOk result (λ _. Puts page.old page.new (shared_text form name.now shared.now
        (missing (maximum_of set.now.key) set.now.sequences))) }
    ensures refused { OnErr result (page.new ≡ page.old) }
{
    let text = AddressText::of(alloc, shared.origin)?;
    let parts = SetParts {
        to,
        from: Party::new(shared.origin, &text),
        width: shared.width,
        reference: shared.reference,
        maximum: shared.maximum,
    };
    put_set_parts(alloc, form, name, &parts, set, page);
    Ok(())
}

/// Adds what the segments of a set share, and which are missing.
fn put_shared(
    alloc: Global,
    form: Form,
    name: &str,
    shared: &Shared<'_>,
    set: &OpenSet<'_>,
    page: &mut Page,
) -> Result<(), AllocError>
    requires { list_all (is_plain 34) name.now ≡ true }
    ensures put { IfOk result (λ _. Puts page.old page.new (shared_text form name.now shared.now
        (missing (maximum_of set.now.key) set.now.sequences))) }
    ensures refused { OnErr result (page.new ≡ page.old) }
{
    let Some(recipient) = shared.recipient else {
        return put_to(alloc, form, name, shared, None, set, page);
    };
    let text = AddressText::of(alloc, recipient)?;
    let to = Some(Party::new(recipient, &text));
    put_to(alloc, form, name, shared, to, set, page)
}

/// Adds a set that is not whole, under a name, which has no character that JSON escapes: what its
/// segments share, and which are missing. Where there is no memory for the name of an address,
/// nothing is added.
pub fn put_open(
    alloc: Global,
    form: Form,
    name: &str,
    set: &OpenSet<'_>,
    page: &mut Page,
) -> Result<(), AllocError>
    requires { list_all (is_plain 34) name.now ≡ true }
    ensures put { IfOk result (λ _. Puts page.old page.new (set_text form name.now set.now)) }
    ensures refused { OnErr result (page.new ≡ page.old) }
{
    match shared_in(set.key()) {
        Some(shared) => put_shared(alloc, form, name, &shared, set, page),
        None => Ok(()),
    }
}
