//! Texts that are whole, as they are told.

ghost use Rattle.std.specs.Prelude.{◌≡◌, None, Some, option_copied, OnErr, IfOk};
ghost use Rattle.sms_page.specs.Page.{Puts};
ghost use Rattle.sms_told.specs.Texts.{whole_text};

use crate::address_text::AddressText;
use crate::form::Form;
use crate::parts::{Parts, put_parts};
use crate::party::Party;
use sms_field::Address;
use sms_page::Page;
use std::alloc::{AllocError, Global};
use std::marker::Model;

/// A text that is whole.
#[derive(Drop)]
pub struct Whole<'a> {
    /// The line that had its last segment, where that is told.
    pub line: Option<u64>,
    /// For whom it is, where that is told.
    pub recipient: Option<&'a Address>,
    /// Whom it is from (TP-OA).
    pub origin: &'a Address,
    /// The moment of its last segment, where that has one.
    pub moment: Option<u64>,
    /// The text.
    pub text: &'a str,
}

impl<'a> Model for Whole<'a> {
    ghost use Rattle.std.specs.Prelude.{option_copied};
    ghost use Rattle.sms_told.specs.Texts.{WholeValue};

    ghost Value = { WholeValue };

    ghost view = { λ w. record {
      line = w.line;
      recipient = option_copied w.recipient;
      origin = w.origin.now;
      moment = w.moment;
      text = w.text.now;
    } };
}

/// Adds a text for a recipient, or for none, with the text of its origin.
fn put_to(
    alloc: Global,
    form: Form,
    whole: &Whole<'_>,
    to: Option<Party<'_>>,
    page: &mut Page,
) -> Result<(), AllocError>
    requires { to ≡ whole.now.recipient }
    ensures put { IfOk result (λ _. Puts page.old page.new (whole_text form whole.now)) }
    ensures refused { OnErr result (page.new ≡ page.old) }
{
    let text = AddressText::of(alloc, whole.origin)?;
    let parts = Parts {
        line: whole.line,
        to,
        from: Party::new(whole.origin, &text),
        moment: whole.moment,
        text: whole.text,
    };
    put_parts(alloc, form, &parts, page);
    Ok(())
}

/// Adds a text that is whole: in a line its recipient, where that is told, the moment of its last
/// segment, its origin and itself; as an object of JSON these and its line. Where there is no
/// memory for the name of an address, nothing is added.
pub fn put_whole(
    alloc: Global,
    form: Form,
    whole: &Whole<'_>,
    page: &mut Page,
) -> Result<(), AllocError>
    ensures put { IfOk result (λ _. Puts page.old page.new (whole_text form whole.now)) }
    ensures refused { OnErr result (page.new ≡ page.old) }
{
    let Some(recipient) = whole.recipient else {
        return put_to(alloc, form, whole, None, page);
    };
    let text = AddressText::of(alloc, recipient)?;
    put_to(alloc, form, whole, Some(Party::new(recipient, &text)), page)
}
