//! Reading a packet: a CP message, and the RP message in it.

ghost use Rattle.std.specs.Prelude.{ℕ, IfOk, IfErr};
ghost use Rattle.sms_field.specs.Reading.{Reads, IsRefused};
ghost use Rattle.sms_field.specs.Reading.WholeAnswer.{IsFaultOf};
ghost use Rattle.sms_relay.specs.Cp.{cp_message};
ghost use Rattle.sms_relay.specs.Carried.InnerSeen.{seen_inner};
ghost use Rattle.sms_relay.specs.Carried.Unwrapped.{IsReadAs, Holds, UnwrapsCarried, SeesCarried};
ghost use Rattle.sms_relay.specs.declared.fault.RelayFault.TheVariants.{Short};

use crate::cp::CpMessage;
use crate::cp::view::{CpBodyView, CpView};
use crate::fault::RelayFault;
use crate::inner::{Inner, InnerView};
use crate::rp::view::RpView;
use sms_field::{Fault, Refusal};
use sms_tpdu::View;
use std::alloc::Global;

/// What the octets of a CP-DATA are read as.
#[inline(always)]
fn relay_in<'a>(octets: &'a [u8]) -> InnerView<'a>
    ensures { IsReadAs octets.now (seen_inner result) }
{
    match RpView::read(octets) {
        Ok((message, _)) => InnerView::Relay(message),
        Err(Fault { place, why }) => InnerView::Bad { place, why },
    }
}

/// The CP message at the front of the octets, and what is found in it, where they lie.
#[inline(always)]
pub fn unwrap_view<'a>(octets: &'a [u8]) -> Result<(CpView<'a>, InnerView<'a>), Fault<RelayFault>>
    ensures outer { IfOk result (λ x. (used : ℕ) × Reads cp_message x.0 octets.now used) }
    ensures inner { IfOk result (λ x. Holds x.0.body (seen_inner x.1)) }
    ensures refused { IfErr result (IsFaultOf cp_message Short octets.now) }

    // what was wrapped comes back
    ensures carried { SeesCarried octets.now result }
{
    let (message, _) = CpView::read(octets)?;
    let inner = match &message.body {
        CpBodyView::Transfer(user) => relay_in(user.as_slice()),
        CpBodyView::Ack | CpBodyView::Fail(_) => InnerView::Empty,
    };
    Ok((message, inner))
}

/// The CP message at the front of the octets, and what is found in it.
pub fn unwrap(alloc: Global, octets: &[u8]) -> Result<(CpMessage, Inner), Refusal<RelayFault>>
    ensures outer { IfOk result (λ x. (used : ℕ) × Reads cp_message x.0 octets.now used) }
    ensures inner { IfOk result (λ x. Holds x.0.body x.1) }
    ensures refused { IfErr result (IsRefused cp_message Short octets.now) }

    // what was wrapped comes back, and only want of memory can prevent it
    ensures carried { UnwrapsCarried octets.now result }
{
    let (message, inner) = unwrap_view(octets)?;
    let message = message.to_value(alloc)?;
    let inner = inner.to_value(alloc)?;
    Ok((message, inner))
}
