//! What is found in a CP message.

ghost use Rattle.std.specs.Prelude.{◌≡◌, IfOk, IsOk};
ghost use Rattle.sms_relay.specs.Carried.InnerSeen.{seen_inner};
ghost use Rattle.sms_relay.specs.declared.inner.InnerView.TheVariants as seen;

use crate::fault::RelayFault;
use crate::rp::RpMessage;
use crate::rp::view::RpView;
use sms_tpdu::View;
use std::alloc::{AllocError, Global};

/// What is found in a CP message.
#[derive(Drop)]
pub enum Inner {
    /// Nothing, since it is a CP-ACK or CP-ERROR.
    Empty,
    /// An RP message.
    Relay(RpMessage),
    /// Octets that are no RP message; the place is counted in them.
    Bad { place: usize, why: RelayFault },
}

/// What is found in a CP message, where it lies.
#[derive(Drop)]
pub enum InnerView<'a> {
    /// Nothing, since it is a CP-ACK or CP-ERROR.
    Empty,
    /// An RP message.
    Relay(RpView<'a>),
    /// Octets that are no RP message; the place is counted in them.
    Bad { place: usize, why: RelayFault },
}

impl<'a> InnerView<'a> {
    /// What is found itself.
    pub fn to_value(&self, alloc: Global) -> Result<Inner, AllocError>
        ensures is { IfOk result (λ inner. inner ≡ seen_inner self.now) }
        ensures empty { self.now ≡ seen.Empty → IsOk result }
    {
        match self {
            InnerView::Empty => Ok(Inner::Empty),
            InnerView::Relay(message) => Ok(Inner::Relay(message.to_value(alloc)?)),
            InnerView::Bad { place, why } => Ok(Inner::Bad {
                place: *place,
                why: *why,
            }),
        }
    }
}
