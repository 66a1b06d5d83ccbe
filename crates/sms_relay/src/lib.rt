//! The relay of short messages: RP messages inside CP messages (3GPP TS 24.011, clauses 7 and 8).
#![tactic(auto)]

mod address;
mod cause;
mod cp;
mod cp_kind;
mod fault;
mod inner;
pub mod laws;
pub mod limits;
mod packet;
mod rp;
mod rp_kind;
mod side;
mod transaction;
mod unwrapping;
mod user;
mod wrap;

pub use cp::view::{CpBodyView, CpView};
pub use cp::{CP_USER_DATA_MAX, CpBody, CpMessage};
pub use cp_kind::CpKind;
pub use fault::{RelayFault, WrapFault};
pub use inner::{Inner, InnerView};
pub use rp::view::{RpBodyView, RpView};
pub use rp::{RpBody, RpMessage};
pub use rp_kind::{RpKind, RpType};
pub use side::Side;
pub use transaction::Transaction;
pub use unwrapping::{unwrap, unwrap_view};
pub use user::USER_DATA_MAX;
pub use wrap::{
    wrap_acknowledgement, wrap_acknowledgement_in, wrap_answer, wrap_answer_in, wrap_answer_octets,
    wrap_transfer, wrap_transfer_in, wrap_transfer_octets, wrap_written_in, wrap_written_transfer,
};
