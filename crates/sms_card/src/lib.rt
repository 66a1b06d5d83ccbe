//! Records of a card's file of short messages, EF-SMS (3GPP TS 51.011, 10.5.3; TS 31.102, 4.2.25).
#![tactic(auto)]

mod centre;
mod fault;
pub mod laws;
pub mod limits;
mod originated;
mod padding;
mod parts;
mod received;
mod report;
mod status;
mod stored;

pub use fault::{RecordFault, WriteFault};
pub use originated::OriginatedUnit;
pub use originated::view::OriginatedView;
pub use received::ReceivedUnit;
pub use received::view::ReceivedView;
pub use status::{ReportState, Status};
pub use stored::view::RecordView;
pub use stored::{RECORD_LENGTH, Record};
