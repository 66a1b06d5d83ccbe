//! Messages between a phone and the service centre: what a packet carries, how octets are read, and
//! what a party answers and puts out.
#![tactic(auto)]

pub mod failure_cause;
mod glance;
mod laws;
mod look;
mod message;
mod outcome;
pub mod packets;
mod reading;
mod request;
pub mod rp_cause;
mod spare;

pub use glance::{Glance, RelayGlance, glance_at};
pub use laws::{
    carried_messages_are_read, octets_are_read_as_a_message, octets_are_read_as_one_message,
};
pub use look::{Look, look_at};
pub use message::{Message, Relay, Report, Tag, TransferUnit};
pub use outcome::{Dropped, Outcome, Packets, Step};
pub use reading::read_message;
pub use request::{NotTaken, delivery_from, submission_from, unit_from};
pub use spare::Spare;
