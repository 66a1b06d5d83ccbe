//! Units with a text that are encoded: the line of its octets, one for each segment of the text.
#![tactic(auto)]

mod addresses;
mod draft;
mod fault;
mod frame;
mod lines;
mod options;
mod unit;

pub use addresses::{NoAddress, address_of};
pub use draft::{Draft, DraftKind};
pub use fault::EncodeFault;
pub use lines::put_units;
