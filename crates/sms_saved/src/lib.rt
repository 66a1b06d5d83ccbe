//! What a joiner holds as octets, for the next start of its program.
#![tactic(auto)]

mod address;
mod again;
mod digest;
mod fault;
mod key_octets;
mod key_view;
pub mod laws;
pub mod limits;
mod parts;
mod putting;
mod reading;
mod seen;
mod state;
mod views;
mod writer;
mod writing;

pub use address::{ADDRESS_MAX, AddressOctets};
pub use again::{read_again, written_again};
pub use fault::{Fault, ReadFault, StateFault};
pub use key_view::{KeyView, RememberedView};
pub use parts::{Front, is_sealed, read_front, read_remembered};
pub use reading::read;
pub use state::{Key, Limits, Message, OpenSet, Remembered, State, Units, Width};
pub use views::UnitsView;
pub use writer::Writer;
pub use writing::write;
