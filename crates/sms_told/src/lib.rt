//! What becomes of the pieces that are offered to a joiner, as it is printed: texts that are whole,
//! sets that are not, and what else is told.
#![tactic(auto)]

mod address_text;
mod answer;
mod form;
mod note;
mod offering;
mod open_set;
mod open_sets;
mod parts;
mod party;
mod set_parts;
mod shared;
mod telephone;
mod whole;

pub use address_text::AddressText;
pub use answer::{Source, Telling};
pub use form::Form;
pub use offering::Offered;
pub use open_set::put_open;
pub use open_sets::{put_old_sets, put_open_sets};
pub use shared::bits_of;
pub use telephone::Telephone;
pub use whole::{Whole, put_whole};
