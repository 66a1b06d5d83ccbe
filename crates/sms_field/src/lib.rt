//! Fields of SMS transfer units.
#![tactic(auto)]

mod address;
mod address_text;
mod address_view;
mod bit;
mod calendar;
mod chain;
mod coding;
mod cursor;
mod digits;
mod fault;
pub mod laws;
pub mod limits;
mod moment;
mod name;
mod octets;
mod refusal;
mod relay_address;
mod relay_address_view;
mod span;
mod stamp;
mod symbols;
mod symbols_view;
mod validity;

pub use address::{Address, address_laws};
pub use address_view::AddressView;
pub use bit::{bit_weight, has_bit};
pub use chain::{Chain, law_of_chains};
pub use coding::{Alphabet, alphabet_of};
pub use cursor::Cursor;
pub use digits::{DIGITS_MAX, Digits, plain_digits};
pub use fault::{AddressFault, FieldFault, TextFault};
pub use moment::END_OF_2099;
pub use name::Name;
pub use octets::Octets;
pub use refusal::{Fault, Reason, Refusal};
pub use relay_address::{RpAddress, relay_address_laws};
pub use relay_address_view::RpAddressView;
pub use span::Span;
pub use stamp::{Stamp, StampDate};
pub use symbols::Symbols;
pub use symbols_view::{DigitsView, NameView, SymbolsView};
pub use validity::{Validity, ValidityFault};
