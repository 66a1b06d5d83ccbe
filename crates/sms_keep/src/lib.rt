//! What a gateway's joiner holds, written as octets for the next start of its program, and read
//! back.
#![tactic(auto)]

mod at_once;
mod fault;
mod keys;
mod keys_back;
mod places;
mod plain;
mod restoring;
mod saving;
mod sets;
mod sets_back;
mod telephone_octets;
mod telephones;

pub use fault::{Fault, HeldFault, ReadFault};
pub use restoring::{Restored, read};
pub use saving::{save, written};
