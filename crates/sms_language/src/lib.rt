//! Texts of short messages under the national language tables.
#![tactic(auto)]

mod coded;
mod codes;
mod laws;
mod tables;
mod words;
mod written;

pub use coded::septets_of_text;
pub use laws::{
    cut_texts_come_back, default_tables_change_nothing, parts_are_read_alone, septets_are_joined,
    septets_end_whole, texts_come_back,
};
pub use tables::{LOCKING_SHIFT, Locking, SINGLE_SHIFT, Single, Tables};
pub use written::{text_of_packed, text_of_septets};
