//! Texts cut into segments under national language tables.
#![tactic(auto)]

mod choice;
mod cut;
mod header;
mod laws;
mod pieces;
mod rooms;
mod segments;

pub use choice::{Language, LanguageSegments, cut_fewest};
pub use cut::cut_under;
pub use laws::{national_cuts_are_one, national_cuts_are_read_as_text, national_headers_are_told};
pub use segments::NationalSegments;
