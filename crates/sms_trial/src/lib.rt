//! What the tests of the command share: words with an input and what is answered to them, numbers
//! that are made, texts of parts, digits, and a reader that gives a few octets at a time.
#![tactic(auto)]

mod answering;
mod digits;
mod fed;
mod made;
mod parts;
mod slow;

pub use answering::{answer_to, answers, answers_with, says};
pub use digits::digits_of;
pub use fed::{Fed, are_fed, are_fed_as_json, fed_from, fed_with, is_fed};
pub use made::Made;
pub use parts::{expanded, is_expanded};
pub use slow::Slow;
