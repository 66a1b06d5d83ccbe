//! The segments of a text, one a line: which segment it is, its alphabet, and its user data with
//! their length. What is written is each segment of the text once, in order.
#![tactic(auto)]

mod cut;
mod fault;
mod head;
mod line;
mod long_text;
mod names;
mod national;
mod segments;

pub use cut::put_segments;
pub use fault::CutFault;
pub use long_text::{Languages, LongText};
