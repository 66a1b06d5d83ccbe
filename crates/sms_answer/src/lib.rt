//! Answers of members, in lines or as one line of JSON. What is written of an answer only adds to
//! the page: whole lines, none of them empty, or one line of JSON that begins with the number of
//! the line of input where that is told.
#![tactic(auto)]

mod layer;
mod line;
mod lines;
mod members;
mod printed;
mod reason;
mod rows;
mod values;

pub use layer::Layer;
pub use line::Line;
pub use lines::Lines;
pub use members::Members;
pub use printed::Printed;
pub use reason::{Reason, put_reason};
pub use values::{Answer, Escaped, Hexadecimal, Number, Octet};
