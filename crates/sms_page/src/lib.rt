//! What is printed before it is written: pages, octets in hexadecimal digits, escaped texts, and
//! JSON.
#![tactic(auto)]

mod escape;
mod hexadecimal;
mod object;
mod page;
mod place;
mod plain;
mod read_back;

pub use escape::{put_json, put_line};
pub use hexadecimal::{put_digits, put_octets};
pub use object::{Object, has_commas};
pub use page::{Page, PageFault};
pub use read_back::reads_back;
