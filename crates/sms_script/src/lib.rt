//! Scripts of a network of phones: what gives and takes octets, lines, and what a line of a script
//! means.
#![tactic(auto)]

mod devices;
mod fault;
pub mod limits;
mod lines;
mod meaning;
mod playing;
mod script;
mod transcript;
mod words;

pub use devices::{
    DeviceFailed, Sink, Source, Watched, copy_in_line, read_again, write_again, write_whole,
};
pub use fault::{PlayFault, ScriptFault};
pub use lines::{LineEnd, LineFault, read_line};
pub use meaning::{Event, Limit, Text};
pub use playing::{Network, Next, play, play_on};
pub use script::{Limits, Script};
pub use sms_field::Octets;
pub use transcript::{Entry, Escape, Packet, push_decimal, push_hexadecimal};
