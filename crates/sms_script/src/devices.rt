//! What gives octets, and what takes them.

mod again;
mod sink;
mod source;
mod watched;

pub use again::{read_again, write_again};
pub use sink::{Sink, write_whole};
pub use source::{DeviceFailed, Source, copy_in_line, next_octet};
pub use watched::Watched;
