//! What is written before it is put into a sink.

ghost use Rattle.std.specs.Prelude.{◌≡◌, []};

use std::alloc::Global;

/// What is written before it is put into a sink. It is kept from line to line, so that a line asks
/// for memory only where it is longer than each before it.
#[derive(Drop)]
pub struct Page {
    /// What an event answered, in words.
    pub words: Vec<u8>,
    /// Lines of the transcript.
    pub lines: Vec<u8>,
}

impl Page {
    /// An empty page, which takes no memory.
    pub fn new(alloc: Global) -> Page
        ensures words { result.words.items ≡ [] }
        ensures lines { result.lines.items ≡ [] }
    {
        Page {
            words: Vec::new(alloc),
            lines: Vec::new(alloc),
        }
    }
}
