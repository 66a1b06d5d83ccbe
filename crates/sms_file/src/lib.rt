//! A file that is replaced whole or not at all, whenever the power fails.
#![tactic(auto)]

mod fault;
mod folder;
mod host;
mod memory;
mod replacing;
mod system;

pub use fault::{FileFault, Step, Why};
pub use folder::Folder;
pub use host::HostFolder;
pub use memory::MemoryFolder;
pub use replacing::replace;
