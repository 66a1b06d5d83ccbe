//! An input and an output that take turns: before more is read, which may take long, all that was
//! written is flushed.

mod ear;
mod mouth;
mod outlet;
mod search;

pub use ear::Ear;
pub use mouth::Mouth;
pub use outlet::{Outlet, write_page};
