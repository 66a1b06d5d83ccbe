//! What takes lines, and a file that keeps its state for the next start of the program.
#![tactic(auto)]

mod keeper;
mod kept;
mod taking;

pub use keeper::Keeper;
pub use kept::Kept;
pub use taking::take_kept;
