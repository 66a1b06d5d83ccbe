//! Scripts that are played event by event, and what is told of each event.
#![tactic(auto)]

mod machine;
mod run;
mod started;
mod teller;
mod writing;

pub use machine::Machine;
pub use run::run_script;
pub use teller::{Happened, Teller};
