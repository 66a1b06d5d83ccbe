//! What works through the lines of an input, one after another, with the output at hand.
#![tactic(auto)]

mod through;
mod worker;

pub use through::work_through;
pub use worker::Worker;
