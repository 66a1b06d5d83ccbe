//! The command `sms` over any reader and writer: units that are shown and encoded, texts that are
//! split, scripts that are played.
#![tactic(auto)]

mod chart;
mod cli;
mod data_line;
mod ending;
mod fault;
mod folders;
mod join;
mod joining;
mod kept;
mod losses;
mod objects;
mod outcomes;
mod piece;
mod piece_units;
mod play;
mod play_json;
mod recipient;
mod restart;
mod run;
mod shown;
mod talk;
mod words;

pub use cli::{command, command_with_folders, command_with_notes, command_with_seed};
pub use ending::finish;
pub use folders::Folders;
