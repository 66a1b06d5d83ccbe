//! The lines of an input, one after another, and what is told of each.
#![tactic(auto)]

mod chatter;
mod fault;
mod feed;
mod line;
mod lines;
mod place;
mod room;
mod taker;
mod writing;

pub use fault::FeedFault;
pub use feed::Feed;
pub use line::Line;
pub use lines::{take_lines, take_one};
pub use taker::Taker;
