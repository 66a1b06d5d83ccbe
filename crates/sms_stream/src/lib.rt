//! Pieces that come one after another: the clock that their stamps set, the open sets that grow old,
//! and what is told of each.
#![tactic(auto)]

mod clock;
mod losses;
mod piece;
mod stream;

pub use clock::{Clock, Row, Standing, WEEK};
pub use losses::Losses;
pub use piece::{Arrival, Piece};
pub use stream::Stream;
