//! The phones of a short message: the sending phone, the receiving phone, and both in one.
#![tactic(auto)]

mod laws;
pub mod limits;
mod phone;
mod receiver;
mod sender;

pub use laws::{
    drops_put_nothing_out, ended_texts_are_told, ended_texts_are_typed, few_are_put_out,
    others_leave_sender,
};
pub use phone::Phone;
pub use receiver::{Entry, Receiver};
pub use sender::{Sender, Status};
