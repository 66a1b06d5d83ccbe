//! What holds over a whole run of a joiner for many recipients, which forgets keys by their number
//! and by their age: within both a text finishes just once, and past its age its key joins anew.
#![tactic(auto)]

pub mod calls;
pub mod laws;
