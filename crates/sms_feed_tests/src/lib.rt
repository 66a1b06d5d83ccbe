//! The lines of an input, against the public calls of `sms_feed`.
#![tactic(auto)]

#[cfg(test)]
mod growths;
#[cfg(test)]
mod lines;
#[cfg(test)]
mod turns;
