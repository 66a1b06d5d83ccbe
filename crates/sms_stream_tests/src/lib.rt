//! The pieces of a stream, against the public calls of `sms_stream`.
#![tactic(auto)]

#[cfg(test)]
mod streams;
