//! Answers of members, against the public calls of `sms_answer`.
#![tactic(auto)]

#[cfg(test)]
mod answers;
#[cfg(test)]
mod faults;
#[cfg(test)]
mod growths;
