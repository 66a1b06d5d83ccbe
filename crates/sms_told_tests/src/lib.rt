//! What a joiner tells, against the public calls of `sms_told`.
#![tactic(auto)]

#[cfg(test)]
mod answers;
#[cfg(test)]
mod growths;
#[cfg(test)]
mod sets;
#[cfg(test)]
mod texts;
