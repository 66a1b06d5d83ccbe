//! Worked rows of lines, scripts and transcripts, against the public calls of `sms_script`.
#![tactic(auto)]

#[cfg(test)]
mod breaks;
#[cfg(test)]
mod found;
#[cfg(test)]
mod lines;
#[cfg(test)]
mod parts;
#[cfg(test)]
mod playing;
#[cfg(test)]
mod script;
#[cfg(test)]
mod transcript;
