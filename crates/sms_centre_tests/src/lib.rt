//! Worked rows of what the centre answers, against the public calls of `sms_centre`.
#![tactic(auto)]

#[cfg(test)]
mod answer;
#[cfg(test)]
mod centre;
