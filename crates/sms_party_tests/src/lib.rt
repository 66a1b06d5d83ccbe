//! Worked rows of what the phones answer, against the public calls of `sms_party`.
#![tactic(auto)]

#[cfg(test)]
mod answer;
#[cfg(test)]
mod lent;
#[cfg(test)]
mod phone;
#[cfg(test)]
mod receiver;
#[cfg(test)]
mod sender;
