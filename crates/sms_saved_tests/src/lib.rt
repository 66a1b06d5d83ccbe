//! Saved states, against the public calls of `sms_saved`.
#![tactic(auto)]

#[cfg(test)]
mod faults;
#[cfg(test)]
mod found;
#[cfg(test)]
mod growths;
#[cfg(test)]
mod hostile;
#[cfg(test)]
mod parts;
#[cfg(test)]
mod rows;
#[cfg(test)]
mod seen;
#[cfg(test)]
mod written;
