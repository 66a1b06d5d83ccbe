//! A gateway's joiner saved and read back, against the public calls of `sms_keep`.
#![tactic(auto)]

#[cfg(test)]
mod back;
#[cfg(test)]
mod found;
#[cfg(test)]
mod growths;
#[cfg(test)]
mod hostile;
#[cfg(test)]
mod joiner;
#[cfg(test)]
mod rows;
