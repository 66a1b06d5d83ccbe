//! Worlds of two phones, against the public calls of `sms_world`.
#![tactic(auto)]

#[cfg(test)]
mod accepted;
#[cfg(test)]
mod brought;
#[cfg(test)]
mod faults;
#[cfg(test)]
mod found;
#[cfg(test)]
mod growths;
#[cfg(test)]
mod hostile;
#[cfg(test)]
mod order;
#[cfg(test)]
mod random;
#[cfg(test)]
mod segments;
#[cfg(test)]
mod two;
#[cfg(test)]
mod verdicts;
#[cfg(test)]
mod way;
