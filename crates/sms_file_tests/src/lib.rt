//! Files that are replaced, against the public calls of `sms_file`.
#![tactic(auto)]

#[cfg(test)]
mod found;
#[cfg(test)]
mod growths;
#[cfg(test)]
mod host;
#[cfg(test)]
mod memory;
#[cfg(test)]
mod refusing;
#[cfg(test)]
mod steps;
