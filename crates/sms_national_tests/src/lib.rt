//! Texts cut under national language tables, against the public calls of `sms_national`.
#![tactic(auto)]

#[cfg(test)]
mod cut;
#[cfg(test)]
mod fewest;
#[cfg(test)]
mod found;
#[cfg(test)]
mod growths;
#[cfg(test)]
mod segments;
