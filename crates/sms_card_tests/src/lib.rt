//! Records of a card, against the public calls of `sms_card` and of what lies below it.
#![tactic(auto)]

#[cfg(test)]
mod found;
#[cfg(test)]
mod growths;
#[cfg(test)]
mod hostile;
#[cfg(test)]
mod judged;
#[cfg(test)]
mod rows;
#[cfg(test)]
mod seen;
#[cfg(test)]
mod sizes;
