//! Values of 3GPP TS 23.038, against the public calls of `sms_text`.
#![tactic(auto)]

#[cfg(test)]
mod alphabet;
#[cfg(test)]
mod blocks;
#[cfg(test)]
mod found;
#[cfg(test)]
mod packing;
#[cfg(test)]
mod ucs2;
