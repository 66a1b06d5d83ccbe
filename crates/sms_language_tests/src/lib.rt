//! Values of 3GPP TS 23.038, annex A, against the public calls of `sms_language`.
#![tactic(auto)]

#[cfg(test)]
mod found;
#[cfg(test)]
mod growths;
#[cfg(test)]
mod tables;
#[cfg(test)]
mod texts;
