//! Pages as they are written, against the public calls of `sms_page`.
#![tactic(auto)]

#[cfg(test)]
mod escapes;
#[cfg(test)]
mod octets;
#[cfg(test)]
mod pages;
