//! Messages that are read, and packets that are made, once each with ample memory, against the
//! public calls of `sms_message`.
#![tactic(auto)]

#[cfg(test)]
mod found;
#[cfg(test)]
mod packets;
#[cfg(test)]
mod reading;
#[cfg(test)]
mod spare;
