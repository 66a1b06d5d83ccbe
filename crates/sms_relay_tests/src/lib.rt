//! Packets, against the public calls of `sms_relay`, and of what lies below it.
#![tactic(auto)]

#[cfg(test)]
mod found;
#[cfg(test)]
mod hostile;
#[cfg(test)]
mod packets;
#[cfg(test)]
mod rooms;
#[cfg(test)]
mod shared;
#[cfg(test)]
mod written;
