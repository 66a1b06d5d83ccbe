//! What the command plays and draws, and what it tells as objects in JSON, against the public call
//! of `sms_command`.
#![tactic(auto)]

#[cfg(test)]
mod accepted;
#[cfg(test)]
mod arrivals;
#[cfg(test)]
mod charts;
#[cfg(test)]
mod ear;
#[cfg(test)]
mod found;
#[cfg(test)]
mod heard;
#[cfg(test)]
mod objects;
#[cfg(test)]
mod orders;
#[cfg(test)]
mod parts;
#[cfg(test)]
mod plays;
#[cfg(test)]
mod told;
