//! Texts cut into segments and joined again, against the public calls of `sms_join`.
#![tactic(auto)]

#[cfg(test)]
mod crowd;
#[cfg(test)]
mod cut;
#[cfg(test)]
mod found;
#[cfg(test)]
mod gateway;
#[cfg(test)]
mod gateway_ages;
#[cfg(test)]
mod gateway_rows;
#[cfg(test)]
mod joiner;
#[cfg(test)]
mod left;
#[cfg(test)]
mod open_sets;
#[cfg(test)]
mod put_back;
#[cfg(test)]
mod reading;
#[cfg(test)]
mod recalling;
#[cfg(test)]
mod remembered;
#[cfg(test)]
mod room;
#[cfg(test)]
mod segment;
