//! What the command shows of units, and how it ends, against the public call of `sms_command`.
#![tactic(auto)]

#[cfg(test)]
mod dated;
#[cfg(test)]
mod ending;
#[cfg(test)]
mod found;
#[cfg(test)]
mod languages;
#[cfg(test)]
mod lines;
#[cfg(test)]
mod pages;
#[cfg(test)]
mod records;
#[cfg(test)]
mod relays;
#[cfg(test)]
mod reports;
#[cfg(test)]
mod statuses;
#[cfg(test)]
mod units;
