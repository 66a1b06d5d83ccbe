//! What the command encodes, splits and joins, against the public calls of `sms_command`.
#![tactic(auto)]

#[cfg(test)]
mod alone;
#[cfg(test)]
mod clocks;
#[cfg(test)]
mod coming;
#[cfg(test)]
mod data_lines;
#[cfg(test)]
mod encoded;
#[cfg(test)]
mod found;
#[cfg(test)]
mod gateways;
#[cfg(test)]
mod joins;
#[cfg(test)]
mod jumps;
#[cfg(test)]
mod kept;
#[cfg(test)]
mod lent;
#[cfg(test)]
mod nationals;
#[cfg(test)]
mod notes;
#[cfg(test)]
mod seeds;
#[cfg(test)]
mod splits;
#[cfg(test)]
mod telephones;
#[cfg(test)]
mod widths;
