//! Units whose octets are known from the standard's tables, against the public calls of `sms_tpdu`.
#![tactic(auto)]

#[cfg(test)]
mod again;
#[cfg(test)]
mod alike;
#[cfg(test)]
mod alone;
#[cfg(test)]
mod command;
#[cfg(test)]
mod deliver;
#[cfg(test)]
mod found;
#[cfg(test)]
mod growths;
#[cfg(test)]
mod header;
#[cfg(test)]
mod report;
#[cfg(test)]
mod report_text;
#[cfg(test)]
mod status_report;
#[cfg(test)]
mod submit;
#[cfg(test)]
mod view;
