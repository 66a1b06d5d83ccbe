//! Values of 3GPP TS 23.038, 23.040 and 24.011, against the public calls of `sms_field`.
#![tactic(auto)]

#[cfg(test)]
mod address;
#[cfg(test)]
mod coding;
#[cfg(test)]
mod fault;
#[cfg(test)]
mod found;
#[cfg(test)]
mod moment;
#[cfg(test)]
mod relay_address;
#[cfg(test)]
mod stamp;
#[cfg(test)]
mod validity;
