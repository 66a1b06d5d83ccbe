//! The sides of a relay message.

/// Where a relay message comes from (3GPP TS 24.011, 8.2.2).
#[derive(Clone, Copy, Debug, PartialEq, Eq)]
pub enum Side {
    /// From the phone to the network.
    FromPhone,
    /// From the network to the phone.
    ToPhone,
}
