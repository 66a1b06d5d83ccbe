//! Which segment of which message a unit carries.

ghost use Rattle.std.specs.Prelude.{◌≡◌, ◌<◌, ℕ, length, Some};
ghost use Rattle.sms_tpdu.specs.UserData.{header_octets};
ghost use Rattle.sms_tpdu.specs.UserData.Elements.{element_octets};
ghost use Rattle.sms_tpdu.specs.UserData.Concatenation.{element_for};

/// How wide the reference of a concatenation is, in bits.
#[derive(Clone, Copy, Debug, PartialEq, Eq, Hash)]
pub enum Width {
    /// Information element 00.
    Eight,
    /// Information element 08.
    Sixteen,
}

impl Width {
    /// How many octets the header of a segment takes, with its length octet.
    pub fn header_octets(self) -> usize
        ensures few { (0 < result) × (result < 8) }
        ensures is { (reference maximum sequence : ℕ) → result ≡
            length (header_octets (Some (element_octets
            (element_for self reference maximum sequence)))) }
    {
        match self {
            Width::Eight => 6,
            Width::Sixteen => 7,
        }
    }
}

/// The place of a segment in its message: the information elements 00 and 08 (3GPP TS 23.040,
/// 9.2.3.24.1 and 9.2.3.24.8).
///
/// The sequence counts from 1 to the maximum. With `Width::Eight` the reference is below 256.
#[derive(Clone, Copy, Debug, PartialEq, Eq, Hash)]
pub struct Concat {
    /// Which element it is: of 00 the reference has eight bits, of 08 sixteen.
    pub width: Width,
    /// The reference number of the concatenated short message.
    pub reference: u16,
    /// The maximum number of short messages in the concatenated short message.
    pub maximum: u8,
    /// The sequence number of this short message.
    pub sequence: u8,
}
