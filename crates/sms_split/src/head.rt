//! What the line of a segment tells before its octets.

ghost use Rattle.std.specs.Prelude.{◌≡◌, ◌<◌, ◌∷◌, length};

/// What the line of a segment tells before its octets.
#[derive(Clone, Copy)]
pub(crate) struct Head {
    /// Which segment it is, from 1 on.
    pub(crate) sequence: u8,
    /// How many segments there are.
    pub(crate) maximum: u8,
    /// The name of the alphabet.
    pub(crate) alphabet: &'static str,
    /// The coding scheme of the alphabet (TP-DCS).
    pub(crate) coding_scheme: u8,
    /// Whether a header stands in front (TP-UDHI).
    pub(crate) has_header: bool,
    /// TP-UDL.
    pub(crate) length: u8,
}

/// The length of user data in a unit, and the octets behind it.
pub(crate) fn parted(octets: &[u8]) -> (u8, &[u8])
    requires { 0 < length octets.now }
    ensures { octets.now ≡ result.0 ∷ result.1.now }
{
    (octets[0], &octets[1..])
}
