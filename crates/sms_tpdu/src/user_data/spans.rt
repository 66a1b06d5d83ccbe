//! Where the parts of user data lie.

use sms_field::Span;

/// Where header and body of user data lie in the octets of which they were read.
#[derive(Clone, Copy, Debug, PartialEq, Eq)]
pub struct UserSpans {
    /// TP-UDH, where there is one, without its length octet.
    pub header: Option<Span>,
    /// What stands after TP-UDH in TP-UD, or the whole TP-UD.
    pub body: Span,
    /// The bits of the body before its first septet, 0 to 6; 0 where it holds octets.
    pub fill: u8,
}
