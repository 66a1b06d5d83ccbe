//! What is to be shown, and how.

use sms_told::Form;

/// A kind of transfer unit.
#[derive(Clone, Copy, Debug, PartialEq, Eq)]
pub enum UnitKind {
    Deliver,
    Submit,
    SubmitAck,
    SubmitError,
    DeliverAck,
    DeliverError,
    StatusReport,
    Command,
}

/// Who sent a unit.
#[derive(Clone, Copy, Debug, PartialEq, Eq)]
pub enum Sender {
    Centre,
    Phone,
}

/// What octets are shown as: a transfer unit, or a message of the relay or the connection.
#[derive(Clone, Copy, Debug, PartialEq, Eq)]
pub enum Kind {
    Unit(UnitKind),
    /// The unit that its first octet tells.
    Any,
    Rp,
    Cp,
    /// A record of a card.
    Record,
    /// User data alone.
    Data,
}

/// What is told of user data alone. What is `None` was not given.
#[derive(Clone, Copy)]
pub struct Alone<'a> {
    /// The data coding scheme (TP-DCS) in hexadecimal.
    pub dcs: Option<&'a str>,
    /// Whether a header comes first.
    pub has_header: bool,
    /// Whether septets stand one an octet.
    pub are_singles: bool,
    /// The length that a unit has before them (TP-UDL).
    pub length: Option<u8>,
}

impl Alone<'_> {
    /// Whether nothing is told.
    fn is_empty(&self) -> bool {
        self.dcs.is_none() && !self.has_header && !self.are_singles && self.length.is_none()
    }

    /// Whether too little or too much is told of user data.
    fn is_wrong(&self) -> bool {
        self.dcs.is_none() || (self.are_singles && self.length.is_some())
    }
}

/// A unit whose fields are asked for.
#[derive(Clone, Copy)]
pub struct Shown<'a> {
    /// What the octets are.
    pub kind: Kind,
    /// The octets in hexadecimal, where they are not in lines of the input.
    pub octets: &'a str,
    /// Whether each line of the input has octets.
    pub has_lines: bool,
    /// Whether the address of a service centre comes first.
    pub has_centre: bool,
    /// Who sent the unit, where that was said.
    pub sender: Option<Sender>,
    /// How the fields are written.
    pub form: Form,
    /// Whether a fault of the digits names its place.
    pub is_explained: bool,
    /// Whether a message of the relay may be any of the standard's.
    pub any: bool,
    /// Whether texts are read under the national language tables that their headers tell.
    pub heeds_languages: bool,
    /// What is told of user data alone.
    pub alone: Alone<'a>,
}

impl Shown<'_> {
    /// Whether an option was given that the kind does not have, or one is missing that it wants.
    pub fn has_wrong_option(&self) -> bool {
        match self.kind {
            Kind::Unit(_) => self.any || self.sender.is_some() || !self.alone.is_empty(),
            Kind::Any => self.any || !self.alone.is_empty(),
            Kind::Rp | Kind::Cp => self.sender.is_some() || !self.alone.is_empty(),
            Kind::Record => self.is_of_unit() || !self.alone.is_empty(),
            Kind::Data => self.is_of_unit() || self.alone.is_wrong(),
        }
    }

    /// Whether an option was given that only a unit or what carries one has.
    fn is_of_unit(&self) -> bool {
        self.any || self.sender.is_some() || self.has_centre
    }
}
