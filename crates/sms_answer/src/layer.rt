//! The parts of the octets that are shown.

ghost use Rattle.std.specs.Prelude.{◌≡◌, true};
ghost use Rattle.std.specs.List.{list_all};
ghost use Rattle.sms_page.specs.Plain.{is_plain};

/// A part of the octets that are shown: each is counted from its own first octet.
#[derive(Clone, Copy, Debug, PartialEq, Eq)]
pub enum Layer {
    /// Hexadecimal digits.
    Digits,
    /// The address of a service centre before a unit.
    Centre,
    /// A message of the connection.
    Connection,
    /// A message of the relay.
    Relay,
    /// A transfer unit.
    Unit,
    /// A record of a card.
    Record,
    /// User data alone.
    Data,
}

impl Layer {
    /// The name of the layer.
    pub fn name(self) -> &'static str
        ensures { list_all (is_plain 34) result.now ≡ true }
    {
        match self {
            Layer::Digits => "hex",
            Layer::Centre => "centre",
            Layer::Connection => "cp",
            Layer::Relay => "rp",
            Layer::Unit => "unit",
            Layer::Record => "record",
            Layer::Data => "data",
        }
    }
}
