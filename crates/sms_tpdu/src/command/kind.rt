//! What a command asks.

ghost use Rattle.std.specs.Prelude.{◌≡◌};
ghost use Rattle.sms_tpdu.specs.Command.Kind.{kind_of};

/// What TP-CT asks of the service centre (TS 23.040, 9.2.3.19).
#[derive(Clone, Copy, Debug, PartialEq, Eq)]
pub enum CommandKind {
    /// How it stands with a message.
    Enquiry,
    /// To send no status report of a message.
    CancelReport,
    /// To delete a message.
    Delete,
    /// To send a status report of a message.
    EnableReport,
    /// The service centre gives the value a meaning of its own.
    CentreSpecific,
    /// The standard leaves it open.
    Reserved,
}

impl CommandKind {
    /// What an octet asks.
    pub fn of(octet: u8) -> CommandKind
        ensures { result ≡ kind_of octet }
    {
        match octet {
            0 => CommandKind::Enquiry,
            1 => CommandKind::CancelReport,
            2 => CommandKind::Delete,
            3 => CommandKind::EnableReport,
            0xE0..=0xFF => CommandKind::CentreSpecific,
            _ => CommandKind::Reserved,
        }
    }
}
