//! Why a command gives no answer.

mod below;

ghost use Rattle.std.specs.Prelude.{◌≡◌, ◌<◌, ◌≤◌};
ghost use Rattle.sms_command.specs.Inside.Statuses.{status_of};

use sms_answer::{Line, Reason};
use sms_card::RecordFault;
use sms_file::FileFault;
use sms_relay::RelayFault;
use sms_show::Spot;
use sms_tpdu::{DataFault, UnitFault};
use sms_world::PlayFault;
use std::alloc::{AllocError, Global};
use thiserror::Error;

/// Why a command gives no answer. Its text is the line that the program prints.
#[derive(Debug, Drop, Error)]
pub enum Fault {
    /// An octet of a unit cannot stand where it does.
    #[error("{0}")]
    Unit(sms_field::Fault<UnitFault>),
    /// An octet of a relay or connection message, or of a service centre's address, cannot stand
    /// where it does.
    #[error("{0}")]
    Message(sms_field::Fault<RelayFault>),
    /// An octet of a record of a card cannot stand where it does.
    #[error("{0}")]
    Record(sms_field::Fault<RecordFault>),
    /// An octet of user data alone, one for each septet, cannot stand where it does.
    #[error("{0}")]
    Septets(sms_field::Fault<DataFault>),
    /// An option was given that the kind of unit does not have.
    #[error("option not for this kind")]
    WrongOption,
    /// A data coding scheme is no octet in hexadecimal.
    #[error("bad coding scheme")]
    BadScheme,
    /// A concatenation reference does not fit its width.
    #[error("reference too large")]
    ReferenceTooLarge,
    /// A word or a line is no hexadecimal text of octets.
    #[error("bad hex")]
    BadHex(Spot),
    /// A line has other words than it must have.
    #[error("bad line")]
    BadLine,
    /// A word is no hexadecimal text of as many octets as there must be.
    #[error("bad hex")]
    BadStamp,
    /// A text is no address: a character cannot stand where it does, or else it is too long.
    #[error("bad address")]
    BadAddress(Option<Spot>),
    /// A text needs more than one piece.
    #[error("text too long")]
    TextTooLong,
    /// A text needs more segments than can be numbered.
    #[error("too many segments")]
    TooManySegments,
    /// A script is not played to its end.
    #[error("{0}")]
    Play(PlayFault),
    /// The unit has no text: its data coding scheme tells octets.
    #[error("no text")]
    NoText,
    /// A line has more octets than a line may have.
    #[error("line too long")]
    LineTooLong,
    /// The input gives no more.
    #[error("read failed")]
    Read,
    /// The output takes no more.
    #[error("write failed")]
    Write,
    /// A file is no state of such a joiner.
    #[error("state: {0}")]
    State(sms_keep::Fault),
    /// The file of a state was not opened, read or replaced.
    #[error("state: {0}")]
    File(FileFault),
    /// Memory ran out.
    #[error("out of memory")]
    Memory,
}

impl Fault {
    /// The exit status: 1 where the input is refused, 2 where the words are, 3 where memory or a
    /// device fails.
    pub fn status(&self) -> u8
        ensures value { result ≡ status_of self.now }
        ensures bound { (0 < result) × (result ≤ 3) }
    {
        match self {
            Fault::Unit(_) | Fault::Message(_) | Fault::BadHex(_) | Fault::BadStamp => 1,
            Fault::BadLine => 1,
            Fault::BadAddress(_) | Fault::TextTooLong | Fault::TooManySegments => 1,
            Fault::LineTooLong | Fault::NoText => 1,
            Fault::Record(_) | Fault::Septets(_) => 1,
            Fault::Play(PlayFault::Script { .. }) | Fault::State(_) => 1,
            Fault::WrongOption | Fault::ReferenceTooLarge | Fault::BadScheme => 2,
            Fault::Play(_) | Fault::File(_) => 3,
            Fault::Read | Fault::Write | Fault::Memory => 3,
        }
    }

    /// Whether the input is refused.
    pub fn is_of_input(&self) -> bool {
        self.status() == 1
    }
}

impl Reason for Fault {
    fn words(&self, alloc: Global) -> Result<String, AllocError> {
        self.to_string(alloc)
    }

    fn explain(&self, line: &mut Line) {
        match self {
            Fault::BadHex(spot) | Fault::BadAddress(Some(spot)) => spot.put(line),
            Fault::BadAddress(None) => line.put(b": too long"),
            Fault::BadStamp => line.put(b": not seven octets"),
            Fault::TextTooLong => line.put(b": --split cuts it into segments"),
            _ => {}
        }
    }

    fn place(&self) -> Option<usize> {
        match self {
            Fault::Unit(fault) => Some(fault.place),
            Fault::Message(fault) => Some(fault.place),
            Fault::Record(fault) => Some(fault.place),
            Fault::Septets(fault) => Some(fault.place),
            Fault::BadHex(spot) => Some(spot.place),
            _ => None,
        }
    }

    fn reason(&self, alloc: Global) -> Result<String, AllocError> {
        match self {
            Fault::Unit(fault) => fault.why.to_string(alloc),
            Fault::Message(fault) => fault.why.to_string(alloc),
            Fault::Record(fault) => fault.why.to_string(alloc),
            Fault::Septets(fault) => fault.why.to_string(alloc),
            _ => self.to_string(alloc),
        }
    }
}
