//! What faults of the crates below are here.

use crate::fault::Fault;
use sms_card::RecordFault;
use sms_encode::{EncodeFault, NoAddress};
use sms_feed::FeedFault;
use sms_file::FileFault;
use sms_keep::ReadFault;
use sms_page::PageFault;
use sms_relay::RelayFault;
use sms_show::ShowFault;
use sms_split::CutFault;
use sms_tpdu::{DataFault, UnitFault};
use std::alloc::{AllocError, AllocFailed};
use std::io;

impl From<AllocError> for Fault {
    fn from(_error: AllocError) -> Fault {
        Fault::Memory
    }
}

impl<T: Drop> From<AllocFailed<T>> for Fault {
    fn from(_error: AllocFailed<T>) -> Fault {
        Fault::Memory
    }
}

impl From<ShowFault> for Fault {
    fn from(fault: ShowFault) -> Fault {
        match fault {
            ShowFault::Unit(fault) => Fault::Unit(fault),
            ShowFault::Message(fault) => Fault::Message(fault),
            ShowFault::Record(fault) => Fault::Record(fault),
            ShowFault::Septets(fault) => Fault::Septets(fault),
            ShowFault::BadScheme => Fault::BadScheme,
            ShowFault::BadHex(spot) => Fault::BadHex(spot),
            ShowFault::LineTooLong => Fault::LineTooLong,
            ShowFault::Read => Fault::Read,
            ShowFault::Write => Fault::Write,
            ShowFault::Memory => Fault::Memory,
        }
    }
}

impl From<EncodeFault> for Fault {
    fn from(fault: EncodeFault) -> Fault {
        match fault {
            EncodeFault::WrongOption => Fault::WrongOption,
            EncodeFault::ReferenceTooLarge => Fault::ReferenceTooLarge,
            EncodeFault::BadHex(spot) => Fault::BadHex(spot),
            EncodeFault::BadStamp => Fault::BadStamp,
            EncodeFault::BadAddress(spot) => Fault::BadAddress(spot),
            EncodeFault::TextTooLong => Fault::TextTooLong,
            EncodeFault::TooManySegments => Fault::TooManySegments,
            EncodeFault::Write => Fault::Write,
            EncodeFault::Memory => Fault::Memory,
        }
    }
}

impl From<NoAddress> for Fault {
    fn from(fault: NoAddress) -> Fault {
        match fault {
            NoAddress::Bad(spot) => Fault::BadAddress(spot),
            NoAddress::Memory => Fault::Memory,
        }
    }
}

impl From<CutFault> for Fault {
    fn from(fault: CutFault) -> Fault {
        match fault {
            CutFault::WrongOption => Fault::WrongOption,
            CutFault::ReferenceTooLarge => Fault::ReferenceTooLarge,
            CutFault::TooManySegments => Fault::TooManySegments,
            CutFault::Write => Fault::Write,
            CutFault::Memory => Fault::Memory,
        }
    }
}

impl From<FileFault> for Fault {
    fn from(fault: FileFault) -> Fault {
        Fault::File(fault)
    }
}

impl From<ReadFault> for Fault {
    fn from(fault: ReadFault) -> Fault {
        match fault {
            ReadFault::Memory => Fault::Memory,
            ReadFault::At(fault) => Fault::State(fault),
        }
    }
}

impl From<PageFault> for Fault {
    fn from(fault: PageFault) -> Fault {
        match fault {
            PageFault::Output(error) => Fault::from(error),
            PageFault::Memory => Fault::Memory,
        }
    }
}

impl From<FeedFault> for Fault {
    fn from(fault: FeedFault) -> Fault {
        match fault {
            FeedFault::Page(fault) => Fault::from(fault),
            FeedFault::Read(_) => Fault::Read,
        }
    }
}

impl From<io::Error> for Fault {
    fn from(error: io::Error) -> Fault {
        match error.kind() {
            io::ErrorKind::OutOfMemory => Fault::Memory,
            _ => Fault::Write,
        }
    }
}

impl From<sms_field::Fault<UnitFault>> for Fault {
    fn from(fault: sms_field::Fault<UnitFault>) -> Fault {
        Fault::Unit(fault)
    }
}

impl From<sms_field::Fault<RelayFault>> for Fault {
    fn from(fault: sms_field::Fault<RelayFault>) -> Fault {
        Fault::Message(fault)
    }
}

impl From<sms_field::Fault<RecordFault>> for Fault {
    fn from(fault: sms_field::Fault<RecordFault>) -> Fault {
        Fault::Record(fault)
    }
}

impl From<sms_field::Fault<DataFault>> for Fault {
    fn from(fault: sms_field::Fault<DataFault>) -> Fault {
        Fault::Septets(fault)
    }
}
