//! What the standard says of octets as a record, by the readers of its parts.

use sms_card::{RECORD_LENGTH, RecordFault};
use sms_field::{Fault, FieldFault, RpAddressView};
use sms_tpdu::{CommandView, DeliverView, StatusReportView, SubmitView, UnitFault};

/// The octets of a unit, or its fault.
type Taken = Result<usize, Fault<UnitFault>>;

/// Whose message a record has, by its status (TS 51.011, 10.5.3).
#[derive(Clone, Copy, PartialEq, Eq)]
enum Whose {
    Nobody,
    Network,
    Phone,
}

/// Whose message a status says.
fn sender_of(status: u8) -> Option<Whose> {
    match status {
        1 | 3 => Some(Whose::Network),
        5 | 7 | 13 | 21 | 29 => Some(Whose::Phone),
        _ if status % 2 == 0 => Some(Whose::Nobody),
        _ => None,
    }
}

/// How many octets a report has up to TP-ST.
fn front_of_report(octets: &[u8]) -> usize {
    match octets {
        [_, _, count, ..] => 19 + usize::from(*count).div_ceil(2),
        _ => octets.len(),
    }
}

/// How many octets a report takes, to which an FF after TP-ST does not belong.
fn report_taken(octets: &[u8]) -> Taken {
    let count = front_of_report(octets);
    let front = match octets.get(count) {
        Some(0xFF) => octets.get(..count).unwrap_or(octets),
        _ => octets,
    };
    StatusReportView::read(front).map(|read| read.1)
}

/// How many octets the unit of a record takes.
fn unit_taken(whose: Whose, octets: &[u8]) -> Taken {
    match (whose, octets.first().map(|first| *first % 4)) {
        (Whose::Network, Some(2)) => report_taken(octets),
        (Whose::Network, _) => DeliverView::read(octets).map(|read| read.1),
        (_, Some(2)) => CommandView::read(octets).map(|read| read.1),
        _ => SubmitView::read(octets).map(|read| read.1),
    }
}

/// The fault of a unit in a record, where it begins.
fn of_unit(fault: Fault<UnitFault>, start: usize) -> Fault<RecordFault> {
    Fault {
        place: start.saturating_add(fault.place),
        why: match fault.why {
            UnitFault::Short => RecordFault::Short,
            why => RecordFault::Unit(why),
        },
    }
}

/// The fault of a centre in a record.
fn of_centre(fault: Fault<FieldFault>) -> Fault<RecordFault> {
    Fault {
        place: fault.place.saturating_add(1),
        why: match fault.why {
            FieldFault::Short => RecordFault::Short,
            FieldFault::Address(why) => RecordFault::Centre(why),
        },
    }
}

/// The first octet from a place on that is no padding.
fn padding_fault(octets: &[u8], start: usize) -> Option<Fault<RecordFault>> {
    for (place, octet) in octets.iter().enumerate() {
        if place >= start && *octet != 0xFF {
            return Some(Fault {
                place,
                why: RecordFault::NotPadding,
            });
        }
    }
    None
}

/// The fault of a used record.
fn used_fault(whose: Whose, octets: &[u8]) -> Option<Fault<RecordFault>> {
    let centre = match RpAddressView::read(octets.get(1..).unwrap_or(&[])) {
        Ok((_, used)) => used.saturating_add(1),
        Err(fault) => return Some(of_centre(fault)),
    };
    match unit_taken(whose, octets.get(centre..).unwrap_or(&[])) {
        Ok(used) => padding_fault(octets, centre.saturating_add(used)),
        Err(fault) => Some(of_unit(fault, centre)),
    }
}

/// The fault of at most 176 octets, if they have one.
fn fault_of_few(octets: &[u8]) -> Option<Fault<RecordFault>> {
    let Some(status) = octets.first() else {
        return Some(Fault {
            place: 0,
            why: RecordFault::Short,
        });
    };
    match sender_of(*status) {
        Some(Whose::Nobody) => None,
        Some(whose) => used_fault(whose, octets),
        None => Some(Fault {
            place: 0,
            why: RecordFault::BadStatus,
        }),
    }
}

/// The fault of octets, if they have one.
pub fn judged(octets: &[u8]) -> Option<Fault<RecordFault>> {
    let Some(front) = octets.get(..RECORD_LENGTH) else {
        return fault_of_few(octets);
    };
    let fault = fault_of_few(front);
    let is_open = match fault {
        Some(fault) => fault.why == RecordFault::Short,
        None => true,
    };
    if is_open && octets.len() > RECORD_LENGTH {
        return Some(Fault {
            place: RECORD_LENGTH,
            why: RecordFault::OtherLength,
        });
    }
    fault
}
