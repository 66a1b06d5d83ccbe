//! Deliveries.

use crate::again::rewritten;
use crate::found::{are, holds, same};
use sms_field::alphabet_of;
use sms_tpdu::{
    Body, Concat, Deliver, DeliverFront, Header, Refusal, Unit, UnitFault, UserData, Width,
};
use std::alloc::Global;
use std::process::Abort;
use std::test::Fail;

/// A delivery of `hellohello`.
const HELLO: [u8; 28] = [
    0x04, 0x0B, 0xC8, 0x72, 0x38, 0x88, 0x09, 0x00, 0xF1, 0x00, 0x00, 0x99, 0x30, 0x92, 0x51, 0x61,
    0x95, 0x80, 0x0A, 0xE8, 0x32, 0x9B, 0xFD, 0x46, 0x97, 0xD9, 0xEC, 0x37,
];

/// A delivery whose length is 161 septets.
const TOO_LONG: [u8; 19] = [
    0x04, 0x0B, 0xC8, 0x72, 0x38, 0x88, 0x09, 0x00, 0xF1, 0x00, 0x00, 0x99, 0x30, 0x92, 0x51, 0x61,
    0x95, 0x80, 0xA1,
];

/// A delivery of two septets, with a header of two octets.
const HEADER_LONGER_THAN_DATA: [u8; 16] = [
    0x44, 0x04, 0x91, 0x01, 0x10, 0x00, 0x00, 0x00, 0x10, 0x10, 0x00, 0x00, 0x00, 0x00, 0x02, 0x02,
];

/// A delivery of one septet, with a header.
const NO_ROOM_FOR_A_HEADER: [u8; 15] = [
    0x44, 0x04, 0x91, 0x01, 0x10, 0x00, 0x00, 0x00, 0x10, 0x10, 0x00, 0x00, 0x00, 0x00, 0x01,
];

/// A delivery, its header if it has one, the place of a segment that the header tells, its
/// body and its text.
struct Delivery {
    octets: &'static [u8],
    header: Option<&'static [u8]>,
    concat: Option<Concat>,
    body: &'static [u8],
    text: &'static str,
}

static DELIVERIES: [Delivery; 6] = [
    // the sequence is 3 of 2
    Delivery {
        octets: &[
            0x44, 0x04, 0x91, 0x01, 0x10, 0x00, 0x00, 0x00, 0x10, 0x10, 0x00, 0x00, 0x00, 0x00,
            0x09, 0x05, 0x00, 0x03, 0x0A, 0x02, 0x03, 0xD0, 0x69,
        ],
        header: Some(&[0x00, 0x03, 0x0A, 0x02, 0x03]),
        concat: None,
        body: b"hi",
        text: "hi",
    },
    // the element is cut
    Delivery {
        octets: &[
            0x44, 0x04, 0x91, 0x01, 0x10, 0x00, 0x00, 0x00, 0x10, 0x10, 0x00, 0x00, 0x00, 0x00,
            0x08, 0x04, 0x00, 0x03, 0x0A, 0x02, 0xA0, 0xD3,
        ],
        header: Some(&[0x00, 0x03, 0x0A, 0x02]),
        concat: None,
        body: b"hi",
        text: "hi",
    },
    // an empty header fills the data
    Delivery {
        octets: &[
            0x44, 0x04, 0x91, 0x01, 0x10, 0x00, 0x00, 0x00, 0x10, 0x10, 0x00, 0x00, 0x00, 0x00,
            0x02, 0x00, 0x00,
        ],
        header: Some(&[]),
        concat: None,
        body: b"",
        text: "",
    },
    // a reference of sixteen bits
    Delivery {
        octets: &[
            0x44, 0x04, 0x91, 0x01, 0x10, 0x00, 0x00, 0x00, 0x10, 0x10, 0x00, 0x00, 0x00, 0x00,
            0x0A, 0x06, 0x08, 0x04, 0x01, 0x02, 0x02, 0x01, 0xE8, 0x34,
        ],
        header: Some(&[0x08, 0x04, 0x01, 0x02, 0x02, 0x01]),
        concat: Some(Concat {
            width: Width::Sixteen,
            reference: 258,
            maximum: 2,
            sequence: 1,
        }),
        body: b"hi",
        text: "hi",
    },
    // of two elements the last counts
    Delivery {
        octets: &[
            0x44, 0x04, 0x91, 0x01, 0x10, 0x00, 0x00, 0x00, 0x10, 0x10, 0x00, 0x00, 0x00, 0x00,
            0x10, 0x0B, 0x00, 0x03, 0x0A, 0x02, 0x01, 0x08, 0x04, 0x01, 0x02, 0x02, 0x02, 0xA0,
            0xD3,
        ],
        header: Some(&[
            0x00, 0x03, 0x0A, 0x02, 0x01, 0x08, 0x04, 0x01, 0x02, 0x02, 0x02,
        ]),
        concat: Some(Concat {
            width: Width::Sixteen,
            reference: 258,
            maximum: 2,
            sequence: 2,
        }),
        body: b"hi",
        text: "hi",
    },
    // one letter in UCS-2
    Delivery {
        octets: &[
            0x04, 0x04, 0x91, 0x01, 0x10, 0x00, 0x08, 0x00, 0x10, 0x10, 0x00, 0x00, 0x00, 0x00,
            0x02, 0x04, 0x36,
        ],
        header: None,
        concat: None,
        body: &[0x04, 0x36],
        text: "ж",
    },
];

/// The octets of a body.
pub fn octets_in(body: &Body) -> &[u8] {
    match body {
        Body::Septets(septets) => septets.as_slice(),
        Body::Octets(octets) => octets.as_slice(),
    }
}

/// Whether a header, if there is one, is that of a row, and tells the place of a segment that the
/// row says.
fn has_header(header: &Option<Header>, row: &Delivery) -> bool {
    match (header, row.header) {
        (Some(header), Some(wanted)) => {
            header.as_slice() == wanted && header.concat() == row.concat
        }
        (None, None) => true,
        _ => false,
    }
}

/// The user data of the delivery that is read, and how many octets it takes.
fn user_of(alloc: Global, octets: &[u8]) -> Result<(UserData, usize), Fail> {
    let (deliver, used) = Deliver::read(alloc, octets)?;
    let user = deliver.user.copy(alloc)?;
    Ok((user, used))
}

/// Whether a delivery is read as its row says.
fn is_read(alloc: Global, row: &Delivery) -> Result<bool, Fail> {
    let (user, used) = user_of(alloc, row.octets)?;
    Ok(
        used == row.octets.len()
            && octets_in(&user.body) == row.body
            && has_header(&user.header, row),
    )
}

/// The text of the delivery, which is given away.
fn text_of(alloc: Global, octets: &[u8]) -> Result<Option<String>, Fail> {
    let (deliver, _) = Deliver::read(alloc, octets)?;
    let Deliver { dcs, user, .. } = deliver;
    let UserData { body, .. } = user;
    Ok(body.into_text(alloc, alphabet_of(dcs))?)
}

/// What is written of the delivery that is read, and read again.
fn written(alloc: Global, octets: &[u8]) -> Result<Vec<u8>, Refusal<UnitFault>> {
    let (deliver, _) = Deliver::read(alloc, octets)?;
    rewritten(alloc, &deliver)
}

#[test]
fn reads_and_writes_deliveries(rt: HostRuntime) -> Result<(), Fail> {
    for row in DELIVERIES.as_slice() {
        let read = is_read(rt.alloc(), row)?;
        holds(&rt, &row.octets, read);
        let text = text_of(rt.alloc(), row.octets)?;
        same(&rt, &row.octets, &text.as_deref(), &Some(row.text));
        let written = written(rt.alloc(), row.octets)?;
        are(&rt, &row.octets, &written, row.octets);
    }
    Ok(())
}

/// The fields of the delivery of `hellohello`.
fn is_hello(rt: &impl Abort, deliver: &Deliver) {
    let flags = [deliver.more, deliver.looped, deliver.report, deliver.reply];
    same(rt, &"flags", &flags, &[false; 4]);
    let origin = (deliver.origin.type_of_number, deliver.origin.plan);
    same(rt, &"TP-OA", &origin, &(4, 8));
    same(
        rt,
        &"TP-PID and TP-DCS",
        &(deliver.pid, deliver.dcs),
        &(0, 0),
    );
    let stamp = [0x99, 0x30, 0x92, 0x51, 0x61, 0x95, 0x80];
    same(rt, &"TP-SCTS", &deliver.stamp.octets(), &stamp);
    holds(
        rt,
        &"septets",
        matches!(&deliver.user.body, Body::Septets(_)),
    );
    are(rt, &"TP-UD", octets_in(&deliver.user.body), b"hellohello");
}

#[test]
fn reads_a_delivery(rt: HostRuntime) -> Result<(), Fail> {
    let (deliver, used) = Deliver::read(rt.alloc(), &HELLO)?;
    same(&rt, &"octets", &used, &28);
    is_hello(&rt, &deliver);
    Ok(())
}

#[test]
fn writes_a_delivery(rt: HostRuntime) -> Result<(), Fail> {
    let written = written(rt.alloc(), &HELLO)?;
    are(&rt, &"written", &written, &HELLO);
    Ok(())
}

/// What is written of the delivery that is read, its user data lent, in the room of three octets.
fn written_in_room(alloc: Global, octets: &[u8]) -> Result<Vec<u8>, Refusal<UnitFault>> {
    let (deliver, _) = Deliver::read(alloc, octets)?;
    let front = DeliverFront {
        more: deliver.more,
        looped: deliver.looped,
        report: deliver.report,
        reply: deliver.reply,
        origin: deliver.origin.copy(alloc)?,
        pid: deliver.pid,
        dcs: deliver.dcs,
        stamp: deliver.stamp,
    };
    let room = Vec::from_slice(alloc, &[1, 2, 3])?;
    Ok(front.write_with_in(room, &deliver.user)?)
}

#[test]
fn writes_deliveries_whose_user_data_are_lent(rt: HostRuntime) -> Result<(), Fail> {
    for row in DELIVERIES.as_slice() {
        let written = written_in_room(rt.alloc(), row.octets)?;
        are(&rt, &row.octets, &written, row.octets);
    }
    Ok(())
}

/// One growth is refused, whichever it is (docs/CONTRIBUTING.md says how).
#[test]
fn writes_lent_user_data_after_a_refused_growth(rt: HostRuntime) -> Result<(), Fail> {
    let written = match written_in_room(rt.alloc(), &HELLO) {
        Ok(written) => written,
        Err(_) => written_in_room(rt.alloc(), &HELLO)?,
    };
    are(&rt, &"hellohello", &written, &HELLO);
    Ok(())
}

/// Octets that are no delivery, and the place and the reason of the refusal.
#[derive(Clone, Copy)]
struct Refused {
    octets: &'static [u8],
    place: usize,
    why: UnitFault,
}

static REFUSED: [Refused; 7] = [
    Refused {
        octets: &[0x05],
        place: 0,
        why: UnitFault::WrongType,
    },
    Refused {
        octets: &[0x06],
        place: 0,
        why: UnitFault::WrongType,
    },
    Refused {
        octets: &[0x45],
        place: 0,
        why: UnitFault::WrongType,
    },
    Refused {
        octets: &HEADER_LONGER_THAN_DATA,
        place: 15,
        why: UnitFault::HeaderTooLong,
    },
    Refused {
        octets: &NO_ROOM_FOR_A_HEADER,
        place: 14,
        why: UnitFault::HeaderTooLong,
    },
    Refused {
        octets: &[0x04, 0x15],
        place: 1,
        why: UnitFault::AddressTooLong,
    },
    Refused {
        octets: &TOO_LONG,
        place: 18,
        why: UnitFault::DataTooLong,
    },
];

/// A delivery is refused at this place for this reason.
fn is_refused(rt: &impl Abort, alloc: Global, octets: &[u8], place: usize, why: UnitFault) {
    let refusal = Deliver::read(alloc, octets).err();
    same(rt, &octets, &refusal, &Some(Refusal::At { place, why }));
}

#[test]
fn refuses_a_delivery(rt: HostRuntime) {
    for n in 0..HELLO.len() {
        is_refused(&rt, rt.alloc(), &HELLO[..n], n, UnitFault::Short);
    }
    for row in REFUSED.as_slice() {
        is_refused(&rt, rt.alloc(), row.octets, row.place, row.why);
    }
}
