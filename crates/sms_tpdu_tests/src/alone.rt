//! User data with no unit around them, by hand.

ghost use Rattle.std.specs.Prelude.{IfOk};
ghost use Rattle.sms_field.specs.declared.coding.Alphabet.TheVariants.{Gsm7};
ghost use Rattle.sms_tpdu.specs.UserData.{FitsAlphabet};

use crate::found::{are, holds, same};
use sms_field::{Alphabet, Fault};
use sms_text::gsm_of;
use sms_tpdu::{
    Body, Concat, DataFault, Header, Length, Septets, SinglesView, UnitFault, UserData,
    UserDataView, Width,
};
use std::alloc::{AllocError, Global};
use std::process::Abort;
use std::test::Fail;

/// `hellohello`, packed.
const PACKED: [u8; 9] = [0xE8, 0x32, 0x9B, 0xFD, 0x46, 0x97, 0xD9, 0xEC, 0x37];

/// `hellohello`, a septet an octet.
const SINGLES: [u8; 10] = [0x68, 0x65, 0x6C, 0x6C, 0x6F, 0x68, 0x65, 0x6C, 0x6C, 0x6F];

/// `hi` as the second segment of two, reference 7: the header, a fill bit, two septets.
const SECOND: [u8; 8] = [0x05, 0x00, 0x03, 0x07, 0x02, 0x02, 0xD0, 0x69];

/// The same, a septet an octet.
const SECOND_SINGLES: [u8; 8] = [0x05, 0x00, 0x03, 0x07, 0x02, 0x02, 0x68, 0x69];

/// Octets that are read as data: whether a header stands before them, their alphabet and length,
/// how many of them they take, and their text.
struct Row {
    octets: &'static [u8],
    with_header: bool,
    alphabet: Alphabet,
    told: Length,
    used: usize,
    text: &'static str,
}

/// By 3GPP TS 23.040, 9.2.3.24: seven bits that are spare in the last octet look like one septet
/// more.
static READ: [Row; 7] = [
    Row {
        octets: &PACKED,
        with_header: false,
        alphabet: Alphabet::Gsm7,
        told: Length::Told(10),
        used: 9,
        text: "hellohello",
    },
    Row {
        octets: &PACKED,
        with_header: false,
        alphabet: Alphabet::Gsm7,
        told: Length::Told(2),
        used: 2,
        text: "he",
    },
    Row {
        octets: &PACKED,
        with_header: false,
        alphabet: Alphabet::Gsm7,
        told: Length::Whole,
        used: 9,
        text: "hellohello",
    },
    Row {
        octets: &[0xE8, 0x32, 0x9B, 0xFD, 0x46, 0x97, 0x01],
        with_header: false,
        alphabet: Alphabet::Gsm7,
        told: Length::Whole,
        used: 7,
        text: "hellohe@",
    },
    Row {
        octets: &SECOND,
        with_header: true,
        alphabet: Alphabet::Gsm7,
        told: Length::Told(9),
        used: 8,
        text: "hi",
    },
    Row {
        octets: &[0x04, 0x16, 0x00, 0x41, 0x00],
        with_header: false,
        alphabet: Alphabet::Ucs2,
        told: Length::Told(4),
        used: 4,
        text: "ЖA",
    },
    Row {
        octets: &[0x00, 0x04, 0x16],
        with_header: true,
        alphabet: Alphabet::Ucs2,
        told: Length::Whole,
        used: 3,
        text: "Ж",
    },
];

#[test]
fn data_alone_are_read(rt: HostRuntime) -> Result<(), Fail> {
    for row in &READ {
        let (view, used) = UserDataView::read_alone(
            row.octets,
            row.with_header,
            row.alphabet,
            row.told,
        )?;
        same(&rt, &row.octets, &used, &row.used);
        let text = view.body().text(rt.alloc(), row.alphabet)?;
        let text = text.ok_or("no text")?;
        same(&rt, &row.octets, &text.as_str(), &row.text);
    }
    Ok(())
}

/// Octets that are refused as data: where, and why.
struct Refused {
    octets: &'static [u8],
    with_header: bool,
    alphabet: Alphabet,
    told: Length,
    place: usize,
    why: UnitFault,
}

static REFUSED: [Refused; 7] = [
    Refused {
        octets: &PACKED,
        with_header: false,
        alphabet: Alphabet::Gsm7,
        told: Length::Told(11),
        place: 9,
        why: UnitFault::Short,
    },
    Refused {
        octets: &PACKED,
        with_header: false,
        alphabet: Alphabet::Gsm7,
        told: Length::Told(161),
        place: 0,
        why: UnitFault::DataTooLong,
    },
    Refused {
        octets: &PACKED,
        with_header: false,
        alphabet: Alphabet::EightBit,
        told: Length::Told(141),
        place: 0,
        why: UnitFault::DataTooLong,
    },
    Refused {
        octets: &[0; 141],
        with_header: false,
        alphabet: Alphabet::Gsm7,
        told: Length::Whole,
        place: 0,
        why: UnitFault::DataTooLong,
    },
    Refused {
        octets: &[],
        with_header: true,
        alphabet: Alphabet::EightBit,
        told: Length::Whole,
        place: 0,
        why: UnitFault::HeaderTooLong,
    },
    Refused {
        octets: &[0x03, 0x00, 0x00],
        with_header: true,
        alphabet: Alphabet::EightBit,
        told: Length::Whole,
        place: 0,
        why: UnitFault::HeaderTooLong,
    },
    Refused {
        octets: &[0x02, 0x00],
        with_header: true,
        alphabet: Alphabet::EightBit,
        told: Length::Told(3),
        place: 2,
        why: UnitFault::Short,
    },
];

#[test]
fn other_data_are_refused(rt: HostRuntime) -> Result<(), Fail> {
    for row in &REFUSED {
        let read = UserDataView::read_alone(row.octets, row.with_header, row.alphabet, row.told);
        let fault = read.err().ok_or("read")?;
        let wanted = Fault {
            place: row.place,
            why: row.why,
        };
        same(&rt, &row.octets, &fault, &wanted);
    }
    Ok(())
}

#[test]
fn septets_one_an_octet_are_read(rt: HostRuntime) -> Result<(), Fail> {
    let (plain, used) = SinglesView::read(&SINGLES, false)?;
    same(&rt, &"used", &used, &10);
    are(&rt, &"septets", plain.septets(), &SINGLES);
    holds(&rt, &"no header", plain.header().is_none());
    let (second, used) = SinglesView::read(&SECOND_SINGLES, true)?;
    same(&rt, &"used", &used, &8);
    are(&rt, &"septets", second.septets(), &[0x68, 0x69]);
    let Some(header) = second.header() else {
        return Err("no header".into());
    };
    are(&rt, &"header", header.as_slice(), &SECOND_SINGLES[1..6]);
    Ok(())
}

/// Octets of which one cannot stand where it does.
struct Bad {
    octets: &'static [u8],
    with_header: bool,
    place: usize,
    why: DataFault,
}

/// With a header of five octets, six septets and a fill bit are taken of the 160.
static BAD: [Bad; 6] = [
    Bad {
        octets: &[0x68, 0x80, 0xFF],
        with_header: false,
        place: 1,
        why: DataFault::BadSeptet,
    },
    Bad {
        octets: &[0x01, 0x80, 0x68, 0xE9],
        with_header: true,
        place: 3,
        why: DataFault::BadSeptet,
    },
    Bad {
        octets: &[0; 161],
        with_header: false,
        place: 0,
        why: DataFault::DataTooLong,
    },
    Bad {
        octets: &[0; 160],
        with_header: true,
        place: 0,
        why: DataFault::DataTooLong,
    },
    Bad {
        octets: &[],
        with_header: true,
        place: 0,
        why: DataFault::HeaderTooLong,
    },
    Bad {
        octets: &[0x02, 0x00],
        with_header: true,
        place: 0,
        why: DataFault::HeaderTooLong,
    },
];

#[test]
fn other_octets_are_no_septets(rt: HostRuntime) -> Result<(), Fail> {
    for row in &BAD {
        let read = SinglesView::read(row.octets, row.with_header);
        let fault = read.err().ok_or("read")?;
        let wanted = Fault {
            place: row.place,
            why: row.why,
        };
        same(&rt, &row.octets, &fault, &wanted);
    }
    Ok(())
}

/// `hi` as the second segment of two; none where memory runs out.
fn second(alloc: Global) -> Result<UserData, AllocError>
    ensures { IfOk result (FitsAlphabet Gsm7) }
{
    let septets = match gsm_of(alloc, "hi")? {
        Some(septets) if septets.len() <= 153 => septets,
        _ => Vec::new(alloc),
    };
    let place = Concat {
        width: Width::Eight,
        reference: 7,
        maximum: 2,
        sequence: 2,
    };
    Ok(UserData {
        header: Some(Header::of(alloc, place)?),
        body: Body::Septets(Septets::new(septets)),
    })
}

/// Both ways in which it is written.
fn written(alloc: Global) -> Result<(Vec<u8>, Vec<u8>), AllocError> {
    let user = second(alloc)?;
    Ok((user.write_alone(alloc)?, user.write_singles(alloc)?))
}

/// It is written as 3GPP TS 23.040, 9.2.3.24 says.
fn is_written(rt: &impl Abort, written: &(Vec<u8>, Vec<u8>)) {
    are(rt, &"packed", written.0.as_slice(), &SECOND);
    are(
        rt,
        &"a septet an octet",
        written.1.as_slice(),
        &SECOND_SINGLES,
    );
}

#[test]
fn data_alone_are_written(rt: HostRuntime) -> Result<(), Fail> {
    let octets = written(rt.alloc())?;
    is_written(&rt, &octets);
    Ok(())
}

#[test]
fn data_alone_are_written_after_a_refused_growth(rt: HostRuntime) -> Result<(), Fail> {
    let octets = match written(rt.alloc()) {
        Err(AllocError) => written(rt.alloc())?,
        Ok(octets) => octets,
    };
    is_written(&rt, &octets);
    Ok(())
}
