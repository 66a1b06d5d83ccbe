//! Headers whose octets are known from the standard's tables.

use crate::found::{are, same};
use sms_tpdu::{Concat, Header, Refusal, Unit, UnitFault, Width};
use std::alloc::{AllocError, Global};
use std::process::Abort;
use std::test::Fail;

/// The first of two segments with reference 10.
const TEN: Concat = Concat {
    width: Width::Eight,
    reference: 10,
    maximum: 2,
    sequence: 1,
};

/// The only segment, with the greatest reference of one octet.
const ALONE: Concat = Concat {
    width: Width::Eight,
    reference: 255,
    maximum: 1,
    sequence: 1,
};

/// The first of two segments, with a reference in two octets.
const FIRST: Concat = Concat {
    width: Width::Sixteen,
    reference: 258,
    maximum: 2,
    sequence: 1,
};

/// The second of them.
const SECOND: Concat = Concat {
    width: Width::Sixteen,
    reference: 258,
    maximum: 2,
    sequence: 2,
};

/// The last of three segments with reference 11.
const LAST: Concat = Concat {
    width: Width::Eight,
    reference: 11,
    maximum: 3,
    sequence: 3,
};

/// The last of 255 segments.
const GREATEST: Concat = Concat {
    width: Width::Eight,
    reference: 255,
    maximum: 255,
    sequence: 255,
};

/// The octets of a header, and the place of a segment that it tells, if it tells one.
struct Told {
    octets: &'static [u8],
    want: Option<Concat>,
}

static TOLD: [Told; 20] = [
    Told {
        octets: b"\x05\x00\x03\x0A\x02\x01",
        want: Some(TEN),
    },
    Told {
        octets: b"\x05\x00\x03\xFF\x01\x01",
        want: Some(ALONE),
    },
    Told {
        octets: b"\x06\x08\x04\x01\x02\x02\x01",
        want: Some(FIRST),
    },
    // the last of two counts, whatever its width
    Told {
        octets: b"\x0B\x00\x03\x0A\x02\x01\x08\x04\x01\x02\x02\x02",
        want: Some(SECOND),
    },
    Told {
        octets: b"\x0B\x08\x04\x01\x02\x02\x02\x00\x03\x0A\x02\x01",
        want: Some(TEN),
    },
    Told {
        octets: b"\x0A\x00\x03\x0A\x02\x01\x00\x03\x0B\x03\x03",
        want: Some(LAST),
    },
    // one that tells none does not count
    Told {
        octets: b"\x0A\x00\x03\x0A\x02\x01\x00\x03\x0B\x02\x00",
        want: Some(TEN),
    },
    Told {
        octets: b"\x05\x00\x03\x0A\x02\x03",
        want: None,
    },
    Told {
        octets: b"\x05\x00\x03\x0A\x02\x00",
        want: None,
    },
    Told {
        octets: b"\x05\x00\x03\x0A\x00\x00",
        want: None,
    },
    Told {
        octets: b"\x05\x00\x03\x0A\x00\x01",
        want: None,
    },
    // of another length
    Told {
        octets: b"\x06\x00\x04\x0A\x02\x01\x01",
        want: None,
    },
    Told {
        octets: b"\x05\x08\x03\x01\x02\x01",
        want: None,
    },
    Told {
        octets: b"\x04\x00\x02\x02\x01",
        want: None,
    },
    // unknown ones, and ones of length 0, before and after
    Told {
        octets: b"\x10\x24\x01\x00\x70\x00\x00\x03\x0A\x02\x01\x05\x04\x15\x81\x15\x81",
        want: Some(TEN),
    },
    Told {
        octets: b"\x04\x00\x00\x08\x00",
        want: None,
    },
    Told {
        octets: b"\x00",
        want: None,
    },
    // the last one is cut
    Told {
        octets: b"\x04\x00\x03\x0A\x02",
        want: None,
    },
    Told {
        octets: b"\x08\x00\x03\x0A\x02\x01\x24\x02\x00",
        want: None,
    },
    Told {
        octets: b"\x06\x00\x03\x0A\x02\x01\x24",
        want: None,
    },
];

/// The place of a segment, and the octets of its header.
struct Written {
    concat: Concat,
    want: &'static [u8],
}

/// Octets that are no header, and the place and the reason of the refusal.
struct Refused {
    octets: &'static [u8],
    place: usize,
    why: UnitFault,
}

static REFUSED: [Refused; 4] = [
    Refused {
        octets: b"",
        place: 0,
        why: UnitFault::Short,
    },
    Refused {
        octets: b"\x03\x24\x01",
        place: 3,
        why: UnitFault::Short,
    },
    Refused {
        octets: b"\x8B",
        place: 1,
        why: UnitFault::Short,
    },
    Refused {
        octets: b"\x8C",
        place: 0,
        why: UnitFault::HeaderTooLong,
    },
];

static WRITTEN: [Written; 3] = [
    Written {
        concat: TEN,
        want: b"\x05\x00\x03\x0A\x02\x01",
    },
    Written {
        concat: GREATEST,
        want: b"\x05\x00\x03\xFF\xFF\xFF",
    },
    Written {
        concat: FIRST,
        want: b"\x06\x08\x04\x01\x02\x02\x01",
    },
];

/// The header at the front of the octets takes all of them, and tells what is wanted.
fn tells(rt: &impl Abort, alloc: Global, row: &Told) -> Result<(), Fail> {
    let (header, used) = Header::read(alloc, row.octets)?;
    same(rt, &row.octets, &used, &row.octets.len());
    same(rt, &row.octets, &header.concat(), &row.want);
    Ok(())
}

#[test]
fn tells_the_place_of_a_segment(rt: HostRuntime) -> Result<(), Fail> {
    for row in TOLD.as_slice() {
        tells(&rt, rt.alloc(), row)?;
    }
    Ok(())
}

/// A copy of the header of a segment.
fn header_of(rt: &impl Abort, alloc: Global, concat: Concat) -> Result<Header, AllocError> {
    let fits = concat.width == Width::Sixteen || concat.reference < 256;
    assert!(rt; fits, "{concat:?}");
    Header::of(alloc, concat)?.copy(alloc)
}

/// The header of a segment is written as its row says, and tells the segment.
fn is_written(rt: &impl Abort, alloc: Global, row: &Written) -> Result<(), Fail> {
    let header = header_of(rt, alloc, row.concat)?;
    let written = header.write(alloc)?;
    are(rt, &row.concat, &written, row.want);
    same(rt, &row.concat, &header.concat(), &Some(row.concat));
    Ok(())
}

#[test]
fn reads_and_writes_a_header(rt: HostRuntime) -> Result<(), Fail> {
    for row in WRITTEN.as_slice() {
        is_written(&rt, rt.alloc(), row)?;
    }
    Ok(())
}

/// The header of 139 octets.
fn longest(alloc: Global) -> Result<Header, AllocError> {
    let octets = Vec::from_slice(alloc, &[7; 139])?;
    Ok(Header::new(octets))
}

/// What is written of the header is 140 octets.
fn is_long(rt: &impl Abort, written: &[u8]) {
    let front = (written.len(), written.first().copied());
    same(rt, &"length", &front, &(140, Some(139)));
}

/// The octets are read as the header of 139, with another octet after it.
fn is_longest(rt: &impl Abort, alloc: Global, octets: &[u8]) -> Result<(), Fail> {
    let (again, used) = Header::read(alloc, octets)?;
    same(rt, &"octets", &used, &140);
    are(rt, &"again", &again.into_vec(alloc)?, &[7; 139]);
    Ok(())
}

#[test]
fn reads_and_writes_the_longest_header(rt: HostRuntime) -> Result<(), Fail> {
    let header = longest(rt.alloc())?;
    are(&rt, &"longest", header.as_slice(), &[7; 139]);
    let mut written = header.write(rt.alloc())?;
    is_long(&rt, &written);
    written.push(9)?;
    is_longest(&rt, rt.alloc(), &written)
}

/// Octets are refused as their row says.
fn is_refused(rt: &impl Abort, alloc: Global, row: &Refused) {
    let refusal = Header::read(alloc, row.octets).err();
    let (place, why) = (row.place, row.why);
    same(rt, &row.octets, &refusal, &Some(Refusal::At { place, why }));
}

#[test]
fn refuses_what_is_no_header(rt: HostRuntime) {
    for row in REFUSED.as_slice() {
        is_refused(&rt, rt.alloc(), row);
    }
}
