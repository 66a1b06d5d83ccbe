//! Pieces that come one after another.

ghost use Rattle.std.specs.Prelude.{◌≡◌, IfOk};
ghost use Rattle.sms_tpdu.specs.UserData.ConcatenationFound.{IsPlace};

use sms_field::{Address, Stamp};
use sms_join::{Gateway, GatewayLimits, Ucs2Units, Units};
use sms_page::Page;
use sms_stream::{Arrival, Clock, Piece, Stream};
use sms_told::{Form, Telling};
use sms_tpdu::{Concat, Width};
use std::alloc::Global;
use std::test::Fail;

/// A piece of a stream.
#[derive(Clone, Copy)]
struct Row {
    /// Whom it is from.
    origin: &'static str,
    /// The moment of its stamp, if it has one.
    moment: Option<u64>,
    /// Its place among the two segments of its message, if it is one.
    sequence: Option<u8>,
    /// The only unit of its text.
    unit: u16,
    /// What is told of it.
    told: &'static str,
}

/// A set is dropped just a week after it was opened, before the piece by which the clock goes on is
/// told; what comes of it then opens it anew.
const ROWS: [Row; 6] = [
    Row {
        origin: "1001",
        moment: Some(800_000_000),
        sequence: Some(1),
        unit: 0x61,
        told: "",
    },
    Row {
        origin: "1002",
        moment: Some(800_259_200),
        sequence: None,
        unit: 0x62,
        told: "800259200 1002 b\n",
    },
    Row {
        origin: "1002",
        moment: Some(800_604_800),
        sequence: None,
        unit: 0x63,
        told: "dropped: 1001 8 7 2 missing 2\n800604800 1002 c\n",
    },
    Row {
        origin: "1002",
        moment: Some(800_604_800),
        sequence: None,
        unit: 0x63,
        told: "line 4: repeat\n",
    },
    Row {
        origin: "1003",
        moment: None,
        sequence: None,
        unit: 0x64,
        told: "- 1003 d\n",
    },
    Row {
        origin: "1001",
        moment: Some(800_604_800),
        sequence: Some(2),
        unit: 0x65,
        told: "",
    },
];

/// The place of a segment of two.
fn place_of(sequence: Option<u8>) -> Option<Concat>
    ensures { IsPlace result }
{
    let sequence = sequence?;
    if sequence == 0 || sequence > 2 {
        return None;
    }
    Some(Concat {
        width: Width::Eight,
        reference: 7,
        maximum: 2,
        sequence,
    })
}

/// The stamp of a moment in zone 0.
fn stamp_of(moment: Option<u64>) -> Option<Stamp> {
    Stamp::at(moment?, 0)
}

/// The piece of a row.
fn piece_of(alloc: Global, row: &Row) -> Result<Piece, &'static str>
    ensures { IfOk result (λ piece. IsPlace piece.concat) }
{
    let origin = Address::from_text(alloc, row.origin).map_err(|_| "address")?;
    let units = Vec::from_slice(alloc, &[row.unit]).map_err(|_| "memory")?;
    Ok(Piece {
        origin,
        stamp: stamp_of(row.moment),
        concat: place_of(row.sequence),
        units: Units::Ucs2(Ucs2Units::new(units)),
    })
}

/// A stream that tells all.
fn stream_of(alloc: Global) -> Result<Stream, &'static str> {
    let telling = Telling {
        form: Form::Plain,
        is_verbose: true,
        tells_lines: false,
    };
    let joiner = Gateway::new(alloc, GatewayLimits::new(4, 8)).map_err(|_| "memory")?;
    Ok(Stream::new(telling, joiner, Clock::new()))
}

/// What is told of a piece of this line.
fn told(
    alloc: Global,
    stream: &mut Stream,
    number: u64,
    row: &Row,
) -> Result<String, &'static str> {
    let piece = piece_of(alloc, row)?;
    let arrival = Arrival {
        number,
        recipient: None,
    };
    let mut page = Page::new(alloc);
    stream
        .take(alloc, arrival, piece, &mut page)
        .map_err(|_| "memory")?;
    page.into_text().map_err(|_| "memory")
}

/// What is told at the end.
fn told_at_last(alloc: Global, stream: &Stream) -> Result<String, &'static str> {
    let mut page = Page::new(alloc);
    stream.finish(alloc, &mut page).map_err(|_| "memory")?;
    page.into_text().map_err(|_| "memory")
}

#[test]
fn old_sets_go_before_a_piece_is_offered(rt: HostRuntime) -> Result<(), Fail> {
    let mut stream = stream_of(rt.alloc())?;
    let mut number = 0u64;
    for row in ROWS.iter() {
        number = number.saturating_add(1);
        let told = told(rt.alloc(), &mut stream, number, row)?;
        assert_eq!(rt; told.as_str(), row.told);
    }
    let told = told_at_last(rt.alloc(), &stream)?;
    assert_eq!(rt; told.as_str(), "open: 1001 8 7 2 missing 1\n");
    let losses = stream.losses();
    assert_eq!(rt; (losses.dropped, losses.turned_away), (1, 0));
    Ok(())
}

/// Whether the first pieces are told as they are; none where memory runs out.
fn are_told(alloc: Global) -> Option<bool> {
    let mut stream = stream_of(alloc).ok()?;
    let mut number = 0u64;
    for row in ROWS.iter() {
        number = number.saturating_add(1);
        if told(alloc, &mut stream, number, row).ok()?.as_str() != row.told {
            return Some(false);
        }
    }
    Some(true)
}

/// One growth is refused, whichever it is (docs/CONTRIBUTING.md says how): a second try does what
/// the first would have done.
#[test]
fn pieces_are_told_after_a_refused_growth(rt: HostRuntime) -> Result<(), Fail> {
    let told = are_told(rt.alloc()).or(are_told(rt.alloc()));
    assert_eq!(rt; told, Some(true));
    Ok(())
}
