//! User data alone in a line, as gateways hand them over: whom they are from, their data coding
//! scheme, whether a header stands in front, and the data.

use crate::fault::Fault;
use sms_show::read_octets;

/// User data alone.
#[derive(Clone, Copy)]
pub struct DataLine<'a> {
    /// Whom they are from (TP-OA), in text.
    pub origin: &'a str,
    /// The data coding scheme (TP-DCS).
    pub dcs: u8,
    /// Whether a header stands in front (TP-UDHI).
    pub has_header: bool,
    /// The octets of the data in hexadecimal digits.
    pub digits: &'a str,
}

/// The octet that two digits say.
fn octet_of(room: &mut Vec<u8>, digits: &str) -> Result<u8, Fault> {
    match read_octets(room, digits.as_bytes(), false)? {
        [octet] => Ok(*octet),
        _ => Err(Fault::BadLine),
    }
}

/// Whether a header stands in front, as a word says: 1 or 0.
fn flag_of(word: &str) -> Result<bool, Fault> {
    match word {
        "0" => Ok(false),
        "1" => Ok(true),
        _ => Err(Fault::BadLine),
    }
}

/// The words of a line.
#[derive(Clone, Copy)]
struct Words<'a> {
    origin: &'a str,
    dcs: &'a str,
    header: &'a str,
    digits: &'a str,
}

/// The four words of a line, if it has four.
fn words_of(line: &str) -> Option<Words<'_>> {
    let mut words = line.split_ascii_whitespace();
    let origin = words.next()?;
    let dcs = words.next()?;
    let header = words.next()?;
    let digits = words.next()?;
    if words.next().is_some() {
        return None;
    }
    Some(Words {
        origin,
        dcs,
        header,
        digits,
    })
}

/// What a line says.
pub fn data_line_in<'a>(line: &'a [u8], room: &mut Vec<u8>) -> Result<DataLine<'a>, Fault> {
    let Ok(line) = str::from_utf8(line) else {
        return Err(Fault::BadLine);
    };
    let Some(words) = words_of(line) else {
        return Err(Fault::BadLine);
    };
    let dcs = octet_of(room, words.dcs)?;
    let has_header = flag_of(words.header)?;
    Ok(DataLine {
        origin: words.origin,
        dcs,
        has_header,
        digits: words.digits,
    })
}
