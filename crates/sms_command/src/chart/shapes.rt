//! Lines and texts in SVG.

use sms_page::Page;

/// A place of the chart: pixels from the left and from above.
#[derive(Clone, Copy)]
pub struct Point {
    pub x: u64,
    pub y: u64,
}

/// To which side of its place a text stands.
#[derive(Clone, Copy, Debug, PartialEq, Eq)]
pub enum Side {
    Left,
    Right,
    Middle,
}

impl Side {
    /// The side on the other hand.
    pub fn other(self) -> Side {
        match self {
            Side::Left => Side::Right,
            Side::Right => Side::Left,
            Side::Middle => Side::Middle,
        }
    }

    /// The text anchor of SVG.
    fn anchor(self) -> &'static str {
        match self {
            Side::Left => "end",
            Side::Right => "start",
            Side::Middle => "middle",
        }
    }
}

/// A place some pixels beside another one.
pub fn beside(point: Point, side: Side, pixels: u64) -> Point {
    let x = match side {
        Side::Left => point.x.saturating_sub(pixels),
        Side::Right => point.x.saturating_add(pixels),
        Side::Middle => point.x,
    };
    Point { x, y: point.y }
}

/// Adds an attribute with a number.
pub fn put_number(page: &mut Page, name: &str, number: u64) {
    page.put(b" ");
    page.put(name.as_bytes());
    page.put(b"=\"");
    page.put_decimal(number);
    page.put(b"\"");
}

/// Adds a line of a class.
pub fn put_line(page: &mut Page, class: &str, from: Point, to: Point) {
    page.put(b"<line class=\"");
    page.put(class.as_bytes());
    page.put(b"\"");
    put_number(page, "x1", from.x);
    put_number(page, "y1", from.y);
    put_number(page, "x2", to.x);
    put_number(page, "y2", to.y);
    page.put(b"/>\n");
}

/// Adds a dot.
pub fn put_dot(page: &mut Page, point: Point) {
    page.put(b"<circle");
    put_number(page, "cx", point.x);
    put_number(page, "cy", point.y);
    page.put(b" r=\"4\"/>\n");
}

/// Begins a text of a class.
pub fn open_text(page: &mut Page, class: &str, point: Point, side: Side) {
    page.put(b"<text class=\"");
    page.put(class.as_bytes());
    page.put(b"\"");
    put_number(page, "x", point.x);
    put_number(page, "y", point.y);
    page.put(b" text-anchor=\"");
    page.put(side.anchor().as_bytes());
    page.put(b"\">");
}

/// Ends a text.
pub fn close_text(page: &mut Page) {
    page.put(b"</text>\n");
}

/// What stands for a character of a text in XML, which has none of the last two of the plane; none
/// where it stands as it is.
fn escape_of(character: char) -> Option<&'static str> {
    match character {
        '&' => Some("&amp;"),
        '<' => Some("&lt;"),
        '>' => Some("&gt;"),
        '\u{FFFE}' | '\u{FFFF}' => Some("\u{FFFD}"),
        _ => None,
    }
}

/// Adds the front of a text in XML, as many characters as may stand there; a longer one ends in
/// three dots. What stands as it is goes in one piece.
pub fn put_words(page: &mut Page, text: &str, most: usize) {
    let octets = text.as_bytes();
    let mut count = 0usize;
    let mut start = 0;
    for (place, character) in text.char_indices() {
        if count >= most {
            page.put(octets.get(start..place).unwrap_or(&[]));
            page.put("…".as_bytes());
            return;
        }
        if let Some(escape) = escape_of(character) {
            page.put(octets.get(start..place).unwrap_or(&[]));
            page.put(escape.as_bytes());
            start = place.saturating_add(character.len_utf8());
        }
        count = count.saturating_add(1);
    }
    page.put(octets.get(start..).unwrap_or(&[]));
}
