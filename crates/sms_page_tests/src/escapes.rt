//! Each character that has an escape, and some that have none, as a string of JSON and in one line.

use sms_page::{Page, put_json, put_line};
use std::alloc::Global;
use std::test::Fail;

/// A text, how a string of JSON has it (RFC 8259, section 7), and how a line has it.
static ROWS: [(&str, &str, &str); 39] = [
    ("\u{0}", "\\u0000", "\\x00"),
    ("\u{1}", "\\u0001", "\\x01"),
    ("\u{2}", "\\u0002", "\\x02"),
    ("\u{3}", "\\u0003", "\\x03"),
    ("\u{4}", "\\u0004", "\\x04"),
    ("\u{5}", "\\u0005", "\\x05"),
    ("\u{6}", "\\u0006", "\\x06"),
    ("\u{7}", "\\u0007", "\\x07"),
    ("\u{8}", "\\b", "\\x08"),
    ("\u{9}", "\\t", "\\x09"),
    ("\u{A}", "\\n", "\\n"),
    ("\u{B}", "\\u000b", "\\x0b"),
    ("\u{C}", "\\f", "\\f"),
    ("\u{D}", "\\r", "\\r"),
    ("\u{E}", "\\u000e", "\\x0e"),
    ("\u{F}", "\\u000f", "\\x0f"),
    ("\u{10}", "\\u0010", "\\x10"),
    ("\u{11}", "\\u0011", "\\x11"),
    ("\u{12}", "\\u0012", "\\x12"),
    ("\u{13}", "\\u0013", "\\x13"),
    ("\u{14}", "\\u0014", "\\x14"),
    ("\u{15}", "\\u0015", "\\x15"),
    ("\u{16}", "\\u0016", "\\x16"),
    ("\u{17}", "\\u0017", "\\x17"),
    ("\u{18}", "\\u0018", "\\x18"),
    ("\u{19}", "\\u0019", "\\x19"),
    ("\u{1A}", "\\u001a", "\\x1a"),
    ("\u{1B}", "\\u001b", "\\x1b"),
    ("\u{1C}", "\\u001c", "\\x1c"),
    ("\u{1D}", "\\u001d", "\\x1d"),
    ("\u{1E}", "\\u001e", "\\x1e"),
    ("\u{1F}", "\\u001f", "\\x1f"),
    (" ", " ", " "),
    ("\"", "\\\"", "\""),
    ("\\", "\\\\", "\\\\"),
    ("\u{7F}", "\u{7F}", "\\x7f"),
    ("\u{80}", "\u{80}", "\u{80}"),
    ("\u{2028}", "\u{2028}", "\u{2028}"),
    ("\u{FFFD}", "\u{FFFD}", "\u{FFFD}"),
];

/// The octets of a page.
fn octets_of(page: Page) -> Result<Vec<u8>, Fail> {
    Ok(page.into_octets().map_err(|_| "memory")?)
}

/// A text as a string of JSON.
fn json_of(alloc: Global, text: &str) -> Result<Vec<u8>, Fail> {
    let mut page = Page::new(alloc);
    put_json(&mut page, false, text.as_bytes());
    octets_of(page)
}

/// A text in one line.
fn line_of(alloc: Global, text: &str) -> Result<Vec<u8>, Fail> {
    let mut page = Page::new(alloc);
    put_line(&mut page, text.as_bytes());
    octets_of(page)
}

#[test]
fn each_character_stands_as_it_is_or_as_its_escape(rt: HostRuntime) -> Result<(), Fail> {
    for (text, json, line) in ROWS {
        let quoted = ["\"", json, "\""].concat(rt.alloc())?;
        assert_eq!(rt; json_of(rt.alloc(), text)?.as_slice(), quoted.as_bytes());
        assert_eq!(rt; line_of(rt.alloc(), text)?.as_slice(), line.as_bytes());
    }
    Ok(())
}

#[test]
fn all_characters_stand_one_behind_another(rt: HostRuntime) -> Result<(), Fail> {
    let mut whole = String::new(rt.alloc());
    let mut quoted = String::new(rt.alloc());
    let mut lines = String::new(rt.alloc());
    quoted.push('"')?;
    for (text, json, line) in ROWS {
        whole.push_str(text)?;
        quoted.push_str(json)?;
        lines.push_str(line)?;
    }
    quoted.push('"')?;
    assert_eq!(rt; json_of(rt.alloc(), &whole)?.as_slice(), quoted.as_bytes());
    assert_eq!(rt; line_of(rt.alloc(), &whole)?.as_slice(), lines.as_bytes());
    Ok(())
}
