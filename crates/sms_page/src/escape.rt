//! Texts that are escaped: in a string of JSON, and in one line.

ghost use Rattle.std.specs.Prelude.{◌≡◌, ◌+◌, ◌-◌, ◌<◌, ◌≤◌, true, false, length, drop, take};
ghost use Rattle.std.specs.List.{prefix_len};
ghost use Rattle.sms_page.specs.Page.{Puts, quoted};
ghost use Rattle.sms_page.specs.Plain.{is_plain, is_stop};
ghost use Rattle.sms_page.specs.Escapes.{Escapes, escape, escaped, json, line, two_lower};
ghost use Rattle.sms_page.specs.Inside.EscapeRules.{IsRule, json_rule, line_rule};

use crate::page::Page;
use crate::plain::{is_plain, plain_end};

/// What a string of JSON escapes besides control characters and the backslash.
const QUOTE: u8 = b'"';

/// What a line escapes besides them.
const DELETE: u8 = 127;

/// A way to escape texts.
pub trait Escaping {
    /// Its rule.
    ghost rule: { Escapes };

    /// Whether an octet stands as it is.
    fn is_plain(octet: u8) -> bool
        ensures { result ≡ is_plain rule.other octet };

    /// Where the octets end that stand as they are from a place on.
    fn plain_end(text: &[u8], from: usize) -> usize
        requires { from ≤ length text.now }
        ensures end { result ≡ from + prefix_len (is_plain rule.other) (drop from text.now) }
        ensures within { result ≤ length text.now };

    /// Adds the escape of an octet that does not stand as it is.
    fn put_escape(page: &mut Page, octet: u8)
        requires { is_stop rule.other octet ≡ true }
        ensures { Puts page.old page.new (escape rule octet) };

    /// What is plain stands as it is.
    ghost is_rule: { IsRule rule };
}

/// A string of JSON.
pub struct Json;

/// One line.
pub struct Line;

impl Escaping for Json {
    ghost rule = { json };

    #[inline(always)]
    fn is_plain(octet: u8) -> bool {
        is_plain::<QUOTE>(octet)
    }

    #[inline(always)]
    fn plain_end(text: &[u8], from: usize) -> usize {
        plain_end::<QUOTE>(text, from)
    }

    fn put_escape(page: &mut Page, octet: u8) {
        put_json_escape(page, octet);
    }

    ghost is_rule = { json_rule };
}

impl Escaping for Line {
    ghost rule = { line };

    #[inline(always)]
    fn is_plain(octet: u8) -> bool {
        is_plain::<DELETE>(octet)
    }

    #[inline(always)]
    fn plain_end(text: &[u8], from: usize) -> usize {
        plain_end::<DELETE>(text, from)
    }

    fn put_escape(page: &mut Page, octet: u8) {
        put_line_escape(page, octet);
    }

    ghost is_rule = { line_rule };
}

/// The two lower case digits of an octet.
fn two_lower(octet: u8) -> [u8; 2]
    ensures { result ≡ two_lower octet }
{
    let digits = b"0123456789abcdef";
    [
        digits[usize::from(octet / 16)],
        digits[usize::from(octet % 16)],
    ]
}

/// Adds the escape of an octet that does not stand in a string of JSON as it is.
fn put_json_escape(page: &mut Page, octet: u8)
    requires { is_stop QUOTE octet ≡ true }
    ensures { Puts page.old page.new (escape json octet) }
{
    match octet {
        b'"' => page.put_few(b"\\\""),
        b'\\' => page.put_few(b"\\\\"),
        8 => page.put_few(b"\\b"),
        b'\t' => page.put_few(b"\\t"),
        b'\n' => page.put_few(b"\\n"),
        12 => page.put_few(b"\\f"),
        b'\r' => page.put_few(b"\\r"),
        _ => {
            let [high, low] = two_lower(octet);
            page.put_few(&[b'\\', b'u', b'0', b'0', high, low]);
        }
    }
}

/// Adds what comes next of a text: the octets that stand as they are up to the next escape, or one
/// escape. Answers the place behind it.
#[inline(always)]
fn put_next<E: Escaping>(page: &mut Page, text: &[u8], at: usize) -> usize
    requires { at < length text.now }
    ensures put { Puts page.old page.new (escaped E.rule (take (result - at) (drop at text.now))) }
    ensures moved { (at < result) × (result ≤ length text.now) }
{
    let octet = text[at];
    if E::is_plain(octet) {
        let end = E::plain_end(text, at);
        page.put(&text[at..end]);
        return end;
    }
    E::put_escape(page, octet);
    at + 1
}

/// Adds a text as it is escaped.
fn put_parts<E: Escaping>(page: &mut Page, text: &[u8])
    ensures { Puts page.old page.new (escaped E.rule text.now) }
{
    let mut at = 0;
    while at < text.len() {
        at = put_next::<E>(page, text, at);
    }
}

/// Adds a text as it is escaped, whose octets before a place stand as they are.
fn put_behind<E: Escaping>(page: &mut Page, text: &[u8], end: usize)
    requires { (end ≡ prefix_len (is_plain E.rule.other) text.now) × (end ≤ length text.now) }
    ensures { Puts page.old page.new (escaped E.rule text.now) }
{
    page.put(&text[..end]);
    put_parts::<E>(page, &text[end..]);
}

/// Adds a text as a string of JSON, behind a comma or none.
pub fn put_json(page: &mut Page, has_comma: bool, text: &[u8])
    ensures { Puts page.old page.new (quoted has_comma (escaped json text.now) false) }
{
    let end = plain_end::<QUOTE>(text, 0);
    if end == text.len() {
        page.put_quoted(has_comma, text, false);
        return;
    }
    put_json_behind(page, has_comma, text, end);
}

/// Adds a text as a string of JSON, behind a comma or none, whose octets before a place stand as
/// they are.
#[inline(never)]
fn put_json_behind(page: &mut Page, has_comma: bool, text: &[u8], end: usize)
    requires { (end ≡ prefix_len (is_plain QUOTE) text.now) × (end ≤ length text.now) }
    ensures { Puts page.old page.new (quoted has_comma (escaped json text.now) false) }
{
    page.put_wanted(has_comma, b',');
    page.put_one(b'"');
    put_behind::<Json>(page, text, end);
    page.put_one(b'"');
}

/// Adds the escape of an octet that does not stand in a line as it is.
fn put_line_escape(page: &mut Page, octet: u8)
    requires { is_stop DELETE octet ≡ true }
    ensures { Puts page.old page.new (escape line octet) }
{
    match octet {
        b'\\' => page.put_few(b"\\\\"),
        b'\n' => page.put_few(b"\\n"),
        12 => page.put_few(b"\\f"),
        b'\r' => page.put_few(b"\\r"),
        _ => {
            let [high, low] = two_lower(octet);
            page.put_few(&[b'\\', b'x', high, low]);
        }
    }
}

/// Adds a text in one line.
pub fn put_line(page: &mut Page, text: &[u8])
    ensures { Puts page.old page.new (escaped line text.now) }
{
    let end = plain_end::<DELETE>(text, 0);
    if end == text.len() {
        page.put(text);
        return;
    }
    put_behind::<Line>(page, text, end);
}
