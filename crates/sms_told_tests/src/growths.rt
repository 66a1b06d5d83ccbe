//! Texts that are told while one request for memory is refused.

use crate::texts::{Row, put_row};
use sms_page::Page;
use sms_told::Form;
use std::alloc::Global;
use std::test::Fail;

/// A text whose origin and recipient are names, which take memory.
const NAMES: Row = Row {
    form: Form::Plain,
    line: None,
    recipient: Some("\u{e9}t\u{e9}"),
    origin: "Caf\u{e9}",
    moment: None,
    text: "x",
    told: "\u{e9}t\u{e9} - Caf\u{e9} x\n",
};

/// Whether the text is told, behind what stands there; none where memory runs out, and whatever
/// stands on the page is a front of it.
fn is_told(alloc: Global) -> Option<bool> {
    let mut page = Page::new(alloc);
    page.put(b"before\n");
    let put = put_row(alloc, &NAMES, &mut page);
    let count = page.count();
    let octets = page.into_octets().ok()?;
    if put.is_err() {
        return if count == 7 { None } else { Some(false) };
    }
    let told = octets.as_slice();
    Some(told.starts_with(b"before\n") && told.ends_with(NAMES.told.as_bytes()))
}

/// One growth is refused, whichever it is (docs/CONTRIBUTING.md says how): a second try does what
/// the first would have done.
#[test]
fn is_told_after_a_refused_growth(rt: HostRuntime) -> Result<(), Fail> {
    let told = is_told(rt.alloc()).or(is_told(rt.alloc()));
    assert_eq!(rt; told, Some(true));
    Ok(())
}
