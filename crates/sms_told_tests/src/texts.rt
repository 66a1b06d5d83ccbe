//! Texts that are whole.

use sms_field::{Address, TextFault};
use sms_page::Page;
use sms_told::{Form, Whole, put_whole};
use std::alloc::Global;
use std::test::Fail;

/// A text, and how it is told.
#[derive(Clone, Copy)]
pub struct Row {
    pub form: Form,
    pub line: Option<u64>,
    pub recipient: Option<&'static str>,
    pub origin: &'static str,
    pub moment: Option<u64>,
    pub text: &'static str,
    pub told: &'static str,
}

const ROWS: [Row; 6] = [
    Row {
        form: Form::Plain,
        line: None,
        recipient: None,
        origin: "+491712345678",
        moment: None,
        text: "x",
        told: "- +491712345678 x\n",
    },
    Row {
        form: Form::Plain,
        line: Some(3),
        recipient: Some("*#abc"),
        origin: "Caf\u{e9}",
        moment: Some(850_000_000),
        text: "a\\b\nc\u{7f}\u{1f600}",
        told: "*#abc 850000000 Caf\u{e9} a\\\\b\\nc\\x7f\u{1f600}\n",
    },
    Row {
        form: Form::Plain,
        line: None,
        recipient: None,
        origin: "",
        moment: Some(0),
        text: "",
        told: "0  \n",
    },
    Row {
        form: Form::Json,
        line: None,
        recipient: None,
        origin: "1003",
        moment: None,
        text: "x",
        told: "{\"text\":\"x\",\"origin\":{\"text\":\"1003\",\"type\":0,\"plan\":1},\"moment\":null}\n",
    },
    Row {
        form: Form::Json,
        line: Some(12),
        recipient: Some("+1002"),
        origin: "1003",
        moment: Some(7),
        text: "x\"y\t",
        told: "{\"line\":12,\"recipient\":{\"text\":\"+1002\",\"type\":1,\"plan\":1},\"text\":\"x\\\"y\\t\",\"origin\":{\"text\":\"1003\",\"type\":0,\"plan\":1},\"moment\":7}\n",
    },
    Row {
        form: Form::Json,
        line: Some(0),
        recipient: None,
        origin: "Caf\u{e9}",
        moment: Some(7),
        text: "\u{1}",
        told: "{\"line\":0,\"text\":\"\\u0001\",\"origin\":{\"text\":\"Caf\u{e9}\",\"type\":5,\"plan\":0},\"moment\":7}\n",
    },
];

/// The address of a text.
pub fn address_of(alloc: Global, text: &str) -> Result<Address, &'static str> {
    match Address::from_text(alloc, text) {
        Ok(address) => Ok(address),
        Err(TextFault::Memory) => Err("memory"),
        Err(TextFault::Address(_)) => Err("address"),
    }
}

/// The address of a text, where there is one.
fn recipient_of(alloc: Global, text: Option<&str>) -> Result<Option<Address>, &'static str> {
    match text {
        Some(text) => Ok(Some(address_of(alloc, text)?)),
        None => Ok(None),
    }
}

/// Adds the text of a row.
pub fn put_row(alloc: Global, row: &Row, page: &mut Page) -> Result<(), &'static str> {
    let origin = address_of(alloc, row.origin)?;
    let recipient = recipient_of(alloc, row.recipient)?;
    let whole = Whole {
        line: row.line,
        recipient: recipient.as_ref(),
        origin: &origin,
        moment: row.moment,
        text: row.text,
    };
    put_whole(alloc, row.form, &whole, page).map_err(|_| "memory")
}

#[test]
fn texts_are_told(rt: HostRuntime) -> Result<(), Fail> {
    for row in &ROWS {
        let mut page = Page::new(rt.alloc());
        put_row(rt.alloc(), row, &mut page)?;
        let octets = page.into_octets().map_err(|_| "memory")?;
        assert_eq!(rt; octets.as_slice(), row.told.as_bytes());
    }
    Ok(())
}
