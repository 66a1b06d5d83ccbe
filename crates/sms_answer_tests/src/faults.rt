//! Answers that end with a fault.

use sms_answer::{Layer, Line, Lines, Number, Reason, put_reason};
use sms_page::Page;
use sms_told::Form;
use std::alloc::{AllocError, Global};
use std::test::Fail;

/// A fault at a place, or at none.
#[derive(Drop)]
struct Wrong {
    place: Option<usize>,
}

impl Reason for Wrong {
    fn words(&self, alloc: Global) -> Result<String, AllocError> {
        "wrong digit".to_string(alloc)
    }

    fn explain(&self, line: &mut Line) {
        line.put(b": x");
    }

    fn place(&self) -> Option<usize> {
        self.place
    }

    fn reason(&self, alloc: Global) -> Result<String, AllocError> {
        "digit".to_string(alloc)
    }
}

/// An answer, how it ends, and what it is then.
struct Row {
    form: Form,
    number: Option<u64>,
    place: Option<usize>,
    is_explained: bool,
    answer: &'static str,
}

const ROWS: [Row; 4] = [
    Row {
        form: Form::Plain,
        number: None,
        place: None,
        is_explained: false,
        answer: "mti: 1\nwrong digit\n",
    },
    Row {
        form: Form::Plain,
        number: Some(4),
        place: Some(2),
        is_explained: true,
        answer: "mti: 1\nline 4: wrong digit: x\n",
    },
    Row {
        form: Form::Json,
        number: None,
        place: None,
        is_explained: true,
        answer: "{\"rp\":{\"mti\":1},\"fault\":{\"layer\":\"rp\",\"at\":null,\"reason\":\"digit\"}}\n",
    },
    Row {
        form: Form::Json,
        number: Some(4),
        place: Some(2),
        is_explained: false,
        answer: "{\"line\":4,\"rp\":{\"mti\":1},\"fault\":{\"layer\":\"rp\",\"at\":2,\"reason\":\"digit\"}}\n",
    },
];

/// Whether an answer of one member that ends with a fault is as wanted.
fn is_told(alloc: Global, row: &Row) -> Result<bool, AllocError> {
    let mut page = Page::new(alloc);
    let mut lines = match row.number {
        Some(number) => Lines::numbered(row.form, page.take(alloc), number),
        None => Lines::new(row.form, page.take(alloc)),
    };
    lines.enter(Layer::Relay);
    lines.put("mti", Number(1));
    let wrong = Wrong { place: row.place };
    lines.finish_with(alloc, row.is_explained, &wrong, &mut page)?;
    match page.into_octets() {
        Ok(octets) => Ok(octets.as_slice() == row.answer.as_bytes()),
        Err(_) => Ok(false),
    }
}

#[test]
fn answers_end_with_faults(rt: HostRuntime) -> Result<(), Fail> {
    for row in &ROWS {
        let told = is_told(rt.alloc(), row).map_err(|_| "memory")?;
        assert!(rt; told);
    }
    Ok(())
}

#[test]
fn a_fault_alone_is_a_line(rt: HostRuntime) -> Result<(), Fail> {
    let mut page = Page::new(rt.alloc());
    let wrong = Wrong { place: None };
    put_reason(rt.alloc(), Some(9), true, &wrong, &mut page).map_err(|_| "memory")?;
    let octets = page.into_octets().map_err(|_| "memory")?;
    assert_eq!(rt; octets.as_slice(), b"line 9: wrong digit: x\n".as_slice());
    Ok(())
}
