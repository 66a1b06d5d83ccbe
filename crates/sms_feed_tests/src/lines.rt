//! Lines that are handed on.

use sms_feed::{FeedFault, Taker, take_lines};
use sms_page::Page;
use std::alloc::Global;
use std::test::Fail;

/// Tells each line by its number and its octets, or a hyphen where these are too many.
#[derive(Drop)]
pub struct Teller {
    /// The number of the line whose taking fails, or 0.
    pub fails: u64,
}

impl Taker for Teller {
    ghost use Rattle.std.specs.Prelude.{⊤};

    type Fault = FeedFault;

    ghost takes = { λ old number line page new page_then. ⊤ };

    ghost ends = { λ old page new page_then. ⊤ };

    fn take(
        &mut self,
        number: u64,
        octets: Option<&[u8]>,
        page: &mut Page,
    ) -> Result<(), FeedFault> {
        if number == self.fails {
            return Err(FeedFault::Page(sms_page::PageFault::Memory));
        }
        page.put_decimal(number);
        page.put(b":");
        page.put(octets.unwrap_or(b"-"));
        page.put(b"\n");
        Ok(())
    }

    fn tells_again(&self) -> bool {
        true
    }

    fn finish(&mut self, page: &mut Page) -> Result<(), FeedFault> {
        page.put(b"end\n");
        Ok(())
    }
}

/// What is told of the lines of an input; none where it ends early.
fn told(alloc: Global, input: &[u8]) -> Option<Vec<u8>> {
    let mut output = Vec::new(alloc);
    let mut rest = input;
    let mut teller = Teller { fails: 0 };
    match take_lines(alloc, &mut teller, &mut rest, &mut output) {
        Ok(()) => Some(output),
        Err(_) => None,
    }
}

/// An input and what is told of it.
static ROWS: [(&str, &str); 6] = [
    ("", "end\n"),
    ("a\r\n\n b \nc", "1:a\n3:b\n4:c\nend\n"),
    ("\r\r\nx\r", "2:x\nend\n"),
    ("OK\nAT+CMGL=4\n+CMGL: 1\n07\n\nERROR\n", "4:07\nend\n"),
    ("OKAY\nat\n", "1:OKAY\n2:at\nend\n"),
    ("\n\n\n", "end\n"),
];

/// Whether this is told of an input.
fn is_told(alloc: Global, input: &str, wanted: &str) -> bool {
    match told(alloc, input.as_bytes()) {
        Some(told) => told.as_slice() == wanted.as_bytes(),
        None => false,
    }
}

#[test]
fn lines_are_told_with_their_numbers(rt: HostRuntime) -> Result<(), Fail> {
    for (input, wanted) in ROWS.iter() {
        assert!(rt; is_told(rt.alloc(), input, wanted), "{input}");
    }
    Ok(())
}

/// A line of so many octets, with this end, and what is told of it.
fn told_of(alloc: Global, count: usize, end: &[u8]) -> Result<Option<usize>, Fail> {
    let mut input = vec![in alloc; b'x'; count]?;
    input.extend_from_slice(end)?;
    input.extend_from_slice(b"y")?;
    Ok(told(alloc, &input).map(|told| told.len()))
}

#[test]
fn long_lines_are_told_without_their_octets(rt: HostRuntime) -> Result<(), Fail> {
    let (whole, none) = (Some(4_096 + 11), Some(12));
    assert_eq!(rt; told_of(rt.alloc(), 4_096, b"\n")?, whole);
    assert_eq!(rt; told_of(rt.alloc(), 4_096, b"\r\n")?, whole);
    assert_eq!(rt; told_of(rt.alloc(), 4_097, b"\n")?, none);
    assert_eq!(rt; told_of(rt.alloc(), 4_097, b"\r\n")?, none);
    assert_eq!(rt; told_of(rt.alloc(), 200_000, b"\n")?, none);
    Ok(())
}

#[test]
fn what_was_told_before_a_fault_stands(rt: HostRuntime) -> Result<(), Fail> {
    let mut output = Vec::new(rt.alloc());
    let mut rest = b"a\nb\nc\n".as_slice();
    let mut teller = Teller { fails: 3 };
    let taken = take_lines(rt.alloc(), &mut teller, &mut rest, &mut output);
    assert!(rt; taken.is_err());
    assert_eq!(rt; output.as_slice(), b"1:a\n2:b\n".as_slice());
    Ok(())
}
