//! Lines that are handed on while one request for memory is refused.

use crate::lines::Teller;
use sms_feed::take_lines;
use std::alloc::Global;
use std::test::Fail;

/// Keeps the octets that it is given, as many as it has room for.
#[derive(Drop)]
struct Kept {
    room: [u8; 64],
    count: usize,
}

impl std::io::Write for Kept {
    fn write(&mut self, octets: &[u8]) -> std::io::Result<usize> {
        let count = octets.len().min(64 - self.count.min(64));
        let end = self.count + count;
        if let Some(room) = self.room.get_mut(self.count..end) {
            room.copy_from_slice(&octets[..count]);
            self.count = end;
        }
        Ok(count)
    }

    fn flush(&mut self) -> std::io::Result<()> {
        Ok(())
    }
}

/// Whether all is told of two lines; none where memory runs out, and what is told is a front of it.
fn is_told(alloc: Global) -> Option<bool> {
    let wanted = b"1:a\n2:b\nend\n";
    let mut output = Kept {
        room: [0; 64],
        count: 0,
    };
    let mut rest = b"a\nb".as_slice();
    let mut teller = Teller { fails: 0 };
    let taken = take_lines(alloc, &mut teller, &mut rest, &mut output);
    let told = output.room.get(..output.count).unwrap_or(&[]);
    match taken {
        Ok(()) => Some(told == wanted.as_slice()),
        Err(_) if wanted.starts_with(told) => None,
        Err(_) => Some(false),
    }
}

/// One growth is refused, whichever it is (docs/CONTRIBUTING.md says how): a second try does what
/// the first would have done.
#[test]
fn lines_are_told_after_a_refused_growth(rt: HostRuntime) -> Result<(), Fail> {
    let told = is_told(rt.alloc()).or(is_told(rt.alloc()));
    assert_eq!(rt; told, Some(true));
    Ok(())
}
