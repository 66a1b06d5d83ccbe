//! What is lost where units are joined: segments that are turned away, and sets that are dropped.

use sms_stream::Losses;
use std::fmt;
use std::io::Write;

/// How many there are of a thing.
#[derive(Clone, Copy)]
struct Count {
    number: u64,
    /// The name of one.
    name: &'static str,
}

impl fmt::Display for Count {
    fn fmt<W: fmt::Write>(&self, f: &mut fmt::Formatter<W>) -> fmt::Result {
        let Count { number, name } = *self;
        let ending = if number == 1 { "" } else { "s" };
        write!(f, "{number} {name}{ending}")
    }
}

/// Writes one line where something is lost, with the number of sets that are open still, as far as
/// the output takes it.
pub fn tell_losses<W: Write>(losses: Losses, open: usize, output: &mut W) {
    if losses.turned_away == 0 && losses.dropped == 0 {
        return;
    }
    let away = Count {
        number: losses.turned_away,
        name: "segment",
    };
    let dropped = Count {
        number: losses.dropped,
        name: "set",
    };
    let open = Count {
        number: open as u64,
        name: "set",
    };
    let _ = writeln!(
        output,
        "{away} turned away, {dropped} dropped, {open} open still: --verbose tells more"
    );
}
