//! How a run of the program ends.

ghost use Rattle.std.specs.Prelude.{◌≡◌, ◌⊎◌, ◌≤◌};

use crate::fault::Fault;
use std::io::Write;

/// Flushes what a command has written, and answers the exit status: that of the command, or 3 where
/// the flush fails, whatever its kind. Then `write failed` goes to the device below the output,
/// where that takes it.
pub fn finish<W: Write, D: Write>(status: u8, output: &mut W, device: &mut D) -> u8
    ensures bound { status ≤ 3 → result ≤ 3 }
    ensures kept { (result ≡ status) ⊎ (result ≡ 3) }
{
    match output.flush() {
        Ok(()) => status,
        Err(_) => {
            let fault = Fault::Write;
            let _ = writeln!(device, "{fault}");
            fault.status()
        }
    }
}
