//! The next line of a script.

ghost use Rattle.std.specs.Prelude.{◌≡◌, ◌≢◌, ◌≤◌, Ok, Err, true, false};
ghost use Rattle.sms_script.specs.Inside.NextLine.{TakesNext};
ghost use Rattle.sms_script.specs.Script.{lines_limit};
ghost use Rattle.sms_script.specs.declared.fault.PlayFault.TheVariants.{Read};

use crate::devices::{Source, next_octet};
use crate::fault::{PlayFault, ScriptFault};
use crate::lines::{LineEnd, LineFault, read_line};

/// The greatest number of lines.
const LINES_LIMIT: u64 = 100_000;

/// What a script has next, after the lines that were read.
#[derive(Clone, Copy, Debug, PartialEq, Eq)]
pub enum Next {
    /// A line with its line feed.
    Line,
    /// The last line, without one.
    Last,
    /// No line.
    End,
}

/// Reads the next line after as many lines.
pub fn next_line<S: Source>(
    source: &mut S,
    line: &mut Vec<u8>,
    count: u64,
) -> Result<Next, PlayFault>
    requires works { S.has_failed source.old ≡ false }
    requires goes_on { S.has_ended source.old ≡ false }
    requires count { count ≤ lines_limit }
    ensures takes { let old = S.remaining source.old in
        TakesNext old (S.remaining source.new) count line.new.items result }
    ensures fails { result ≡ Err Read → S.has_failed source.new ≡ true }
    ensures works { result ≢ Err Read → S.has_failed source.new ≡ false }
    ensures goes_on { result ≡ Ok Next.Line → S.has_ended source.new ≡ false }
{
    if count >= LINES_LIMIT {
        line.clear();
        return match next_octet(source) {
            Ok(None) => Ok(Next::End),
            Ok(Some(_)) => Err(PlayFault::Script {
                line: count + 1,
                why: ScriptFault::TooManyLines,
            }),
            Err(_) => Err(PlayFault::Read),
        };
    }
    match read_line(source, line) {
        Ok(LineEnd::LineFeed) => Ok(Next::Line),
        Ok(LineEnd::EndOfSource) => {
            if line.is_empty() {
                return Ok(Next::End);
            }
            Ok(Next::Last)
        }
        Err(LineFault::TooLong) => Err(PlayFault::Script {
            line: count + 1,
            why: ScriptFault::LineTooLong,
        }),
        Err(LineFault::Read) => Err(PlayFault::Read),
        Err(LineFault::Memory) => Err(PlayFault::Memory),
    }
}
