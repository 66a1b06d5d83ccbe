//! What an answer can have as a value.

ghost use Rattle.std.specs.Prelude.{◌≡◌};

use crate::line::Line;
use crate::members::Members;

/// A value of an answer.
pub trait Printed: Drop {
    /// Adds the value as a line has it.
    fn plain(&self, line: &mut Line)
        ensures { line.new ≡ line.old };

    /// Adds the value as JSON has it.
    fn json(&self, members: &mut Members)
        ensures { members.new ≡ members.old };
}
