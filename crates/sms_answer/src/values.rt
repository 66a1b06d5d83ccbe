//! The simple values of answers.

ghost use Rattle.std.specs.Prelude.{◌≡◌};

use crate::line::Line;
use crate::members::Members;
use crate::printed::Printed;

/// A bit, as `yes` or `no`.
#[derive(Clone, Copy)]
pub struct Answer(pub bool);

impl Printed for Answer {
    fn plain(&self, line: &mut Line) {
        if self.0 {
            line.put_few(b"yes");
        } else {
            line.put_few(b"no");
        }
    }

    fn json(&self, members: &mut Members) {
        members.flag(self.0);
    }
}

/// An octet in upper case hexadecimal; a number in JSON.
#[derive(Clone, Copy)]
pub struct Octet(pub u8);

impl Printed for Octet {
    fn plain(&self, line: &mut Line) {
        line.put_octet(self.0);
    }

    fn json(&self, members: &mut Members) {
        members.number(u64::from(self.0));
    }
}

/// A number in decimal.
#[derive(Clone, Copy)]
pub struct Number(pub u64);

impl Printed for Number {
    fn plain(&self, line: &mut Line) {
        line.put_decimal(self.0);
    }

    fn json(&self, members: &mut Members) {
        members.number(self.0);
    }
}

impl Printed for u8 {
    fn plain(&self, line: &mut Line) {
        line.put_decimal(u64::from(*self));
    }

    fn json(&self, members: &mut Members) {
        members.number(u64::from(*self));
    }
}

impl Printed for usize {
    fn plain(&self, line: &mut Line) {
        line.put_decimal(*self as u64);
    }

    fn json(&self, members: &mut Members) {
        members.number(*self as u64);
    }
}

/// Octets in upper case hexadecimal, none as `-`, and as the empty text in JSON.
#[derive(Clone, Copy)]
pub struct Hexadecimal<'a>(pub &'a [u8]);

impl Printed for Hexadecimal<'_> {
    fn plain(&self, line: &mut Line) {
        line.put_hexadecimal(self.0);
    }

    fn json(&self, members: &mut Members) {
        members.octets(self.0);
    }
}

/// A text in one line: what would break the line stands as an escape. In JSON it is a text.
#[derive(Clone, Copy)]
pub struct Escaped<'a>(pub &'a str);

impl Printed for Escaped<'_> {
    fn plain(&self, line: &mut Line) {
        line.put_escaped(self.0);
    }

    fn json(&self, members: &mut Members) {
        members.text(self.0);
    }
}
