//! What every view has: it is read where it lies, and its value is made of it.

ghost use Rattle.std.specs.Prelude.{◌≡◌, IfOk, IfErr};
ghost use Rattle.sms_field.specs.Reading.Answer.{SeesAs};
ghost use Rattle.sms_field.specs.Reading.{Reads};
ghost use Rattle.sms_field.specs.Reading.WholeAnswer.{IsFaultOf, SeesExactly};

use crate::unit::Unit;
use sms_field::{Cursor, Fault};
use std::alloc::{AllocError, Global};

/// A unit seen in its octets.
pub trait View<'a>: Sized + Drop {
    type Owned: Unit;

    /// The value that the view stands for.
    ghost value: { Self → Self.Owned };

    /// Sees a unit at a cursor.
    fn read_at(input: &mut Cursor<'a>) -> Result<Self, Fault<<Self::Owned as Unit>::Why>>
        ensures { SeesAs value Self.Owned.field input.old result input.new };

    /// The value itself.
    fn to_value(&self, alloc: Global) -> Result<Self::Owned, AllocError>
        ensures { IfOk result (λ v. v ≡ value self.now) };
}

/// Sees a unit at the front of the octets, and says how many it takes.
#[inline(always)]
pub fn see<'a, V: View<'a>>(input: &'a [u8]) -> Result<(V, usize), Fault<<V::Owned as Unit>::Why>>
    ensures found { IfOk result (λ x. Reads V.Owned.field (V.value x.0) input.now x.1) }
    ensures refused { IfErr result (IsFaultOf V.Owned.field V.Owned.Why.short input.now) }
    ensures exact { SeesExactly V.value V.Owned.field input.now result }
{
    let mut cursor = Cursor::new(input);
    let view = V::read_at(&mut cursor)?;
    Ok((view, cursor.place()))
}
