//! What every unit has: it is read and written, and what is written is read back.

ghost use Rattle.std.specs.Prelude.{◌≡◌, ◌++◌, ℕ, List, [], IfOk, IfErr, OnOk};
ghost use Rattle.sms_field.specs.Field.{Field};
ghost use Rattle.sms_field.specs.Reading.Answer.{Takes};
ghost use Rattle.sms_field.specs.Reading.{Reads, IsRefused};
ghost use Rattle.sms_field.specs.Reading.WholeAnswer.{ReadsExactly};
ghost use Rattle.sms_field.specs.declared.refusal.Refusal.TheVariants.{Memory};
ghost use Rattle.sms_tpdu.specs.UnitLaws.{AreUnitLaws};

use sms_field::{Cursor, Reason, Refusal};
use std::alloc::{AllocError, Global};

/// A unit that is read from octets and written as octets, and then read back.
pub trait Unit: Sized + Drop {
    type Why: Reason;

    /// Which octets are read as a value, and for which reason an octet is refused that cannot
    /// follow the ones before it.
    ghost field: { Field Self Self.Why };

    /// By `spells value octets` these octets are written for the value.
    ghost spells: { Self → List ℕ → Type 0 };

    /// Which octets may follow those of a value, so that it is still read back. Any may, but after
    /// an RP-ACK or RP-ERROR without user data, and after a status report without parts.
    ghost may_follow: { Self → List ℕ → Type 0 } = { λ _ _. Unit {0} };

    /// Reads a unit at a cursor, which then stands after it. After a refusal nothing is known of
    /// the cursor.
    fn read_at(alloc: Global, input: &mut Cursor) -> Result<Self, Refusal<Self::Why>>
        ensures { Takes field input.old result input.new };

    /// The octets of the unit. Only want of memory can prevent it.
    fn write(&self, alloc: Global) -> Result<Vec<u8>, AllocError>
        ensures { IfOk result (λ octets. spells self.now octets.items) };

    /// Adds the octets of the unit. Only want of memory can prevent it; some may have been added
    /// then.
    fn write_to(&self, out: &mut Vec<u8>) -> Result<(), AllocError>
        ensures { OnOk result ((octets : List ℕ) × spells self.now octets
            × (out.new.items ≡ out.old.items ++ octets)) }
    {
        let octets = self.write(*out.allocator())?;
        out.extend_from_slice(&octets)
    }

    /// The field is lawful; what is written are octets, and is read back.
    ghost laws: { AreUnitLaws Self.Why.short field spells may_follow };

    /// Reads a unit at the front of the octets, and says how many octets it takes. What follows
    /// them is ignored.
    final fn read(alloc: Global, input: &[u8]) -> Result<(Self, usize), Refusal<Self::Why>>
        ensures found { IfOk result (λ x. Reads field x.0 input.now x.1) }
        ensures refused { IfErr result (IsRefused field Self.Why.short input.now) }
        ensures exact { ReadsExactly field input.now result }
    {
        let mut cursor = Cursor::new(input);
        let unit = Self::read_at(alloc, &mut cursor)?;
        Ok((unit, cursor.place()))
    }
}

/// The unit that is read from what is written.
pub fn reread<U: Unit>(alloc: Global, unit: &U) -> Result<U, Refusal<U::Why>>
    requires { U.may_follow unit.now [] }
    ensures same { IfOk result (λ v. v ≡ unit.now) }
    ensures err { IfErr result (λ e. e ≡ Memory) }
{
    let octets = unit.write(alloc)?;
    let (again, _) = U::read(alloc, &octets)?;
    Ok(again)
}
