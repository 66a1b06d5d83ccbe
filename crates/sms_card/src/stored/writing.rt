//! The octets of a record.

ghost use Rattle.std.specs.Prelude.{◌≡◌, ◌<◌, ◌++◌, ◌∷◌, [], List, ℕ, length, OnOk, Err};
ghost use Rattle.sms_field.specs.RelayAddress.{optional_address_octets};
ghost use Rattle.sms_card.specs.Padding.{IsPadding};
ghost use Rattle.sms_card.specs.Status.{status_octet};
ghost use Rattle.sms_card.specs.Stored.{SpellsFront};
ghost use Rattle.sms_card.specs.declared.fault.WriteFault.TheVariants.{TooLong};

use crate::centre::{centre_is_spelled, put_centre};
use crate::fault::WriteFault;
use crate::padding::PAD;
use crate::status::Status;
use crate::stored::{RECORD_LENGTH, Record};
use sms_field::RpAddress;
use std::alloc::{AllocError, Global};

/// Adds FF to the end of a record.
pub fn fill(out: &mut Vec<u8>) -> Result<(), WriteFault>
    ensures filled { OnOk result ((filled : List ℕ) × IsPadding filled
        × (out.new.items ≡ out.old.items ++ filled)
        × (length out.new.items ≡ RECORD_LENGTH)) }
    ensures too_long { result ≡ Err TooLong → RECORD_LENGTH < length out.old.items }
{
    if out.len() > RECORD_LENGTH {
        return Err(WriteFault::TooLong);
    }
    while out.len() < RECORD_LENGTH {
        out.push(PAD)?;
    }
    Ok(())
}

/// Adds a status, a centre and the octets of a unit.
fn put_used(
    out: &mut Vec<u8>,
    status: Status,
    centre: &Option<RpAddress>,
    unit: &[u8],
) -> Result<(), AllocError>
    ensures { OnOk result (out.new.items ≡ out.old.items ++ (status_octet status ∷
        (optional_address_octets centre.now ++ unit.now))) }
{
    out.push(status.to_octet())?;
    put_centre(out, centre)?;
    out.extend_from_slice(unit)
}

/// Adds what stands before the padding.
pub fn put_front(out: &mut Vec<u8>, entry: &Record, alloc: Global) -> Result<(), AllocError>
    requires { out.old.items ≡ [] }
    ensures { OnOk result (SpellsFront entry.now out.new.items) }
{
    match entry {
        Record::Free => {
            out.push(Status::Free.to_octet())?;
            Ok(())
        }
        Record::Received { centre, unit, .. } => {
            centre_is_spelled(centre);
            let unit = unit.write(alloc)?;
            put_used(out, entry.status(), centre, &unit)
        }
        Record::Originated { centre, unit, .. } => {
            centre_is_spelled(centre);
            let unit = unit.write(alloc)?;
            put_used(out, entry.status(), centre, &unit)
        }
    }
}
