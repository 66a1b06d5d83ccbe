//! Records of a card written.

ghost use Rattle.std.specs.Prelude.{◌≡◌, ◌≢◌, ◌≤◌, ◌++◌, length, Err, IfOk, IfErr, IsOk, OnErr, OnOk};
ghost use Rattle.sms_field.specs.RelayAddress.{optional_address_octets};
ghost use Rattle.sms_field.specs.declared.refusal.Fault.{Fault as TheFault};
ghost use Rattle.sms_card.specs.Stored.Reading.{IsRecordFault, IsRecordIn};
ghost use Rattle.sms_card.specs.declared.fault.RecordFault.{RecordFault as TheRecordFault};
ghost use Rattle.sms_card.specs.declared.stored.Record.{Record as TheRecord};
ghost use Rattle.sms_c.specs.HandedOut.{ArePut, LackRoom};
ghost use Rattle.sms_c.specs.RecordWriting as seen;
ghost use Rattle.sms_c.specs.RecordWriting.{IsFilled, IsWritable, IsWriteTold, OfRecord, RefusesRecord};
ghost use Rattle.sms_c.specs.Status.{IsNotRoom, record_refused as told, status_in};
ghost use Rattle.sms_c.specs.declared.status.Failure.TheVariants.{NoRoom, Refused as TheRefused};

use crate::class::{SPARE, are_spare};
use crate::handed_out::hand_out;
use crate::records::PAD;
use crate::status::{Failure, Refused, record_refused, status_of};
use crate::wrapping::data::centre_of;
use sms_card::{RECORD_LENGTH, RecordView};
use sms_field::RpAddress;
use std::alloc::{AllocError, Global};

/// What a record has besides an address and a unit.
#[repr(C)]
#[derive(Clone, Copy)]
pub struct RecordFields {
    /// The octet of the status.
    pub status: u8,
    /// All 0.
    pub spare: [u8; SPARE],
}

/// Whether a status has this octet.
fn is_status(octet: u8) -> bool
    ensures { result ≡ seen.is_status octet }
{
    matches!(octet, 0 | 1 | 3 | 5 | 7 | 13 | 21 | 29)
}

/// Whether these can be written as a record, or as free space.
fn fits(fields: RecordFields, centre: &[u8], unit: &[u8]) -> bool
    ensures { result ≡ seen.fits_record fields centre.now unit.now }
{
    are_spare(&fields.spare)
        && is_status(fields.status)
        && (fields.status != 0 || (centre.is_empty() && unit.is_empty()))
}

/// Adds an address, or none, and a unit.
fn put_used(out: &mut Vec<u8>, centre: &Option<RpAddress>, unit: &[u8]) -> Result<(), AllocError>
    ensures { OnOk result (out.new.items
        ≡ out.old.items ++ (optional_address_octets centre.now ++ unit.now)) }
{
    match centre {
        Some(address) => address.write_to(out)?,
        None => out.push(0)?,
    }
    out.extend_from_slice(unit)
}

/// The octets of a record up to its padding.
fn front_octets(
    alloc: Global,
    status: u8,
    centre: &Option<RpAddress>,
    unit: &[u8],
) -> Result<Vec<u8>, AllocError>
    ensures { IfOk result (λ octets.
        octets.items ≡ seen.front_octets status centre.now unit.now) }
{
    let mut octets = Vec::new(alloc);
    octets.push(status)?;
    if status != 0 {
        put_used(&mut octets, centre, unit)?;
    }
    Ok(octets)
}

/// Whether octets are a record.
fn check_record(octets: &[u8], refused: &mut Refused) -> Result<(), Failure>
    ensures read { IfOk result (λ _. (r : TheRecord) × IsRecordIn octets.now r) }
    ensures refused { IfErr result (λ why. (why ≡ TheRefused)
        × (fault : TheFault TheRecordFault) × IsRecordFault octets.now fault
        × (refused.new ≡ told fault)) }
    ensures exact { (r : TheRecord) → IsRecordIn octets.now r → IsOk result }
    ensures untold { OnOk result (refused.new ≡ refused.old) }
{
    match RecordView::read(octets) {
        Ok(_) => Ok(()),
        Err(fault) => {
            record_refused(refused, fault);
            Err(Failure::Refused)
        }
    }
}

/// Adds FF, up to as many octets as a record has.
fn fill(octets: &mut Vec<u8>) -> Result<(), AllocError>
    requires { length octets.old.items ≤ RECORD_LENGTH }
    ensures { OnOk result (IsFilled octets.old.items octets.new.items) }
{
    while octets.len() < RECORD_LENGTH {
        octets.push(PAD)?;
    }
    Ok(())
}

/// The octets of a record.
fn record_octets(
    alloc: Global,
    fields: RecordFields,
    centre: &[u8],
    unit: &[u8],
    refused: &mut Refused,
) -> Result<Vec<u8>, Failure>
    ensures told { IsWriteTold (status_in result)
        (seen.writing_fault fields centre.now unit.now) }
    ensures written { IfOk result (λ octets. OfRecord fields centre.now unit.now
        (λ them. them ≡ octets.items)) }
    ensures refused { status_in result ≡ 1
        → RefusesRecord fields centre.now unit.now refused.new }
    ensures exact { IsWritable fields centre.now unit.now → status_in result ≢ 1 }
    ensures untold { (status_in result ≡ 1 → ⊥) → refused.new ≡ refused.old }
    ensures room { IfErr result IsNotRoom }
{
    if !fits(fields, centre, unit) {
        return Err(Failure::OutOfRange);
    }
    let centre = centre_of(alloc, centre)?;
    let mut octets = front_octets(alloc, fields.status, &centre, unit)?;
    check_record(&octets, refused)?;
    fill(&mut octets)?;
    Ok(octets)
}

/// Hands out a record.
fn put_record(
    alloc: Global,
    fields: RecordFields,
    centre: &[u8],
    unit: &[u8],
    out: &mut [u8],
    needed: &mut usize,
    refused: &mut Refused,
) -> Result<(), Failure>
    ensures told { IsWriteTold (status_in result)
        (seen.writing_fault fields centre.now unit.now) }
    ensures put { IfOk result (λ _. OfRecord fields centre.now unit.now
        (ArePut out.old out.new needed.new)) }
    ensures no_room { result ≡ Err NoRoom → OfRecord fields centre.now unit.now
        (LackRoom out.old out.new needed.new) }
    ensures none { OnErr result (out.new ≡ out.old) }
    ensures needed { IfErr result (λ why. IsNotRoom why → needed.new ≡ needed.old) }
    ensures refused { status_in result ≡ 1
        → RefusesRecord fields centre.now unit.now refused.new }
    ensures exact { IsWritable fields centre.now unit.now → status_in result ≢ 1 }
    ensures untold { (status_in result ≡ 1 → ⊥) → refused.new ≡ refused.old }
{
    let octets = record_octets(alloc, fields, centre, unit, refused)?;
    hand_out(&octets, out, needed)
}

/// Writes a record of a card: its status, the address of the centre, and the octets of a unit.
#[unsafe(no_mangle)]
pub extern "C" fn sms_record_write(
    alloc: Global,
    fields: &RecordFields,
    centre: &[u8],
    unit: &[u8],
    out: &mut [u8],
    needed: &mut usize,
    refused: &mut Refused,
) -> u32
    ensures told { IsWriteTold result (seen.writing_fault fields.now centre.now unit.now) }
    ensures put { result ≡ 0 → OfRecord fields.now centre.now unit.now
        (ArePut out.old out.new needed.new) }
    ensures no_room { result ≡ 3 → OfRecord fields.now centre.now unit.now
        (LackRoom out.old out.new needed.new) }
    ensures none { (result ≡ 0 → ⊥) → out.new ≡ out.old }
    ensures needed { (result ≡ 0 → ⊥) → (result ≡ 3 → ⊥) → needed.new ≡ 0 }
    ensures refused { result ≡ 1 → RefusesRecord fields.now centre.now unit.now refused.new }
    ensures exact { IsWritable fields.now centre.now unit.now → result ≢ 1 }
    ensures untold { (result ≡ 1 → ⊥) → refused.new ≡ refused.old }
{
    *needed = 0;
    status_of(put_record(alloc, *fields, centre, unit, out, needed, refused))
}
