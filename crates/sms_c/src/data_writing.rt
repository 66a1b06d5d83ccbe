//! Units written with the octets of their user data: those that are no text among them.

ghost use Rattle.std.specs.Prelude.{◌≡◌, Err, IfOk, IfErr, OnErr, MatchResult};
ghost use Rattle.sms_tpdu.specs.Deliver.{SpellsDeliver};
ghost use Rattle.sms_tpdu.specs.Submit.{SpellsSubmit};
ghost use Rattle.sms_c.specs.Answered.{Answers, AnswersSo, Fails, OfSpelling};
ghost use Rattle.sms_c.specs.DataWriting.{deliver_given, submit_given};
ghost use Rattle.sms_c.specs.HandedOut.{ArePut, LackRoom};
ghost use Rattle.sms_c.specs.Status.{IsNotRoom};
ghost use Rattle.sms_c.specs.declared.status.Failure.TheVariants.{NoRoom};

use crate::address_given::address_given;
use crate::class::are_spare;
use crate::data_given::data_given;
use crate::handed_out::hand_out;
use crate::status::{Failure, status_of};
use crate::writing::{DeliverFields, SubmitFields, is_set};
use sms_field::Stamp;
use sms_tpdu::{Deliver, Submit, Unit};
use std::alloc::Global;

/// The octets of an SMS-SUBMIT whose user data are these.
fn submit_written(
    alloc: Global,
    fields: SubmitFields,
    dcs: u8,
    has_header: u8,
    target: &[u8],
    octets: &[u8],
) -> Result<Vec<u8>, Failure>
    ensures written { MatchResult result
        (λ unit. OfSpelling SpellsSubmit
        (submit_given fields dcs has_header target.now octets.now) (λ all. all ≡ unit.items))
        (λ why. Fails (submit_given fields dcs has_header target.now octets.now) why) }
    ensures room { IfErr result IsNotRoom }
{
    if fields.message_class != 0 || !are_spare(&fields.spare) {
        return Err(Failure::OutOfRange);
    }
    let user = data_given(alloc, dcs, is_set(has_header), octets)?;
    let Some(validity) = fields.validity.validity() else {
        return Err(Failure::OutOfRange);
    };
    let target = address_given(alloc, target)?;
    let unit = Submit {
        reject: is_set(fields.reject),
        validity,
        report: is_set(fields.report),
        reply: is_set(fields.reply),
        reference: fields.reference,
        target,
        pid: fields.pid,
        dcs,
        user,
    };
    Ok(unit.write(alloc)?)
}

/// Hands out an SMS-SUBMIT whose user data are these.
fn put_submit(
    alloc: Global,
    fields: SubmitFields,
    dcs: u8,
    has_header: u8,
    target: &[u8],
    octets: &[u8],
    out: &mut [u8],
    needed: &mut usize,
) -> Result<(), Failure>
    ensures put { IfOk result (λ _. OfSpelling SpellsSubmit
        (submit_given fields dcs has_header target.now octets.now)
        (ArePut out.old out.new needed.new)) }
    ensures no_room { result ≡ Err NoRoom → OfSpelling SpellsSubmit
        (submit_given fields dcs has_header target.now octets.now)
        (LackRoom out.old out.new needed.new) }
    ensures none { OnErr result (out.new ≡ out.old) }
    ensures needed { IfErr result (λ why. IsNotRoom why → needed.new ≡ needed.old) }
    ensures answer { AnswersSo (submit_given fields dcs has_header target.now octets.now)
        result }
{
    let unit = submit_written(alloc, fields, dcs, has_header, target, octets)?;
    hand_out(&unit, out, needed)
}

/// Writes an SMS-SUBMIT whose user data are these octets.
#[unsafe(no_mangle)]
pub extern "C" fn sms_submit_data_write(
    alloc: Global,
    fields: &SubmitFields,
    dcs: u8,
    has_header: u8,
    target: &[u8],
    octets: &[u8],
    out: &mut [u8],
    needed: &mut usize,
) -> u32
    ensures put { result ≡ 0 → OfSpelling SpellsSubmit
        (submit_given fields.now dcs has_header target.now octets.now)
        (ArePut out.old out.new needed.new) }
    ensures no_room { result ≡ 3 → OfSpelling SpellsSubmit
        (submit_given fields.now dcs has_header target.now octets.now)
        (LackRoom out.old out.new needed.new) }
    ensures none { (result ≡ 0 → ⊥) → out.new ≡ out.old }
    ensures needed { (result ≡ 0 → ⊥) → (result ≡ 3 → ⊥) → needed.new ≡ 0 }
    ensures status { Answers (submit_given fields.now dcs has_header target.now octets.now)
        result }
{
    *needed = 0;
    status_of(put_submit(alloc, *fields, dcs, has_header, target, octets, out, needed))
}

/// The octets of an SMS-DELIVER whose user data are these.
fn deliver_written(
    alloc: Global,
    fields: DeliverFields,
    dcs: u8,
    has_header: u8,
    origin: &[u8],
    octets: &[u8],
) -> Result<Vec<u8>, Failure>
    ensures written { MatchResult result
        (λ unit. OfSpelling SpellsDeliver
        (deliver_given fields dcs has_header origin.now octets.now) (λ all. all ≡ unit.items))
        (λ why. Fails (deliver_given fields dcs has_header origin.now octets.now) why) }
    ensures room { IfErr result IsNotRoom }
{
    if fields.message_class != 0 || !are_spare(&fields.spare) {
        return Err(Failure::OutOfRange);
    }
    let user = data_given(alloc, dcs, is_set(has_header), octets)?;
    let origin = address_given(alloc, origin)?;
    let unit = Deliver {
        more: is_set(fields.more),
        looped: is_set(fields.looped),
        report: is_set(fields.report),
        reply: is_set(fields.reply),
        origin,
        pid: fields.pid,
        dcs,
        stamp: Stamp::new(fields.stamp.octets),
        user,
    };
    Ok(unit.write(alloc)?)
}

/// Hands out an SMS-DELIVER whose user data are these.
fn put_deliver(
    alloc: Global,
    fields: DeliverFields,
    dcs: u8,
    has_header: u8,
    origin: &[u8],
    octets: &[u8],
    out: &mut [u8],
    needed: &mut usize,
) -> Result<(), Failure>
    ensures put { IfOk result (λ _. OfSpelling SpellsDeliver
        (deliver_given fields dcs has_header origin.now octets.now)
        (ArePut out.old out.new needed.new)) }
    ensures no_room { result ≡ Err NoRoom → OfSpelling SpellsDeliver
        (deliver_given fields dcs has_header origin.now octets.now)
        (LackRoom out.old out.new needed.new) }
    ensures none { OnErr result (out.new ≡ out.old) }
    ensures needed { IfErr result (λ why. IsNotRoom why → needed.new ≡ needed.old) }
    ensures answer { AnswersSo (deliver_given fields dcs has_header origin.now octets.now)
        result }
{
    let unit = deliver_written(alloc, fields, dcs, has_header, origin, octets)?;
    hand_out(&unit, out, needed)
}

/// Writes an SMS-DELIVER whose user data are these octets.
#[unsafe(no_mangle)]
pub extern "C" fn sms_deliver_data_write(
    alloc: Global,
    fields: &DeliverFields,
    dcs: u8,
    has_header: u8,
    origin: &[u8],
    octets: &[u8],
    out: &mut [u8],
    needed: &mut usize,
) -> u32
    ensures put { result ≡ 0 → OfSpelling SpellsDeliver
        (deliver_given fields.now dcs has_header origin.now octets.now)
        (ArePut out.old out.new needed.new) }
    ensures no_room { result ≡ 3 → OfSpelling SpellsDeliver
        (deliver_given fields.now dcs has_header origin.now octets.now)
        (LackRoom out.old out.new needed.new) }
    ensures none { (result ≡ 0 → ⊥) → out.new ≡ out.old }
    ensures needed { (result ≡ 0 → ⊥) → (result ≡ 3 → ⊥) → needed.new ≡ 0 }
    ensures status { Answers (deliver_given fields.now dcs has_header origin.now octets.now)
        result }
{
    *needed = 0;
    status_of(put_deliver(alloc, *fields, dcs, has_header, origin, octets, out, needed))
}
