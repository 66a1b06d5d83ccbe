//! The cause of an RP-ERROR.

ghost use Rattle.std.specs.Prelude.{◌≡◌, ◌++◌, IfOk, OnOk};
ghost use Rattle.sms_field.specs.Reading.Answer.{SeesAs};
ghost use Rattle.sms_relay.specs.Rp.Cause as formats;
ghost use Rattle.sms_relay.specs.Rp.Cause.{rp_cause, cause_octets, IsCause};

use crate::fault::RelayFault;
use sms_field::{Cursor, Fault};
use std::alloc::AllocError;

/// Whether a diagnostic follows the cause, as the length says.
fn has_diagnostic(length: u8) -> Result<bool, RelayFault>
    ensures { result ≡ formats.has_diagnostic length }
{
    match length {
        1 => Ok(false),
        2 => Ok(true),
        _ => Err(RelayFault::BadCause),
    }
}

/// A cause, 0 to 127, and its diagnostic if it has one.
#[tactic(auto, unfolding(crate::specs::Rp::Cause::rp_cause))]
pub fn cause_at(input: &mut Cursor) -> Result<(u8, Option<u8>), Fault<RelayFault>>
    ensures fits { IfOk result (λ x. IsCause x.0 x.1) }
    ensures read { SeesAs (λ x. (x.0, x.1)) rp_cause input.old result input.new }
{
    let more = input.take_octet_by(has_diagnostic)?;
    let cause = input.take_octet()?;
    let diagnostic = input.take_octet_if(more)?;
    Ok((cause % 128, diagnostic))
}

/// Adds the octets of a cause, with their length before them.
pub fn put_cause(out: &mut Vec<u8>, cause: u8, diagnostic: Option<u8>) -> Result<(), AllocError>
    ensures { OnOk result (out.new.items ≡ out.old.items ++ cause_octets cause diagnostic) }
{
    match diagnostic {
        None => out.extend_from_slice(&[1, cause])?,
        Some(diagnostic) => out.extend_from_slice(&[2, cause, diagnostic])?,
    }
    Ok(())
}
