//! The octets of the unit of a segment.

ghost use Rattle.std.specs.Prelude.{◌≡◌, IfOk};
ghost use Rattle.sms_tpdu.specs.Deliver.{SpellsDeliver};
ghost use Rattle.sms_tpdu.specs.Submit.{SpellsSubmit};
ghost use Rattle.sms_tpdu.specs.Submit.ValidityPeriod.{IsInRange};
ghost use Rattle.sms_join.specs.Segments.User.{IsSendable};
ghost use Rattle.sms_encode.specs.Units.{SpellsUnit, delivery_of, reference_at, submission_of, validity_of};

use crate::draft::{Draft, DraftKind};
use crate::frame::Frame;
use sms_field::Validity;
use sms_join::SegmentView;
use sms_tpdu::{Deliver, Submit, Unit};
use std::alloc::{AllocError, Global};

/// The octets of an SMS-DELIVER after which no more messages wait.
fn encode_deliver(
    alloc: Global,
    draft: &Draft<'_>,
    frame: &Frame,
    segment: &SegmentView<'_>,
) -> Result<Vec<u8>, AllocError>
    requires { IsSendable frame.now.width segment.now }
    ensures { IfOk result (λ octets.
        SpellsDeliver (delivery_of draft.now frame.now segment.now) octets.items) }
{
    let user = segment.user(alloc, frame.width, frame.reference)?;
    let origin = frame.address.copy(alloc)?;
    let deliver = Deliver {
        more: false,
        looped: false,
        report: draft.report,
        reply: false,
        origin,
        pid: 0,
        dcs: segment.coding_scheme(),
        stamp: frame.stamp,
        user,
    };
    deliver.write(alloc)
}

/// The validity period of an octet, none where there is none.
fn validity_of(octet: Option<u8>) -> Validity
    ensures period { result ≡ validity_of octet }
    ensures range { IsInRange result }
{
    match octet {
        Some(octet) => Validity::Relative(octet),
        None => Validity::Absent,
    }
}

/// The reference (TP-MR) of the segment of a place, which counts from 0, where that of the first
/// one is given, or else 0.
fn reference_at(first: Option<u8>, place: usize) -> u8
    ensures { result ≡ reference_at first place }
{
    let first = first.unwrap_or(0);
    first.wrapping_add((place % 256) as u8)
}

/// The octets of the SMS-SUBMIT of a place, which counts from 0.
fn encode_submit(
    alloc: Global,
    draft: &Draft<'_>,
    frame: &Frame,
    segment: &SegmentView<'_>,
    place: usize,
) -> Result<Vec<u8>, AllocError>
    requires { IsSendable frame.now.width segment.now }
    ensures { IfOk result (λ octets.
        SpellsSubmit (submission_of draft.now frame.now place segment.now) octets.items) }
{
    let user = segment.user(alloc, frame.width, frame.reference)?;
    let target = frame.address.copy(alloc)?;
    let submit = Submit {
        reject: draft.reject,
        validity: validity_of(draft.validity),
        report: draft.report,
        reply: false,
        reference: reference_at(draft.reference, place),
        target,
        pid: 0,
        dcs: segment.coding_scheme(),
        user,
    };
    submit.write(alloc)
}

/// The octets of the unit of a segment, whose place counts from 0.
pub(crate) fn encode(
    alloc: Global,
    draft: &Draft<'_>,
    frame: &Frame,
    segment: &SegmentView<'_>,
    place: usize,
) -> Result<Vec<u8>, AllocError>
    requires { IsSendable frame.now.width segment.now }
    ensures { IfOk result (λ octets.
        SpellsUnit draft.now frame.now place segment.now octets.items) }
{
    match draft.kind {
        DraftKind::Deliver => encode_deliver(alloc, draft, frame, segment),
        DraftKind::Submit => encode_submit(alloc, draft, frame, segment, place),
    }
}
