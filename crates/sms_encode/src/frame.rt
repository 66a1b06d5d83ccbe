//! What all segments of a text share.

ghost use Rattle.std.specs.Prelude.{◌≡◌, ◌<◌, Ok, IfErr, IfOk, false};
ghost use Rattle.sms_tpdu.specs.declared.user_data.concat.Width.TheVariants.{Eight};
ghost use Rattle.sms_page.specs.Page.{maybe};
ghost use Rattle.sms_show.specs.Digits.{said};
ghost use Rattle.sms_encode.specs.Frames.{IsBefore, IsFrame, IsStampOf, concat_reference_of, width_of};
ghost use Rattle.sms_encode.specs.Inside.Faults.{IsOther};

use crate::addresses::{address_of, centre_octets};
use crate::draft::Draft;
use crate::fault::EncodeFault;
use sms_field::{Address, Stamp};
use sms_show::read_octets;
use sms_tpdu::Width;
use std::alloc::{AllocError, Global};
use std::marker::Model;

/// The stamp of a delivery that is given none: the first second of 2000 in UTC.
const FIRST_SECOND: [u8; 7] = [0x00, 0x10, 0x10, 0x00, 0x00, 0x00, 0x00];

/// What all segments of a text share.
#[derive(Drop)]
pub(crate) struct Frame {
    /// The other party: of a delivery its origin (TP-OA), of a submission its target (TP-DA).
    pub(crate) address: Address,
    /// The stamp of a delivery (TP-SCTS).
    pub(crate) stamp: Stamp,
    /// The octets before the unit.
    pub(crate) before: Vec<u8>,
    /// How wide the concatenation reference is.
    pub(crate) width: Width,
    /// The concatenation reference.
    pub(crate) reference: u16,
}

impl Model for Frame {
    ghost use Rattle.std.specs.Prelude.{◌≡◌, ◌<◌};
    ghost use Rattle.sms_field.specs.Time.Stamp.{IsStamp};
    ghost use Rattle.sms_tpdu.specs.declared.user_data.concat.Width.TheVariants.{Eight};
    ghost use Rattle.sms_encode.specs.Frames.{FrameValue};

    ghost Value = { FrameValue };

    ghost view = { λ f. record {
      address = f.address;
      stamp = f.stamp;
      before = f.before.items;
      width = f.width;
      reference = f.reference;
    } };

    ghost invariant = { λ f. IsStamp f.stamp × (f.width ≡ Eight → f.reference < 256) };
}

/// The stamp whose seven octets a word says in hexadecimal.
fn stamp_of(alloc: Global, word: &str) -> Result<Stamp, EncodeFault>
    ensures stamp { IfOk result (λ stamp. said false word.now ≡ Ok stamp) }
    ensures other { IfErr result IsOther }
{
    let mut room = Vec::new(alloc);
    let octets = read_octets(&mut room, word.as_bytes(), false)?;
    let [y, m, d, h, n, s, z] = octets else {
        return Err(EncodeFault::BadStamp);
    };
    Ok(Stamp::new([*y, *m, *d, *h, *n, *s, *z]))
}

/// The stamp of a delivery.
fn stamp_in(alloc: Global, draft: &Draft<'_>) -> Result<Stamp, EncodeFault>
    ensures stamp { IfOk result (IsStampOf draft.now) }
    ensures other { IfErr result IsOther }
{
    match draft.stamp {
        Some(word) => stamp_of(alloc, word),
        None => Ok(Stamp::new(FIRST_SECOND)),
    }
}

/// What stands before a unit where no service centre is given: for a modem the octet that says that
/// there is none.
fn without_centre(alloc: Global, is_for_modem: bool) -> Result<Vec<u8>, AllocError>
    ensures { IfOk result (λ octets. octets.items ≡ maybe is_for_modem 0) }
{
    if is_for_modem {
        Ok(vec![in alloc; 0]?)
    } else {
        Ok(Vec::new(alloc))
    }
}

/// What stands before a unit: the address of a service centre where one is given, and for a modem
/// the octet that says that there is none.
fn octets_before(alloc: Global, draft: &Draft<'_>) -> Result<Vec<u8>, EncodeFault>
    ensures before { IfOk result (λ octets. IsBefore draft.now octets.items) }
    ensures other { IfErr result IsOther }
{
    match draft.centre {
        Some(text) => centre_octets(alloc, text),
        None => Ok(without_centre(alloc, draft.is_for_modem)?),
    }
}

/// How wide the concatenation reference is.
fn width_of(draft: &Draft<'_>) -> Width
    ensures { result ≡ width_of draft.now }
{
    if draft.is_wide {
        Width::Sixteen
    } else {
        Width::Eight
    }
}

/// The concatenation reference, 0 where none is given. One above 255 needs two octets.
fn reference_of(draft: &Draft<'_>) -> Result<u16, EncodeFault>
    ensures reference { IfOk result (λ reference. reference ≡ concat_reference_of draft.now) }
    ensures fits { IfOk result (λ reference. width_of draft.now ≡ Eight → reference < 256) }
    ensures other { IfErr result IsOther }
{
    let reference = draft.concat_reference.unwrap_or(0);
    if reference > 255 && !draft.is_wide {
        return Err(EncodeFault::ReferenceTooLarge);
    }
    Ok(reference)
}

/// What all segments of a text share.
pub(crate) fn frame_of(alloc: Global, draft: &Draft<'_>) -> Result<Frame, EncodeFault>
    ensures frame { IfOk result (IsFrame draft.now) }
    ensures other { IfErr result IsOther }
{
    let stamp = stamp_in(alloc, draft)?;
    let address = address_of(alloc, draft.address)?;
    let before = octets_before(alloc, draft)?;
    let reference = reference_of(draft)?;
    Ok(Frame {
        address,
        stamp,
        before,
        width: width_of(draft),
        reference,
    })
}
