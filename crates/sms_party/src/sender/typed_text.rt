//! A typed text on its way.

ghost use Rattle.std.specs.Prelude.{◌≡◌, ◌<◌, ◌≤◌, length, false, Some, IfOk, IfErr};
ghost use Rattle.sms_join.specs.Segments.User.{IsSendable};
ghost use Rattle.sms_party.specs.Inside.Sender.{submission_in, text_put, CarriesOptional};
ghost use Rattle.sms_message.specs.Message.Carrying.{Carries};
ghost use Rattle.sms_message.specs.declared.message.Message.TheVariants.{Data};
ghost use Rattle.sms_message.specs.declared.message.Relay.TheVariants.{Transfer};
ghost use Rattle.sms_message.specs.declared.message.TransferUnit.TheVariants.{Submit as TheUnit};
ghost use Rattle.sms_message.specs.declared.outcome.Dropped.TheVariants.{Memory};
ghost use Rattle.sms_relay.specs.declared.side.Side.TheVariants.{FromPhone};
ghost use Rattle.sms_relay.specs.declared.user.TheConstants.{USER_DATA_MAX};
ghost use Rattle.sms_tpdu.specs.Submit.{Submission, SpellsSubmit};

use sms_field::{Address, Validity};
use sms_join::{SegmentView, Segments};
use sms_message::packets::{address_of_centre, wrapped};
use sms_message::{Dropped, Spare, Tag};
use sms_relay::{Side, wrap_written_in};
use sms_tpdu::{SubmitFront, Width};
use std::alloc::AllocError;
use std::marker::Model;

/// A typed text that has not ended.
#[derive(Drop)]
pub(crate) struct TypedText {
    pub target: Address,
    /// In order, 255 at most.
    pub segments: Segments,
    /// The TP-Message-Reference of the first segment.
    pub reference: u8,
    pub width: Width,
    /// The concatenation reference, where there is more than one segment; below 256 for
    /// `Width::Eight`.
    pub set_reference: u16,
}

impl Model for TypedText {
    ghost use Rattle.std.specs.Prelude.{◌≡◌, ◌<◌, ◌≤◌, All, length};
    ghost use Rattle.sms_tpdu.specs.declared.user_data.concat.Width.TheVariants.{Eight};
    ghost use Rattle.sms_join.specs.Segments.User.{IsSendable};
    ghost use Rattle.sms_join.specs.declared.cut.TheConstants.{SEGMENTS_MAX};
    ghost use Rattle.sms_party.specs.Sender.Value.{TextValue};

    ghost Value = { TextValue };

    ghost view = { λ t. record {
      target = t.target;
      segments = t.segments;
      reference = t.reference;
      width = t.width;
      set_reference = t.set_reference;
    } };

    ghost invariant = { λ t. (t.width ≡ Eight → t.set_reference < 256)
        × (length t.segments ≤ SEGMENTS_MAX) × All (IsSendable t.width) t.segments };
}

/// The packet of a submission that is written so.
fn submission_packet(spare: &mut Spare, tag: Tag, octets: Vec<u8>) -> Result<Vec<u8>, Dropped>
    requires value { tag.value < 7 }
    requires few { length octets.items ≤ USER_DATA_MAX }
    ensures carries { (s : Submission) → SpellsSubmit s octets.items
        → IfOk result (λ packet. Carries packet.items
        (Data false tag (Transfer FromPhone (TheUnit s)))) }
    ensures err { IfErr result (λ e. e ≡ Memory) }
{
    let address = address_of_centre();
    let packet = wrap_written_in(
        spare.room(),
        false,
        tag.value,
        Side::FromPhone,
        tag.reference,
        Some(&address),
        octets.as_slice(),
    );
    spare.give(octets);
    wrapped(packet)
}

impl TypedText {
    /// The submission of its segment at a place, counted from 0, as octets.
    fn submission(
        &self,
        spare: &mut Spare,
        place: u8,
        segment: &SegmentView<'_>,
        reject: bool,
    ) -> Result<Vec<u8>, AllocError>
        requires { IsSendable self.now.width segment.now }
        ensures spelled { IfOk result (λ octets. SpellsSubmit
            (submission_in self.now place segment.now reject) octets.items) }
        ensures few { IfOk result (λ octets. length octets.items ≤ USER_DATA_MAX) }
    {
        let front = SubmitFront {
            reject,
            validity: Validity::Absent,
            report: false,
            reply: false,
            reference: self.reference.wrapping_add(place),
            target: self.target.copy(spare.alloc())?,
            pid: 0,
            dcs: segment.coding_scheme(),
        };
        segment.write_submit_in(spare.room(), &front, self.width, self.set_reference)
    }

    /// The packet of the segment at a place, counted from 0, if there is one there.
    pub(crate) fn packet(
        &self,
        spare: &mut Spare,
        tag: Tag,
        place: u8,
        reject: bool,
    ) -> Result<Option<Vec<u8>>, Dropped>
        requires { tag.value < 7 }
        ensures carries { IfOk result (λ packet.
            CarriesOptional packet (text_put tag reject place (Some self.now))) }
        ensures err { IfErr result (λ e. e ≡ Memory) }
    {
        let Some(segment) = self.segments.get(usize::from(place)) else {
            return Ok(None);
        };
        let octets = self.submission(spare, place, &segment, reject)?;
        Ok(Some(submission_packet(spare, tag, octets)?))
    }
}
