//! The message class of a text that is written, and fields that are spare.

ghost use Rattle.std.specs.Prelude.{◌≡◌, ◌≤◌};
ghost use Rattle.sms_field.specs.Coding.{alphabet_at};
ghost use Rattle.sms_join.specs.Segments.User.{coding_of};
ghost use Rattle.sms_c.specs.Class as seen;

use sms_join::SegmentView;
use sms_tpdu::UnitsView;

/// How many octets are spare in the fields of a unit.
pub const SPARE: usize = 6;

/// Whether all spare octets are 0.
pub fn are_spare(octets: &[u8]) -> bool
    ensures { result ≡ seen.are_spare octets.now }
{
    octets.iter().all(|octet| *octet == 0)
}

/// Whether a message class is one, and all spare octets are 0.
pub fn are_allowed(class: u8, spare: &[u8]) -> bool
    ensures { result ≡ seen.are_allowed class spare.now }
{
    class <= 4 && are_spare(spare)
}

/// The TP-DCS that tells the alphabet of a segment and the message class (3GPP TS 23.038, 4).
#[tactic(auto, unfolding(sms_field::specs::Coding::alphabet_at))]
pub fn scheme_of(segment: &SegmentView, class: u8) -> u8
    requires { class ≤ 4 }
    ensures scheme { result ≡ seen.scheme_of class segment.now.units }
    ensures alphabet { alphabet_at result ≡ coding_of segment.now.units }
{
    match (segment.units(), class) {
        (UnitsView::Gsm(_), 0) => 0x00,
        (UnitsView::Gsm(_), 1) => 0x10,
        (UnitsView::Gsm(_), 2) => 0x11,
        (UnitsView::Gsm(_), 3) => 0x12,
        (UnitsView::Gsm(_), _) => 0x13,
        (UnitsView::Ucs2(_), 0) => 0x08,
        (UnitsView::Ucs2(_), 1) => 0x18,
        (UnitsView::Ucs2(_), 2) => 0x19,
        (UnitsView::Ucs2(_), 3) => 0x1A,
        (UnitsView::Ucs2(_), _) => 0x1B,
    }
}
