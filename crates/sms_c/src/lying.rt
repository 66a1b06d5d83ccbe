//! Spans that C gives, in the octets that it gives.

ghost use Rattle.std.specs.Prelude.{◌≡◌, is_some, IfSome};
ghost use Rattle.sms_c.specs.Lying.{lies_in};
ghost use Rattle.sms_c.specs.Parts.{octets_at};

use crate::parts::Span;

/// The octets of a span, where it lies in these.
pub fn part_of(octets: &[u8], span: Span) -> Option<&[u8]>
    ensures lies { is_some result ≡ lies_in octets.now span }
    ensures part { IfSome result (λ part. part.now ≡ octets_at octets.now span) }
{
    if span.length > octets.len() || span.offset > octets.len() - span.length {
        return None;
    }
    Some(&octets[span.offset..][..span.length])
}
