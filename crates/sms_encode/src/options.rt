//! The options that a unit may have.

ghost use Rattle.std.specs.Prelude.{◌≡◌};
ghost use Rattle.sms_encode.specs.Options.{has_wrong_option};

use crate::draft::{Draft, DraftKind};

/// Whether an option was given that the kind of unit, or a text in one piece, does not have.
pub(crate) fn has_wrong_option(draft: &Draft<'_>) -> bool
    ensures { result ≡ has_wrong_option draft.now }
{
    let of_submission = draft.reference.is_some() || draft.reject || draft.validity.is_some();
    let of_segments = draft.is_wide || draft.concat_reference.is_some();
    let of_other_kind = match draft.kind {
        DraftKind::Deliver => of_submission,
        DraftKind::Submit => draft.stamp.is_some(),
    };
    of_other_kind || of_segments && !draft.is_split
}
