//! That recipients behind one joiner do not meet. Each function is empty: its contract is the law.

ghost use Rattle.sms_join.specs.Gateway.Recipients.{AgesEach, AnswersEach, HoldsEach, LeavesOthers};
ghost use Rattle.sms_join.specs.Gateway.Recalled.{AnswersRecalled, LimitsRecall};
ghost use Rattle.sms_join.specs.Gateway.WithoutRecipient.{AnswersAlone, PieceIsAlone, RemembersAsJoiner};

/// A piece that is not turned away is answered as by a joiner that has only what is kept and
/// remembered of its recipient, and leaves of it what that one would have.
pub fn answers_each_recipient()
    ensures { AnswersEach }
{}

/// A piece leaves what is kept and remembered of other recipients as it was, but for keys that it
/// pushes out.
pub fn leaves_other_recipients()
    ensures { LeavesOthers }
{}

/// An aging drops of each recipient what it would drop of it alone.
pub fn ages_each_recipient()
    ensures { AgesEach }
{}

/// While no limit is reached, what is kept and remembered of a recipient is what a joiner of its
/// own would have, whatever was offered for others between.
pub fn holds_each_recipient()
    ensures { HoldsEach }
{}

/// A piece for a recipient, without it, is the piece for none.
pub fn piece_is_alone()
    ensures { PieceIsAlone }
{}

/// Where all pieces and keys are of one recipient, the answers are those without it.
pub fn answers_without_recipient()
    ensures { AnswersAlone }
{}

/// As long as no piece of a recipient is turned away, and each whose key one of its own would
/// remember finds it remembered, the recipient is answered as by one of its own to which no
/// recipient is told, whatever is offered for others between.
pub fn answers_each_alone()
    ensures { AnswersRecalled }
{}

/// While no limit is reached, that is so.
pub fn limits_recall()
    ensures { LimitsRecall }
{}

/// Where messages in one piece are remembered, and sets may be open for a week, one to which no
/// recipient is told is a `Joiner`.
pub fn remembers_as_joiner()
    ensures { RemembersAsJoiner }
{}
