//! What follows from the definitions alone. No function here does anything: its contract is the
//! law.

ghost use Rattle.sms_party.specs.Drops.{DropsPutNothingOut};
ghost use Rattle.sms_party.specs.Few.{FewArePutOut};
ghost use Rattle.sms_party.specs.Sender.Ended.{EndedAreTold, EndedAreTyped};
ghost use Rattle.sms_party.specs.Sender.Others.{OthersLeaveSender};

/// What one phone types and hears leaves the sender of another as it is.
pub fn others_leave_sender()
    ensures { OthersLeaveSender }
{}

/// The status of a text that has ended, asked by the number that it was typed as, is how it ended.
pub fn ended_texts_are_told()
    ensures { EndedAreTold }
{}

/// The texts that have ended at a phone are the first that were typed there, in the order of
/// typing.
pub fn ended_texts_are_typed()
    ensures { EndedAreTyped }
{}

/// A sender and a receiver put out two packets at most, and a sender all of its own to the centre.
pub fn few_are_put_out()
    ensures { FewArePutOut }
{}

/// What a sender or a receiver drops, whatever came, makes it put nothing out.
pub fn drops_put_nothing_out()
    ensures { DropsPutNothingOut }
{}
