//! What holds of every run of a joiner for many recipients. Each function says its law by its
//! contract, and does nothing.

ghost use Rattle.sms_once.specs.Anew.{FinishInTurn, KeysJoinAnew};
ghost use Rattle.sms_once.specs.Sound.{RunsStaySound};
ghost use Rattle.sms_once.specs.InTime.{AnswersInTime, RunsWithoutAge, TimelyComeInTime};
ghost use Rattle.sms_once.specs.Once.{FinishesOnceInTime, FinishesTextInTime};
ghost use Rattle.sms_once.specs.Repeats.{RepeatsInTime};

/// After a piece that finishes its key, and is not passed, whatever comes, each later one under the
/// key is a repeat as long as fewer other keys finish than are remembered and no aging forgets the
/// finishing.
pub fn finished_keys_repeat()
    ensures { RepeatsInTime }
{}

/// Where only the pieces of a message are offered under its key, which is at first neither open nor
/// remembered, and none is passed, refused or dropped by age, the first offer by which all have
/// come finishes it; and no other does as long as fewer other keys finish than are remembered and
/// no aging forgets the finishing, whatever comes.
pub fn pieces_finish_once_in_time()
    ensures { FinishesOnceInTime }
{}

/// Where they are the pieces of a text, it is finished with just once, and read as the text.
pub fn texts_finish_once_in_time()
    ensures { FinishesTextInTime }
{
    sms_join::laws::cut_is_read_as_text();
}

/// After any offers and agings, an aging that forgets the finishing of a key leaves the key neither
/// open nor remembered.
pub fn keys_join_anew()
    ensures { KeysJoinAnew }
{}

/// Of any number of messages under one key, each of which an aging has forgotten before the next
/// begins, each finishes just once, in turn.
pub fn messages_finish_in_turn()
    ensures { FinishInTurn }
{}

/// No offer and no aging leaves a key remembered twice, or one whose set is open, and each key
/// keeps the moment of its finishing.
pub fn runs_stay_sound()
    ensures { RunsStaySound }
{}

/// As long as each piece finds its key remembered, if it would be were none forgotten by its age,
/// each is answered as if none were.
pub fn answers_in_time()
    ensures { AnswersInTime }
{}

/// Where each piece comes before any aging is so late that it forgets the finishing of its key,
/// each finds its key remembered, if it would be were none forgotten by its age.
pub fn timely_pieces_come_in_time()
    ensures { TimelyComeInTime }
{}

/// Where no key is forgotten by its age, the run holds what a joiner for many recipients then does.
pub fn runs_without_age()
    ensures { RunsWithoutAge }
{}
