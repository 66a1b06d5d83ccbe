//! What follows from the definitions. No function here does anything: its contract is the law.

ghost use Rattle.sms_world.specs.Accepted.{AcceptedIsAccepted};
ghost use Rattle.sms_world.specs.Accepted.Reject.{AllReject, OnlyTimeIsLeft};
ghost use Rattle.sms_world.specs.Accepted.Few.{FewPuttingsOut, FewAreHonest};
ghost use Rattle.sms_world.specs.Inside.Below.{Below};
ghost use Rattle.sms_world.specs.Breaches.{WatchingGoesOn};
ghost use Rattle.sms_world.specs.Claims.Pieces.{EachMessageHasItsPiece};
ghost use Rattle.sms_world.specs.Claims.RememberedKeys.{KeysAreOfFinished};
ghost use Rattle.sms_world.specs.Claims.OpenSets.{OpenSetsAreOpenTexts};
ghost use Rattle.sms_world.specs.Determined.{RunsAreDetermined};
ghost use Rattle.sms_world.specs.Headline.Once.{AcceptedAtMostOnce};
ghost use Rattle.sms_world.specs.Headline.Finished.{FinishedTexts};
ghost use Rattle.sms_world.specs.Headline.Refused.{RefusedOnlyWhereFull};
ghost use Rattle.sms_world.specs.Headline.Stores.{StoresStand};
ghost use Rattle.sms_world.specs.Noted.{NotesStayRight};
ghost use Rattle.sms_world.specs.OrderTests.{OrderIsTested};
ghost use Rattle.sms_world.specs.OrderTold.{NotesTellOrder};
ghost use Rattle.sms_world.specs.Traced.{TracesTell};
ghost use Rattle.sms_world.specs.Understood.{IsOneAct};
ghost use Rattle.sms_world.specs.World.Asked.{FactsAreTold};
ghost use Rattle.sms_world.specs.World.Claims.{ClaimsHold};
ghost use Rattle.sms_world.specs.Unread.{NothingSaidChangesNoParty, UnreadChangesNothing};

use sms_centre::{centre_drops_put_nothing_out, centre_puts_few_out, stamps_rise};
use sms_field::laws::moments_come_back;
use sms_join::laws::{
    aging_keeps_texts, arrival_joins_in_order, completed_texts_are_whole, new_piece_is_fresh,
    open_texts_stay_apart, piece_is_turned_away, sets_stay_few, texts_complete_in_order,
};
use sms_join::{cut_is_read_as_text, texts_have_one_cut};
use sms_message::{
    carried_messages_are_read, octets_are_read_as_a_message, octets_are_read_as_one_message,
};
use sms_party::{
    drops_put_nothing_out, ended_texts_are_typed, few_are_put_out, others_leave_sender,
};

/// The laws of the crates below on which the others stand.
pub(crate) fn laws_below()
    ensures { Below }
{
    moments_come_back();
    sets_stay_few();
    completed_texts_are_whole();
    texts_complete_in_order();
    texts_have_one_cut();
    arrival_joins_in_order();
    sms_join::laws::open_sets_are_open_texts();
    open_texts_stay_apart();
    aging_keeps_texts();
    new_piece_is_fresh();
    piece_is_turned_away();
    cut_is_read_as_text();
    octets_are_read_as_a_message();
    octets_are_read_as_one_message();
    carried_messages_are_read();
    stamps_rise();
    centre_puts_few_out();
    centre_drops_put_nothing_out();
    few_are_put_out();
    drops_put_nothing_out();
    others_leave_sender();
}

/// Each event is one act: a text has one cut, and octets are read as one message.
pub fn events_are_one_act()
    ensures { IsOneAct }
{
    laws_below();
}

/// Where the notes are right, their test of an event is the test of the four orderly conditions.
pub fn order_is_told()
    ensures { NotesTellOrder }
{
    laws_below();
}

/// At each event that comes in order in an orderly run, right notes stay right.
pub fn notes_stay_right()
    ensures { NotesStayRight }
{
    laws_below();
}

/// At each event of a run what is noted stays right as long as the run is orderly, and the first
/// event that comes out of order is told, with a condition that it breaks.
pub fn watching_goes_on()
    ensures { WatchingGoesOn }
{
    laws_below();
}

/// At each event of an honest run right notes of packets and acceptances tell whether it meets the
/// conditions under which `accepted` means accepted; and where it does, they stay right.
pub fn traces_tell()
    ensures { TracesTell }
{}

/// What a world answers of its latest pushes and newest texts is so in each state that it stands
/// for.
pub fn facts_are_told()
    ensures { FactsAreTold }
{}

/// A run is determined by its first state, its events and its answers.
pub fn runs_are_determined()
    ensures { RunsAreDetermined }
{
    laws_below();
}

/// The test of an event holds just where the four orderly conditions do.
pub fn order_is_tested()
    ensures { OrderIsTested }
{
    laws_below();
}

/// Where nothing is injected and repeats ask for rejection in time, every message of a segment has
/// its piece, and each segment is accepted at most once.
pub fn each_message_has_its_piece()
    ensures { EachMessageHasItsPiece }
{}

/// After an orderly run the open sets of each phone are those of its open texts.
pub fn open_sets_are_open_texts()
    ensures { OpenSetsAreOpenTexts }
{
    laws_below();
}

/// After an orderly run the remembered keys of each phone are those of the last texts that have
/// finished there.
pub fn keys_are_of_finished_texts()
    ensures { KeysAreOfFinished }
{
    laws_below();
}

/// After an orderly run each store is, in order of completion, just the texts that have finished at
/// its phone.
pub fn stores_stand()
    ensures { StoresStand }
{
    laws_below();
}

/// After an orderly run the texts that have finished at a phone are just those typed to it of which
/// every segment was taken, each once, and they stand in the order in which they were completed.
pub fn finished_texts_are_whole()
    ensures { FinishedTexts }
{
    laws_below();
}

/// A delivery that comes in an orderly run is refused only where a table is full or memory runs
/// out.
pub fn deliveries_are_refused_only_where_full()
    ensures { RefusedOnlyWhereFull }
{
    laws_below();
}

/// Where nothing is injected and repeats ask for rejection in time, no two accepted submissions are
/// of one segment.
pub fn segments_are_accepted_once()
    ensures { AcceptedAtMostOnce }
{}

/// Where answers and rejections are of what they seem to be of, and nothing is injected, the centre
/// has accepted each segment of a text that is shown as accepted.
pub fn accepted_texts_were_accepted()
    ensures { AcceptedIsAccepted }
{}

/// Where nothing is injected and a phone has put out no more than 1,792 times, an answer to it with
/// the two numbers of its latest putting out is to that one.
pub fn few_answers_are_told_apart()
    ensures { FewPuttingsOut }
{}

/// Where a phone has put out no more than 1,792 times by the end of a run, answers to it are of
/// what they seem to be of, however often the others put out.
pub fn few_puttings_out_are_honest()
    ensures { FewAreHonest }
{}

/// Where duplicates are to be rejected from the first putting out on, each submission says so.
pub fn submissions_reject_duplicates()
    ensures { AllReject }
{}

/// Where duplicates are to be rejected from the first putting out on, copies may come as long as
/// the accepted submission has not ended.
pub fn copies_may_come_in_time()
    ensures { OnlyTimeIsLeft }
{}

/// Octets that no CP message reads change nothing and put nothing out.
pub fn unread_octets_change_nothing()
    ensures { UnreadChangesNothing }
{
    octets_are_read_as_one_message();
}

/// A CP-DATA without a readable RP message, or whose RP-DATA holds no readable unit, changes no
/// party.
pub fn unread_units_change_no_party()
    ensures { NothingSaidChangesNoParty }
{
    octets_are_read_as_one_message();
}

/// What is claimed of the machine holds of every world, by the states for which it stands: its
/// stores, what is refused, what is accepted, and what is shown as accepted.
pub fn claims_hold()
    ensures { ClaimsHold }
{
    stores_stand();
    finished_texts_are_whole();
    deliveries_are_refused_only_where_full();
    segments_are_accepted_once();
    accepted_texts_were_accepted();
    copies_may_come_in_time();
    ended_texts_are_typed();
}
