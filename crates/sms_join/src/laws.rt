//! What holds of every joiner, whatever comes, and of every cut of a text. Each function is empty:
//! its contract is the law.

ghost use Rattle.sms_join.specs.Joiner.Aging.{AgesAlike, SetsStayFew};
ghost use Rattle.sms_join.specs.Arrivals.Completion.{CompletedAreWhole, CompleteInOrder};
ghost use Rattle.sms_join.specs.Joiner.Counts.{WholeByCount};
ghost use Rattle.sms_join.specs.Cut.{HasOneCut};
ghost use Rattle.sms_join.specs.Joiner.Finishing.{AnswerFinishes, SameIsEquivalence};
ghost use Rattle.sms_join.specs.Joiner.History.{FinishesByHistory, OffersTellAnswers};
ghost use Rattle.sms_join.specs.Arrivals.Joining.{JoinsInOrder, JoinsOne};
ghost use Rattle.sms_join.specs.Arrivals.OpenTexts.{AgesOne, NewIsFresh, OpenSetsAreOpenTexts, StayApart, TurnsAway};
ghost use Rattle.sms_join.specs.Arrivals.Pieces.{FinishesOnce, FinishesText};
ghost use Rattle.sms_join.specs.Reading.{CutIsReadAsText};
ghost use Rattle.sms_join.specs.Joiner.Same.{AnswersAlike};

/// Where only the pieces of a message are offered under its key, which is at first neither open nor
/// remembered, none is refused or dropped by age, and fewer other keys finish after it than are
/// remembered, just one offer finishes it: the first by which all have come.
pub fn pieces_finish_once()
    ensures { FinishesOnce }
{}

/// What the pieces of a text finish is read as the text.
pub fn pieces_finish_text()
    ensures { FinishesText }
{}

/// What a new joiner answers to each of any list of offers and agings, which keys finish in what
/// order, and which offers are turned away, is told by the offers and agings alone.
pub fn offers_tell_answers()
    ensures { OffersTellAnswers }
{}

/// An offer finishes its set just where its key is not among the last that finished, its sequence
/// has not been kept since the key last finished or was dropped, and with it each sequence from 1
/// to the maximum has.
pub fn finishes_by_history()
    ensures { FinishesByHistory }
{}

/// One arrival in order delivers the text that it completes, and leaves just the pieces of the
/// texts that are open.
pub fn arrival_joins_in_order()
    ensures { JoinsOne }
{}

/// After arrivals in order and agings the open sets are those of the texts that have arrived in
/// part, the remembered keys are those of the last texts that have arrived whole, and each of these
/// was delivered once, in order of completion.
pub fn arrivals_join_in_order()
    ensures { JoinsInOrder }
{}

/// A piece that is no repeat makes its set whole just where the set then has as many pieces as its
/// maximum.
pub fn whole_by_count()
    ensures { WholeByCount }
{}

/// Joiners that hold the same answer the same to each piece, and hold the same afterwards, whatever
/// the order in which they keep their pieces.
pub fn answers_alike()
    ensures { AnswersAlike }
{}

/// Holding the same is an equivalence.
pub fn same_is_equivalence()
    ensures { SameIsEquivalence }
{}

/// A piece that would finish its set is answered so, and no other one is.
pub fn answer_finishes()
    ensures { AnswerFinishes }
{}

/// An aging leaves joiners that hold the same the same.
pub fn agings_keep_same()
    ensures { AgesAlike }
{}

/// No offer and no aging opens a set too many.
pub fn sets_stay_few()
    ensures { SetsStayFew }
{}

/// One aging leaves just the pieces of the open texts that remain.
pub fn aging_keeps_texts()
    ensures { AgesOne }
{}

/// Where no two open texts have one key, as many sets are open as texts are.
pub fn open_sets_are_open_texts()
    ensures { OpenSetsAreOpenTexts }
{}

/// Where no two open texts have one key, no two have one after an arrival in order.
pub fn open_texts_stay_apart()
    ensures { StayApart }
{}

/// A piece that arrives in order and is no repeat is of a text that is not complete.
pub fn new_piece_is_fresh()
    ensures { NewIsFresh }
{}

/// A piece that arrives in order is turned away only where as many texts are open as may be, no
/// piece of its text has arrived, and it does not complete its text.
pub fn piece_is_turned_away()
    ensures { TurnsAway }
{}

/// A completed text has arrived whole.
pub fn completed_texts_are_whole()
    ensures { CompletedAreWhole }
{}

/// One completed text stands before another just where its last missing piece came earlier.
pub fn texts_complete_in_order()
    ensures { CompleteInOrder }
{}

/// A text has one cut into pieces, and no other.
pub fn texts_have_one_cut()
    ensures { HasOneCut }
{}

/// The pieces of a text, of either width and in order, are read as the text.
pub fn cut_is_read_as_text()
    ensures { CutIsReadAsText }
{}
