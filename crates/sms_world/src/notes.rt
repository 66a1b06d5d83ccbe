//! What is noted of a world's events, so that it can be told whether they come in order.

pub(crate) mod mark;
pub(crate) mod receiver;
pub(crate) mod sender;

ghost use Rattle.std.specs.Prelude.{◌≡◌, ◌<◌, ◌≤◌, ◌^◌, ◌-◌, ◌+◌, ◌∷◌, ◌++◌, [], ℕ, option_to_list, Some, None, Ok, IfOk, take, length, slice_get, if◌then◌else◌};
ghost use Rattle.std.specs.Map.{lookup};
ghost use Rattle.indexmap.specs.IndexMap.{spare};
ghost use Rattle.sms_field.specs.Time.Computed.{end_of_2099};
ghost use Rattle.std.specs.VecDeque.{deque_len, deque_capacity};
ghost use Rattle.sms_message.specs.declared.outcome.Outcome.TheVariants.{Pushed};
ghost use Rattle.sms_world.specs.Machine.Next.{entered};
ghost use Rattle.sms_world.specs.Noted.{holds, neithers, with_marks, delivery_noted, push_noted, sender_noted, texts_after, recipient_of, noted, carry_noted, other_noted, submission_noted};
ghost use Rattle.sms_world.specs.declared.notes.receiver.ReceiverNotes.{ReceiverNotes as ReceiversNotes};
ghost use Rattle.sms_world.specs.declared.notes.mark.Part.{Part as PartValue};
ghost use Rattle.sms_world.specs.declared.notes.mark.Stamped.{Stamped as StampedValue};
ghost use Rattle.sms_world.specs.Breaches.{breach_at, repeat_breach, submission_breach, arrival_breach, segment_at, segment_in};
ghost use Rattle.sms_world.specs.Ledger.{mark_at, same_set, another_finished, another_open, Submits, Delivers, Neither, AreAlike, new_ledger};
ghost use Rattle.sms_world.specs.Inside.NotesValue.{ledger_in, text_at, free_at, sender_at, receiver_at, HasRoom, HasRoomAt, MayCome, MayHold, IsCounted, IsMarkFor, IsFor, facts_of};
ghost use Rattle.sms_world.specs.NoteKeys.{part_eq, stamped_eq, origin_of_part};
ghost use Rattle.std.specs.Vec.{vec_len, vec_capacity};
ghost use Rattle.sms_world.specs.declared.notes.sender.SenderNotes.{SenderNotes as TheSenderNotes};
ghost use Rattle.sms_world.specs.World.Steps.{event_of};

use crate::notes::mark::{Facts, Mark, Part, Stamped, TextNote};
use crate::notes::receiver::{ReceiverNotes, is_young};
use crate::notes::sender::SenderNotes;
use crate::order::{Disorder, TextSegment};
use indexmap::IndexMap;
use sms_message::Outcome;
use sms_script::Event;
use std::alloc::{AllocError, Global};
use std::collections::VecDeque;

/// What is noted.
#[derive(Drop)]
pub(crate) struct Notes {
    /// Of each packet, the last first.
    marks: VecDeque<Mark>,
    /// Of each text, the last first.
    texts: VecDeque<TextNote>,
    /// Of each phone.
    senders: Vec<SenderNotes>,
    receivers: Vec<ReceiverNotes>,
    /// When the validity of each accepted segment ends.
    ends: IndexMap<Part, u64>,
    /// Which segment was accepted with a stamp.
    stamps: IndexMap<Stamped, Part>,
}

/// The text of this number, counted from 0 from the first on.
fn text_of(texts: &VecDeque<TextNote>, text: usize) -> Option<TextNote>
    ensures { result ≡ text_at texts.now.items text }
{
    if text >= texts.len() {
        return None;
    }
    Some(texts[texts.len() - 1 - text])
}

/// Whether the deliveries of two texts have one key.
fn is_same_set(one: Option<TextNote>, other: Option<TextNote>) -> bool
    ensures { result ≡ same_set one other }
{
    let (Some(u), Some(t)) = (one, other) else {
        return false;
    };
    u.phone == t.phone && u.reference == t.reference && u.size == t.size && 1 < t.size
}

/// For which phone a text is of which this is noted.
fn recipient_of(text: Option<TextNote>) -> Option<usize>
    ensures { result ≡ recipient_of text }
{
    text?.recipient
}

/// A segment of a text of which this is noted.
fn segment_in(text: Option<TextNote>, segment: usize) -> Option<TextSegment>
    ensures { result ≡ segment_in text segment }
{
    let note = text?;
    Some(TextSegment {
        phone: note.phone,
        text: note.number,
        segment,
    })
}

/// The mark of the packet of this number, counted from 1, if as many were put out.
fn mark_of(marks: &VecDeque<Mark>, number: u64) -> Option<Mark>
    ensures { result ≡ mark_at marks.now.items number }
{
    if number == 0 || number > marks.len() as u64 {
        return None;
    }
    Some(marks[marks.len() - number as usize])
}

/// Whether another text with the key of this one is among the last that have finished.
fn is_finished_in_use(
    texts: &VecDeque<TextNote>,
    finished: &VecDeque<usize>,
    remembered: usize,
    text: usize,
) -> bool
    ensures { result
        ≡ another_finished texts.now.items text (take remembered finished.now.items) }
{
    let here = text_of(texts, text);
    let last = remembered.min(finished.len());
    for place in 0..last {
        let other = finished[place];
        if other != text && is_same_set(text_of(texts, other), here) {
            return true;
        }
    }
    false
}

/// Whether another text with the key of this one is open.
fn is_open_in_use(
    texts: &VecDeque<TextNote>,
    now: u64,
    opened: &VecDeque<(usize, u64)>,
    text: usize,
) -> bool
    ensures { result ≡ another_open texts.now.items now text opened.now.items }
{
    opened.iter().any(|e| {
        e.0 != text
            && (is_young(now, e.1) && is_same_set(text_of(texts, e.0), text_of(texts, text)))
    })
}

impl Notes {
    /// What a submission of a segment breaks, if it comes now.
    fn submission_breach(
        &self,
        remembered: usize,
        now: u64,
        text: usize,
        segment: usize,
        reject: bool,
    ) -> Option<Disorder>
        ensures { result ≡ submission_breach (ledger_in self.now) now text segment reject }
    {
        match self.ends.get(&Part { text, segment }) {
            None => None,
            Some(ends) => repeat_breach(*ends, now, reject),
        }
    }

    /// What a delivery of a text to a phone breaks, if it comes now.
    fn delivery_breach(
        &self,
        remembered: usize,
        now: u64,
        phone: usize,
        text: usize,
    ) -> Option<Disorder>
        ensures { result ≡ arrival_breach (ledger_in self.now) remembered now phone text }
    {
        let receiver = self.receivers.get(phone)?;
        if is_finished_in_use(&self.texts, &receiver.finished, remembered, text)
            || is_open_in_use(&self.texts, now, &receiver.opened, text)
        {
            return Some(Disorder::KeyUsedAgain);
        }
        if receiver.is_in_mind(remembered, text) {
            None
        } else {
            Some(Disorder::LateSegmentForgotten)
        }
    }

    /// What an event breaks, if it comes now.
    pub(crate) fn breach_at(&self, remembered: usize, now: u64, event: &Event) -> Option<Disorder>
        ensures { result ≡ breach_at (ledger_in self.now) remembered now (event_of event.now) }
    {
        match event {
            Event::Carry(number) => match mark_of(&self.marks, *number)? {
                Mark::Submits {
                    text,
                    segment,
                    reject,
                } => self.submission_breach(remembered, now, text, segment, reject),
                Mark::Delivers { phone, text, .. } => {
                    self.delivery_breach(remembered, now, phone, text)
                }
                Mark::Neither => None,
            },
            Event::Inject { .. } => Some(Disorder::Injected),
            _ => None,
        }
    }

    /// The segment that an event brings, if it brings one.
    pub(crate) fn segment_at(&self, event: &Event) -> Option<TextSegment>
        ensures { result ≡ segment_at (ledger_in self.now) (event_of event.now) }
    {
        let Event::Carry(number) = event else {
            return None;
        };
        match mark_of(&self.marks, *number)? {
            Mark::Submits { text, segment, .. } | Mark::Delivers { text, segment, .. } => {
                segment_in(text_of(&self.texts, text), segment)
            }
            Mark::Neither => None,
        }
    }

    /// A submission of this segment was accepted now, without a validity period, for this
    /// recipient. There is room for one ending and one stamp more.
    pub(crate) fn hold(&mut self, now: u64, part: Part, recipient: usize)
        requires ends { 0 < spare self.old.ends }
        requires stamps { 0 < spare self.old.stamps }
        requires recipient { recipient < length self.old.receivers.items }
        requires moment { now < end_of_2099 }
        requires free { free_at (slice_get self.old.receivers.items recipient) < 2 ^ 64 - 1 }
        ensures senders { length self.new.senders.items ≡ length self.old.senders.items }
        ensures receivers { length self.new.receivers.items ≡ length self.old.receivers.items }
        ensures marks { self.new.marks ≡ self.old.marks }
        ensures noted { AreAlike
            (holds (ledger_in self.old) now (origin_of_part part) (Some recipient))
            (ledger_in self.new) }
    {
        let receiver = &mut self.receivers[recipient];
        let stamp = receiver.free.max(now);
        receiver.free = stamp + 1;
        put_end(&mut self.ends, part, now + VALIDITY);
        put_stamp(&mut self.stamps, Stamped { recipient, stamp }, part);
    }
}

impl Notes {
    /// An event was answered so, for a phone that these facts name. There is room for what it adds.
    pub(crate) fn note(
        &mut self,
        reject: bool,
        now: u64,
        event: &Event,
        told: Outcome,
        facts: Facts,
    )
        requires room { HasRoomAt self.old facts.phone }
        requires few { facts.put ≤ 2 }
        requires holds { MayHold self.old }
        requires moment { now < end_of_2099 }
        ensures senders { length self.new.senders.items ≡ length self.old.senders.items }
        ensures receivers { length self.new.receivers.items ≡ length self.old.receivers.items }
        ensures noted { let l = ledger_in self.old in
            let noted_so = noted l reject now (event_of event.now) (Ok told) (facts_of facts) in
            IsFor l (event_of event.now) facts.phone → IsCounted (noted_so.sender facts.phone)
            → AreAlike noted_so (ledger_in self.new) }
    {
        match event {
            Event::Compose { .. } | Event::Timeout(_) => {
                self.call(facts.phone, reject, facts.text, told);
            }
            Event::Carry(number) => {
                let mark = mark_of(&self.marks, *number);
                self.bring(reject, now, mark, told, facts);
            }
            Event::Push(_) => self.put_push(facts, told),
            Event::Tick(_) => {}
            Event::Inject { .. } => {}
        }
    }

    /// A packet with this mark came, and was answered so. There is room for what it adds.
    fn bring(&mut self, reject: bool, now: u64, mark: Option<Mark>, told: Outcome, facts: Facts)
        requires room { HasRoomAt self.old facts.phone }
        requires few { facts.put ≤ 2 }
        requires holds { MayHold self.old }
        requires moment { now < end_of_2099 }
        ensures senders { length self.new.senders.items ≡ length self.old.senders.items }
        ensures receivers { length self.new.receivers.items ≡ length self.old.receivers.items }
        ensures noted { let l = ledger_in self.old in
            let noted_so = carry_noted l reject now (facts_of facts) (Ok told) mark in
            IsMarkFor mark facts.phone → IsCounted (noted_so.sender facts.phone)
            → AreAlike noted_so (ledger_in self.new) }
    {
        match mark {
            None => {}
            Some(Mark::Submits { text, segment, .. }) => {
                self.submit(now, Part { text, segment }, told);
                self.put_neithers(facts.put);
            }
            Some(Mark::Delivers { text, .. }) => {
                self.hear(now, facts.phone, text, told);
                self.put_neithers(facts.put);
            }
            Some(Mark::Neither) => self.bring_other(reject, told, facts),
        }
    }

    /// A packet came that brings neither a submission nor a delivery.
    fn bring_other(&mut self, reject: bool, told: Outcome, facts: Facts)
        requires room { HasRoomAt self.old facts.phone }
        requires few { facts.put ≤ 2 }
        ensures senders { length self.new.senders.items ≡ length self.old.senders.items }
        ensures receivers { length self.new.receivers.items ≡ length self.old.receivers.items }
        ensures noted { let l = ledger_in self.old in
            let to = (facts_of facts).to in
            let noted_so = other_noted l reject (facts_of facts) (Ok told) to in
            IsCounted (noted_so.sender facts.phone) → AreAlike noted_so (ledger_in self.new) }
    {
        if facts.up {
            self.put_neithers(facts.put);
        } else {
            self.call(facts.phone, reject, facts.text, told);
        }
    }

    /// A submission of this segment came, and was answered so.
    fn submit(&mut self, now: u64, part: Part, told: Outcome)
        requires ends { 0 < spare self.old.ends }
        requires stamps { 0 < spare self.old.stamps }
        requires holds { MayHold self.old }
        requires moment { now < end_of_2099 }
        ensures marks { self.new.marks ≡ self.old.marks }
        ensures senders { length self.new.senders.items ≡ length self.old.senders.items }
        ensures receivers { length self.new.receivers.items ≡ length self.old.receivers.items }
        ensures noted { let l = ledger_in self.old in
            AreAlike (submission_noted l now (origin_of_part part) (Ok told)) (ledger_in self.new) }
    {
        let text = text_of(&self.texts, part.text);
        if let (Outcome::Held, Some(recipient)) = (told, recipient_of(text)) {
            self.hold(now, part, recipient);
        }
    }

    /// The centre was to hand a message to a phone, and answered so.
    fn put_push(&mut self, facts: Facts, told: Outcome)
        requires { deque_len self.old.marks + 1 ≤ deque_capacity self.old.marks }
        ensures senders { length self.new.senders.items ≡ length self.old.senders.items }
        ensures receivers { length self.new.receivers.items ≡ length self.old.receivers.items }
        ensures noted { let l = ledger_in self.old in
            AreAlike (push_noted l facts.phone facts.stamp (Ok told)) (ledger_in self.new) }
    {
        if let Outcome::Pushed = told {
            self.push(facts.phone, facts.stamp);
        }
    }

    /// Nothing is noted, of as many phones.
    pub(crate) fn new(alloc: Global, phones: usize) -> Result<Notes, AllocError>
        ensures alike { IfOk result (λ notes. AreAlike new_ledger (ledger_in notes)) }
        ensures senders { IfOk result (λ notes. length notes.senders.items ≡ phones) }
        ensures receivers { IfOk result (λ notes. length notes.receivers.items ≡ phones) }
    {
        Ok(Notes {
            marks: VecDeque::new(alloc),
            texts: VecDeque::new(alloc),
            senders: new_senders(alloc, phones)?,
            receivers: new_receivers(alloc, phones)?,
            ends: IndexMap::new(alloc),
            stamps: IndexMap::new(alloc),
        })
    }

    /// Room for what an event at a phone can add. If memory runs out, nothing is noted otherwise.
    pub(crate) fn make_room(&mut self, phone: usize) -> Result<(), AllocError>
        requires senders { phone < length self.old.senders.items }
        requires receivers { phone < length self.old.receivers.items }
        ensures alike { AreAlike (ledger_in self.old) (ledger_in self.new) }
        ensures senders { length self.new.senders.items ≡ length self.old.senders.items }
        ensures receivers { length self.new.receivers.items ≡ length self.old.receivers.items }
        ensures room { IfOk result (λ _. HasRoomAt self.new phone) }
    {
        self.marks.reserve(2)?;
        self.texts.reserve(1)?;
        self.ends.reserve(1)?;
        self.stamps.reserve(1)?;
        let sender = &mut self.senders[phone];
        sender.make_room()?;
        let receiver = &mut self.receivers[phone];
        receiver.make_room()
    }

    /// A call of a phone's sender was answered so; a text that was typed has these notes. There is
    /// room for what it adds.
    pub(crate) fn call(&mut self, phone: usize, reject: bool, newest: TextNote, outcome: Outcome)
        requires phone { phone < length self.old.senders.items }
        requires marks { deque_len self.old.marks + 2 ≤ deque_capacity self.old.marks }
        requires texts { deque_len self.old.texts + 1 ≤ deque_capacity self.old.texts }
        requires typed { (s : TheSenderNotes) → slice_get self.old.senders.items phone ≡ Some s
            → vec_len s.typed + 1 ≤ vec_capacity s.typed }
        ensures senders { length self.new.senders.items ≡ length self.old.senders.items }
        ensures receivers { length self.new.receivers.items ≡ length self.old.receivers.items }
        ensures noted { ((s : TheSenderNotes) → slice_get self.old.senders.items phone ≡ Some s
            → MayCome s outcome)
            → AreAlike (sender_noted (ledger_in self.old) reject phone newest (Ok outcome))
            (ledger_in self.new) }
    {
        let count = self.texts.len();
        let sender = &mut self.senders[phone];
        sender.call(count, outcome);
        let put = sender.put_out(reject, outcome);
        put_marks(&mut self.marks, put.0, put.1);
        put_text(&mut self.texts, newest, outcome);
    }

    /// So many packets were put out that bring neither. There is room for their marks.
    pub(crate) fn put_neithers(&mut self, count: usize)
        requires { deque_len self.old.marks + count ≤ deque_capacity self.old.marks }
        ensures senders { length self.new.senders.items ≡ length self.old.senders.items }
        ensures receivers { length self.new.receivers.items ≡ length self.old.receivers.items }
        ensures noted { AreAlike (with_marks (ledger_in self.old) (neithers count))
            (ledger_in self.new) }
    {
        put_neithers(&mut self.marks, count);
    }

    /// A segment of a text came to a phone, and was answered so. There is room for one entry more
    /// of each kind.
    pub(crate) fn hear(&mut self, now: u64, phone: usize, text: usize, outcome: Outcome)
        requires phone { phone < length self.old.receivers.items }
        requires room { (r : ReceiversNotes) → slice_get self.old.receivers.items phone ≡ Some r
            → HasRoom r }
        ensures senders { length self.new.senders.items ≡ length self.old.senders.items }
        ensures receivers { length self.new.receivers.items ≡ length self.old.receivers.items }
        ensures marks { self.new.marks ≡ self.old.marks }
        ensures noted { AreAlike (delivery_noted (ledger_in self.old) now phone text (Ok outcome))
            (ledger_in self.new) }
    {
        let receiver = &mut self.receivers[phone];
        receiver.hear(now, text, outcome);
    }

    /// The message with this stamp was pushed to a phone. There is room for its mark.
    pub(crate) fn push(&mut self, phone: usize, stamp: u64)
        requires { deque_len self.old.marks + 1 ≤ deque_capacity self.old.marks }
        ensures senders { length self.new.senders.items ≡ length self.old.senders.items }
        ensures receivers { length self.new.receivers.items ≡ length self.old.receivers.items }
        ensures noted { AreAlike (push_noted (ledger_in self.old) phone stamp (Ok Pushed))
            (ledger_in self.new) }
    {
        let mark = match self.stamps.get(&Stamped {
            recipient: phone,
            stamp,
        }) {
            Some(part) => Mark::Delivers {
                phone,
                text: part.text,
                segment: part.segment,
            },
            None => Mark::Neither,
        };
        self.marks.push_front_reserved(mark);
    }
}

/// Nothing is noted of as many senders.
pub(crate) fn new_senders(alloc: Global, count: usize) -> Result<Vec<SenderNotes>, AllocError>
    ensures count { IfOk result (λ all. length all.items ≡ count) }
    ensures new { IfOk result
        (λ all. (p : ℕ) → sender_at (slice_get all.items p) ≡ sender_at None) }
{
    let mut all = Vec::with_capacity(alloc, count)?;
    for done in 0..count {
        all.push_reserved(SenderNotes::new(alloc));
    }
    Ok(all)
}

/// Nothing is noted of as many receivers.
fn new_receivers(alloc: Global, count: usize) -> Result<Vec<ReceiverNotes>, AllocError>
    ensures count { IfOk result (λ all. length all.items ≡ count) }
    ensures new { IfOk result
        (λ all. (p : ℕ) → receiver_at (slice_get all.items p) ≡ receiver_at None) }
    ensures free { IfOk result (λ all. (p : ℕ) → free_at (slice_get all.items p) ≡ 0) }
{
    let mut all = Vec::with_capacity(alloc, count)?;
    for done in 0..count {
        all.push_reserved(ReceiverNotes::new(alloc));
    }
    Ok(all)
}

/// Marks of what a sender has put out, for which there is room.
fn put_marks(marks: &mut VecDeque<Mark>, neither: bool, next: Option<Mark>)
    requires { deque_len marks.old + 2 ≤ deque_capacity marks.old }
    ensures { marks.new.items
        ≡ entered ((if neither then Neither ∷ [] else []) ++ option_to_list next)
        marks.old.items }
{
    if neither {
        marks.push_front_reserved(Mark::Neither);
    }
    if let Some(mark) = next {
        marks.push_front_reserved(mark);
    }
}

/// The notes of a text, where one was typed. There is room for them.
fn put_text(texts: &mut VecDeque<TextNote>, newest: TextNote, outcome: Outcome)
    requires { deque_len texts.old + 1 ≤ deque_capacity texts.old }
    ensures { texts.new.items ≡ texts_after texts.old.items newest (Ok outcome) }
{
    if let Outcome::Typed { .. } = outcome {
        texts.push_front_reserved(newest);
    }
}

/// Marks of as many packets that bring neither, for which there is room.
fn put_neithers(marks: &mut VecDeque<Mark>, count: usize)
    requires { deque_len marks.old + count ≤ deque_capacity marks.old }
    ensures { marks.new.items ≡ entered (neithers count) marks.old.items }
{
    for done in 0..count {
        marks.push_front_reserved(Mark::Neither);
    }
}

/// What a submission breaks, if it comes now, where one of its segment was accepted whose validity
/// ends so.
fn repeat_breach(ends: u64, now: u64, reject: bool) -> Option<Disorder>
    ensures { result ≡ repeat_breach (Some ends) now reject }
{
    if now >= ends {
        return Some(Disorder::RepeatAfterTheEnd);
    }
    if reject {
        None
    } else {
        Some(Disorder::RepeatWithoutRejection)
    }
}

/// How long a submission without a validity period is held, in seconds: two days.
const VALIDITY: u64 = 172_800;

/// Puts an ending in, for which there is room.
fn put_end(ends: &mut IndexMap<Part, u64>, part: Part, end: u64)
    requires { 0 < spare ends.old }
    ensures { (p : PartValue) → lookup (part_eq p) ends.new.entries
        ≡ (if part_eq part p then Some end else lookup (part_eq p) ends.old.entries) }
{
    let _ = ends.insert(part, end);
}

/// Puts a stamp in, for which there is room.
fn put_stamp(stamps: &mut IndexMap<Stamped, Part>, stamp: Stamped, part: Part)
    requires { 0 < spare stamps.old }
    ensures { (p : StampedValue) → lookup (stamped_eq p) stamps.new.entries
        ≡ (if stamped_eq stamp p then Some part else lookup (stamped_eq p) stamps.old.entries) }
{
    let _ = stamps.insert(stamp, part);
}
