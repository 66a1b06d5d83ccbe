//! What is noted of a world's packets and of what its centre has accepted, so that it can be told
//! whether `accepted` means accepted.

pub(crate) mod held;
pub(crate) mod trace;

ghost use Rattle.std.specs.Prelude.{◌≡◌, ◌<◌, ◌≤◌, ◌^◌, ◌-◌, ◌+◌, ℕ, Some, None, Ok, IfOk, IfSome, length, slice_get, option_to_list, if◌then◌else◌};
ghost use Rattle.std.specs.Option.{unwrap_or};
ghost use Rattle.std.specs.Map.{lookup};
ghost use Rattle.std.specs.Vec.{vec_len, vec_capacity};
ghost use Rattle.std.specs.VecDeque.{deque_len, deque_capacity};
ghost use Rattle.indexmap.specs.IndexMap.{spare};
ghost use Rattle.sms_party.specs.Sent.{nth};
ghost use Rattle.sms_world.specs.Machine.Next.{entered};
ghost use Rattle.sms_world.specs.Inside.TraceValue.{traces_in, HasTraceRoomAt, IsTraceFor, IsCountedAt, called_with};
ghost use Rattle.sms_world.specs.TraceTables.{key_eq, out_at};
ghost use Rattle.sms_world.specs.Traced.{bare_traces, called_traces, called_outs, numbers_after, call_traced, with_traces, taken_traced, carry_traced, traced};
ghost use Rattle.sms_world.specs.Traces.{TraceAlike, new_traces, trace_at, is_putting, is_to_another, answer_ground, reference_ground, seen_ground, ground_at, adds};
ghost use Rattle.sms_world.specs.World.Steps.{event_of};
ghost use Rattle.sms_world.specs.declared.traces.held.ReferenceKey.{ReferenceKey as KeyValue};

use crate::doubt::Ground;
use crate::notes::mark::{Mark, Part};
use crate::notes::new_senders;
use crate::notes::sender::SenderNotes;
use crate::order::TextSegment;
use crate::traces::held::{HeldNote, ReferenceKey, adds, is_other_held};
use crate::traces::trace::{Brought, Seen, Trace};
use indexmap::IndexMap;
use sms_message::{Outcome, Tag};
use sms_script::Event;
use std::alloc::{AllocError, Global};
use std::collections::VecDeque;

/// What is noted.
#[derive(Drop)]
pub(crate) struct TraceNotes {
    /// Of each packet, the last first.
    sent: VecDeque<Trace>,
    /// Of each text, as which of those of its phone it was typed, the last first.
    numbers: VecDeque<usize>,
    /// Of each phone, its texts.
    senders: Vec<SenderNotes>,
    /// Of each phone, how often it has put out a submission.
    outs: Vec<u64>,
    held: IndexMap<ReferenceKey, HeldNote>,
}

/// The trace of the packet of this number, counted from 1, if as many were put out.
fn trace_at(sent: &VecDeque<Trace>, number: u64) -> Option<Trace>
    ensures { result ≡ trace_at sent.now.items number }
{
    if number == 0 || number > sent.len() as u64 {
        return None;
    }
    Some(sent[sent.len() - number as usize])
}

/// As which of those of its phone the text of this number was typed.
fn number_of(numbers: &VecDeque<usize>, text: usize) -> usize
    ensures { result ≡ unwrap_or (nth numbers.now.items text) 0 }
{
    if text >= numbers.len() {
        return 0;
    }
    numbers[numbers.len() - 1 - text]
}

/// Whether it came of this putting out.
fn is_putting(putting: Option<u64>, number: u64) -> bool
    ensures { result ≡ is_putting putting number }
{
    match putting {
        None => false,
        Some(k) => k == number,
    }
}

/// Whether an answer to a phone that has put out so often has the tag of the last of them, and is
/// none to it.
fn is_to_another(outs: u64, tag: Tag, putting: Option<u64>) -> bool
    ensures { result ≡ is_to_another outs tag putting }
{
    if outs == 0 {
        return false;
    }
    let last = outs - 1;
    let named = u64::from(tag.value) == last % 7 && u64::from(tag.reference) == last % 256;
    named && !is_putting(putting, last)
}

impl TraceNotes {
    /// Which condition an answer to a phone breaks, if it comes now.
    fn answer_ground(&self, phone: usize, tag: Tag, putting: Option<u64>) -> Option<Ground>
        ensures { result ≡ answer_ground (traces_in self.now) phone tag putting }
    {
        let outs = self.outs.get(phone).copied()?;
        if is_to_another(outs, tag, putting) {
            Some(Ground::AnswerToAnother { phone })
        } else {
            None
        }
    }

    /// Which condition a submission from a phone breaks, if it comes now.
    fn reference_ground(
        &self,
        now: u64,
        phone: usize,
        reject: bool,
        reference: u8,
        recipient: Option<usize>,
        part: Option<Part>,
    ) -> Option<Ground>
        ensures { result
            ≡ reference_ground (traces_in self.now) now phone reject reference recipient part }
    {
        let (Some(recipient), Some(part)) = (recipient, part) else {
            return None;
        };
        let held = self.held.get(&ReferenceKey {
            phone,
            reference,
            recipient,
        });
        if !reject || !is_other_held(held.copied(), Some(part), now) {
            return None;
        }
        Some(Ground::ReferenceUsedAgain {
            segment: TextSegment {
                phone,
                text: number_of(&self.numbers, part.text),
                segment: part.segment,
            },
        })
    }

    /// Which condition a packet with this trace breaks, if it comes now.
    fn seen_ground(&self, now: u64, brought: Brought, trace: Trace) -> Option<Ground>
        ensures { result ≡ seen_ground (traces_in self.now) now brought.up brought.phone
            brought.seen trace }
    {
        match (brought.up, brought.seen) {
            (
                true,
                Seen::Submits {
                    reject,
                    reference,
                    recipient,
                    ..
                },
            ) => {
                let part = trace.segment;
                self.reference_ground(now, brought.phone, reject, reference, recipient, part)
            }
            (false, Seen::Answers { tag }) => {
                self.answer_ground(brought.phone, tag, trace.putting)
            }
            _ => None,
        }
    }

    /// Which condition an event breaks that brings this, if it comes now.
    pub(crate) fn ground_at(
        &self,
        now: u64,
        event: &Event,
        brought: Option<Brought>,
    ) -> Option<Ground>
        ensures { result ≡ ground_at (traces_in self.now) now (event_of event.now) brought }
    {
        match event {
            Event::Carry(number) => {
                let trace = trace_at(&self.sent, *number)?;
                self.seen_ground(now, brought?, trace)
            }
            Event::Inject { .. } => Some(Ground::Injected),
            _ => None,
        }
    }

    /// Nothing is noted, of as many phones.
    pub(crate) fn new(alloc: Global, phones: usize) -> Result<TraceNotes, AllocError>
        ensures alike { IfOk result (λ notes. TraceAlike new_traces (traces_in notes)) }
        ensures senders { IfOk result (λ notes. length notes.senders.items ≡ phones) }
        ensures outs { IfOk result (λ notes. length notes.outs.items ≡ phones) }
    {
        Ok(TraceNotes {
            sent: VecDeque::new(alloc),
            numbers: VecDeque::new(alloc),
            senders: new_senders(alloc, phones)?,
            outs: no_outs(alloc, phones)?,
            held: IndexMap::new(alloc),
        })
    }

    /// Room for what an event at a phone can add. If memory runs out, nothing is noted otherwise.
    pub(crate) fn make_room(&mut self, phone: usize) -> Result<(), AllocError>
        requires { phone < length self.old.senders.items }
        ensures alike { TraceAlike (traces_in self.old) (traces_in self.new) }
        ensures senders { length self.new.senders.items ≡ length self.old.senders.items }
        ensures outs { self.new.outs ≡ self.old.outs }
        ensures room { IfOk result (λ _. HasTraceRoomAt self.new phone) }
    {
        self.sent.reserve(2)?;
        self.numbers.reserve(1)?;
        self.held.reserve(1)?;
        let sender = &mut self.senders[phone];
        sender.make_room()
    }

    /// An event was answered so, for this phone; it brought this, and so many packets were put out.
    /// There is room for what it adds.
    pub(crate) fn note(
        &mut self,
        reject: bool,
        phone: usize,
        event: &Event,
        told: Outcome,
        brought: Option<Brought>,
        put: usize,
    )
        requires room { HasTraceRoomAt self.old phone }
        requires few { put ≤ 2 }
        requires outs { phone < length self.old.outs.items }
        requires is_for { IsTraceFor (event_of event.now) brought phone }
        ensures senders { length self.new.senders.items ≡ length self.old.senders.items }
        ensures outs { length self.new.outs.items ≡ length self.old.outs.items }
        ensures noted { let t = traces_in self.old in
            let noted_so = traced t reject (event_of event.now) (Ok told) brought put in
            IsCountedAt noted_so phone → TraceAlike noted_so (traces_in self.new) }
    {
        match event {
            Event::Compose { .. } | Event::Timeout(_) => self.call(phone, reject, told),
            Event::Carry(number) => {
                let trace = trace_at(&self.sent, *number);
                self.bring(reject, trace, told, brought, put);
            }
            Event::Push(_) => self.put_bare(put, None),
            Event::Tick(_) => {}
            Event::Inject { .. } => {}
        }
    }

    /// A packet with this trace came, and was answered so. There is room for what it adds.
    fn bring(
        &mut self,
        reject: bool,
        trace: Option<Trace>,
        told: Outcome,
        brought: Option<Brought>,
        put: usize,
    )
        requires room { IfSome brought (λ b. HasTraceRoomAt self.old b.phone) }
        requires outs { IfSome brought (λ b. b.phone < length self.old.outs.items) }
        requires few { put ≤ 2 }
        ensures senders { length self.new.senders.items ≡ length self.old.senders.items }
        ensures outs { length self.new.outs.items ≡ length self.old.outs.items }
        ensures noted { let t = traces_in self.old in
            let noted_so = carry_traced t reject trace brought (Ok told) put in
            IfSome brought (λ b. IsCountedAt noted_so b.phone)
            → TraceAlike noted_so (traces_in self.new) }
    {
        let (Some(trace), Some(b)) = (trace, brought) else {
            return;
        };
        if b.up {
            self.take(b.phone, b.seen, trace.segment, told);
            self.put_bare(put, trace.putting);
        } else if let Seen::Answers { .. } = b.seen {
            self.call(b.phone, reject, told);
        } else {
            self.put_bare(put, None);
        }
    }

    /// This came to the centre from a phone, of this segment, and was answered so. There is room
    /// for what it adds.
    fn take(&mut self, phone: usize, seen: Seen, part: Option<Part>, told: Outcome)
        requires { 0 < spare self.old.held }
        ensures sent { self.new.sent ≡ self.old.sent }
        ensures senders { self.new.senders ≡ self.old.senders }
        ensures outs { self.new.outs ≡ self.old.outs }
        ensures noted { TraceAlike (taken_traced (traces_in self.old) phone seen part (Ok told))
            (traces_in self.new) }
    {
        let Outcome::Held = told else {
            return;
        };
        if let Seen::Submits {
            reference,
            recipient: Some(recipient),
            ends: Some(ends),
            ..
        } = seen
        {
            let key = ReferenceKey {
                phone,
                reference,
                recipient,
            };
            hold(&mut self.held, key, part, ends);
        }
    }

    /// So many packets were put out that are of no segment, and came of this putting out. There is
    /// room for their traces.
    fn put_bare(&mut self, put: usize, putting: Option<u64>)
        requires { deque_len self.old.sent + put ≤ deque_capacity self.old.sent }
        ensures senders { self.new.senders ≡ self.old.senders }
        ensures outs { self.new.outs ≡ self.old.outs }
        ensures noted { TraceAlike (with_traces (traces_in self.old) put putting)
            (traces_in self.new) }
    {
        put_bare(&mut self.sent, put, putting);
    }

    /// A call of a phone's sender was answered so. There is room for what it adds.
    fn call(&mut self, phone: usize, reject: bool, told: Outcome)
        requires room { HasTraceRoomAt self.old phone }
        requires outs { phone < length self.old.outs.items }
        ensures senders { length self.new.senders.items ≡ length self.old.senders.items }
        ensures outs { length self.new.outs.items ≡ length self.old.outs.items }
        ensures noted { let noted_so = call_traced (traces_in self.old) reject phone (Ok told) in
            IsCountedAt noted_so phone → TraceAlike noted_so (traces_in self.new) }
    {
        let count = self.numbers.len();
        let sender = &mut self.senders[phone];
        sender.call(count, told);
        let (neither, next) = sender.put_out(reject, told);
        let outs = &mut self.outs[phone];
        put_called(&mut self.sent, outs, neither, next);
        put_number(&mut self.numbers, told);
    }
}

/// No submission was put out, of as many phones.
fn no_outs(alloc: Global, count: usize) -> Result<Vec<u64>, AllocError>
    ensures count { IfOk result (λ all. length all.items ≡ count) }
    ensures new { IfOk result (λ all. (p : ℕ) → out_at (slice_get all.items p) ≡ 0) }
{
    let mut all = Vec::with_capacity(alloc, count)?;
    for done in 0..count {
        all.push_reserved(0);
    }
    Ok(all)
}

/// Traces of as many packets that are of no segment, and came of this putting out. There is room
/// for them.
fn put_bare(sent: &mut VecDeque<Trace>, count: usize, putting: Option<u64>)
    requires { deque_len sent.old + count ≤ deque_capacity sent.old }
    ensures { sent.new.items ≡ entered (bare_traces count putting) sent.old.items }
{
    for done in 0..count {
        sent.push_front_reserved(Trace {
            segment: None,
            putting,
        });
    }
}

/// Traces of what a sender has put out that had put out so often. There is room for them.
fn put_called(sent: &mut VecDeque<Trace>, outs: &mut u64, neither: bool, next: Option<Mark>)
    requires { deque_len sent.old + 2 ≤ deque_capacity sent.old }
    ensures sent { let marks = called_with neither next in
        sent.new.items ≡ entered (called_traces outs.old marks) sent.old.items }
    ensures outs { let marks = called_with neither next in
        called_outs outs.old marks ≤ 2 ^ 64 - 1 → outs.new ≡ called_outs outs.old marks }
{
    if neither {
        sent.push_front_reserved(Trace {
            segment: None,
            putting: None,
        });
    }
    put_next(sent, outs, next);
}

/// The trace of what is put out last, if something is. There is room for it.
fn put_next(sent: &mut VecDeque<Trace>, outs: &mut u64, next: Option<Mark>)
    requires { deque_len sent.old + 1 ≤ deque_capacity sent.old }
    ensures sent { sent.new.items
        ≡ entered (called_traces outs.old (option_to_list next)) sent.old.items }
    ensures outs { called_outs outs.old (option_to_list next) ≤ 2 ^ 64 - 1
        → outs.new ≡ called_outs outs.old (option_to_list next) }
{
    match next {
        None => {}
        Some(Mark::Submits { text, segment, .. }) => {
            sent.push_front_reserved(Trace {
                segment: Some(Part { text, segment }),
                putting: Some(*outs),
            });
            *outs = outs.saturating_add(1);
        }
        Some(_) => sent.push_front_reserved(Trace {
            segment: None,
            putting: None,
        }),
    }
}

/// The number of a text at its phone, where one was typed. There is room for it.
fn put_number(numbers: &mut VecDeque<usize>, told: Outcome)
    requires { deque_len numbers.old + 1 ≤ deque_capacity numbers.old }
    ensures { numbers.new.items ≡ numbers_after numbers.old.items (Ok told) }
{
    if let Outcome::Typed { text } = told {
        numbers.push_front_reserved(text);
    }
}

/// One more submission with this key was accepted, of this segment, that ends so. There is room for
/// it.
fn hold(
    held: &mut IndexMap<ReferenceKey, HeldNote>,
    key: ReferenceKey,
    part: Option<Part>,
    ends: u64,
)
    requires { 0 < spare held.old }
    ensures { (k : KeyValue) → lookup (key_eq k) held.new.entries
        ≡ (if key_eq key k then Some (adds (lookup (key_eq key) held.old.entries) part ends)
        else lookup (key_eq k) held.old.entries) }
{
    let note = adds(held.get(&key).copied(), part, ends);
    let _ = held.insert(key, note);
}
