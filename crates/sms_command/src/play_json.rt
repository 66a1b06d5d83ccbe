//! A script that is played, as objects in JSON.

ghost use Rattle.std.specs.Prelude.{◌≡◌, ◌&&◌, IfOk, Ok, OnOk, false, length, true};
ghost use Rattle.std.specs.Io.KnownBytes.{Appends};
ghost use Rattle.std.specs.List.{list_all};
ghost use Rattle.sms_page.specs.Plain.{is_plain};
ghost use Rattle.sms_command.specs.Inside.Answers.{OfInput};
ghost use Rattle.sms_command.specs.Inside.Runs.{AddsObject, is_trusted, is_watched, world_of};
ghost use Rattle.sms_command.specs.Inside.Tellers.{AddsObjects, MayAdd, WritesObjects, watching};
ghost use Rattle.sms_command.specs.declared.shown.Done.TheVariants.{Faulty, Whole};

use crate::fault::Fault;
use crate::objects::{Acceptance, Order, Packets, Sent, Stored};
use crate::outcomes::{is_fault, told_of};
use crate::run::{Running, Watching};
use crate::shown::Done;
use crate::words::Played;
use sms_answer::{Escaped, Lines, Number, Printed};
use sms_page::{Object, Page};
use sms_run::{Happened, Teller, run_script};
use sms_script::Script;
use sms_told::Form;
use sms_world::PlayFault;
use std::alloc::Global;
use std::io::{Read, Write};

/// Tells a run as objects in JSON.
#[derive(Drop)]
struct Objects {
    /// What is asked for.
    asked: Played,
    /// Whether an event named nothing.
    has_fault: bool,
}

/// Adds an object that tells something of a run.
fn put_told<P: Printed>(alloc: Global, name: &'static str, told: P, page: &mut Page)
    requires { list_all (is_plain 34) name.now ≡ true }
    ensures { AddsObject page.old page.new }
{
    let mut lines = Lines::new(Form::Json, page.take(alloc));
    lines.put(name, told);
    *page = lines.finish();
}

/// Adds what is told of the order of a run, where that is asked for.
fn put_order(alloc: Global, asked: Played, script: &Script, running: &Running, page: &mut Page)
    ensures { MayAdd (asked.tells_order && is_watched running.now) page.old page.new }
{
    if let (true, Some(breach)) = (asked.tells_order, running.order()) {
        put_told(alloc, "order", Order { script, breach }, page);
    }
}

/// Adds what is told of `accepted`, where that is noted.
fn put_accepted(alloc: Global, script: &Script, running: &Running, page: &mut Page)
    ensures { MayAdd (is_trusted running.now) page.old page.new }
{
    if let Some(doubt) = running.accepted() {
        put_told(alloc, "accepted", Acceptance { script, doubt }, page);
    }
}

/// Adds what stands at a phone in the end.
fn put_phone(alloc: Global, script: &Script, running: &Running, phone: usize, page: &mut Page)
    ensures { AddsObject page.old page.new }
{
    let mut lines = Lines::new(Form::Json, page.take(alloc));
    lines.put("phone", Escaped(script.name(phone)));
    lines.put("sent", Sent { running, phone });
    let stored = Stored {
        alloc,
        running,
        phone,
    };
    lines.put("store", stored);
    *page = lines.finish();
}

/// Adds what stands at each phone in the end.
fn put_phones(alloc: Global, script: &Script, running: &Running, page: &mut Page)
    ensures { AddsObjects (length (world_of running.now).parties.phones) page.old page.new }
{
    for phone in 0..running.phones() {
        put_phone(alloc, script, running, phone, page);
    }
}

impl Teller<Running> for Objects {
    ghost use Rattle.sms_command.specs.Inside.Tellers.{adds_object, ends_objects};

    type Fault = Fault;

    ghost tells = { adds_object };

    ghost finishes = { ends_objects };

    fn tell(
        &mut self,
        alloc: Global,
        happened: &Happened<'_, Running>,
        page: &mut Page,
    ) -> Result<(), Fault> {
        self.has_fault = self.has_fault || is_fault(happened.answer);
        let mut lines = Lines::new(Form::Json, page.take(alloc));
        lines.put("event", Number(happened.number));
        told_of(happened.answer).put(&mut lines);
        lines.put("packets", Packets(happened));
        *page = lines.finish();
        Ok(())
    }

    fn finish(
        &mut self,
        alloc: Global,
        script: &Script,
        running: &Running,
        page: &mut Page,
    ) -> Result<(), Fault> {
        put_phones(alloc, script, running, page);
        put_order(alloc, self.asked, script, running, page);
        put_accepted(alloc, script, running, page);
        Ok(())
    }
}

/// Adds the object of a script that is at fault.
fn put_script_fault(alloc: Global, fault: &PlayFault, page: &mut Page) -> Result<bool, Fault> {
    let PlayFault::Script { line, why } = fault else {
        return Ok(false);
    };
    let reason = why.to_string(alloc)?;
    let mut object = Object::new(page.take(alloc));
    object.open();
    object.name("fault");
    object.open();
    object.number_named("line", *line);
    object.text_named("reason", &reason);
    object.close();
    object.close();
    *page = object.into_line();
    Ok(true)
}

/// Ends a run that was not played to its end: a script that is at fault is told, and what stands on
/// the page is written.
fn end_early<W: Write>(
    alloc: Global,
    fault: Fault,
    page: &mut Page,
    output: &mut W,
) -> Result<Done, Fault>
    ensures { IfOk result (λ done. done ≡ Faulty) }
{
    let is_told = match &fault {
        Fault::Play(fault) => put_script_fault(alloc, fault, page)?,
        _ => false,
    };
    page.write_to(output)?;
    if is_told {
        return Ok(Done::Faulty);
    }
    Err(fault)
}

/// Whether all was done in a run that was played to its end. Where events that name nothing count,
/// they are faults.
fn done_of(asked: Played, objects: &Objects) -> Done
    ensures { result ≡ Whole → asked.is_checked ≡ true → objects.now.has_fault ≡ false }
{
    Done::unless(asked.is_checked && objects.has_fault)
}

/// Ends a run that was played to its end: what stands on the page is written.
fn end_whole<W: Write>(
    asked: Played,
    objects: &Objects,
    page: &mut Page,
    output: &mut W,
) -> Result<Done, Fault>
    ensures written { OnOk result
        (Appends (W.contents output.old) (W.contents output.new) page.old.octets) }
    ensures whole { OnOk result (page.old.is_cut ≡ false) }
    ensures faults { result ≡ Ok Whole → asked.is_checked ≡ true
        → objects.now.has_fault ≡ false }
{
    page.write_to(output)?;
    Ok(done_of(asked, objects))
}

/// What the world is to tell of a run.
fn watching(asked: Played) -> Watching
    ensures { result ≡ watching asked }
{
    if asked.tells_accepted {
        Watching::Accepted
    } else if asked.tells_order {
        Watching::Order
    } else {
        Watching::Nothing
    }
}

/// Plays the script that an input has, and writes an object for each event, and at the end one for
/// each phone, and those that tell whether the run was orderly and whether `accepted` means
/// accepted where that is asked for. Where events that name nothing count, they are faults.
pub fn play_as_json<R: Read, W: Write>(
    alloc: Global,
    asked: Played,
    input: &mut R,
    output: &mut W,
) -> Result<Done, Fault>
    ensures { result ≡ Ok Whole → OfInput (R.remaining input.old)
        (λ octets. WritesObjects asked octets (W.contents output.old) (W.contents output.new)) }
{
    let objects = Objects {
        asked,
        has_fault: false,
    };
    let mut page = Page::new(alloc);
    let (objects, played) = run_script::<Running, Objects, R, W>(
        alloc,
        watching(asked),
        objects,
        &mut page,
        input,
        output,
    );
    match played {
        Ok(()) => end_whole(asked, &objects, &mut page, output),
        Err(fault) => end_early(alloc, fault, &mut page, output),
    }
}
