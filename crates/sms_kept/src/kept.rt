//! A taker whose state is kept in a file.

ghost use Rattle.std.specs.Prelude.{◌≡◌, ◌⊎◌, [], Some, false, true, OnErr, OnOk, option_copied};
ghost use Rattle.std.specs.Io.KnownBytes.{Appends};
ghost use Rattle.sms_feed.specs.Takers.{standing};
ghost use Rattle.sms_file.specs.Crash.{LeavesOnly, Stands};
ghost use Rattle.sms_kept.specs.Keeping.{MayPut, PutsState, TakesOne, is_due, is_passed_over, keeping};

use crate::keeper::Keeper;
use sms_feed::{FeedFault, Line, take_one};
use sms_file::{Folder, replace};
use sms_page::{Page, PageFault};
use sms_work::Worker;
use std::io::Write;
use std::marker::Model;

/// Whether a line is among those that were taken before.
fn is_passed_over(number: u64, taken: u64) -> bool
    ensures { result ≡ is_passed_over number taken }
{
    number <= taken
}

/// Whether the state is due after a line.
fn is_due(number: u64, every: u64) -> bool
    ensures { result ≡ is_due number every }
{
    every > 0 && number % every == 0
}

/// Writes what stands on a page, and flushes the output.
fn write_out<W: Write>(page: &mut Page, output: &mut W) -> Result<(), FeedFault>
    ensures { OnOk result ((page.old.is_cut ≡ false)
        × (page.new ≡ record { octets = []; is_cut = false })
        × Appends (W.contents output.old) (W.contents output.new) page.old.octets) }
{
    page.write_to(output)?;
    output.flush().map_err(PageFault::Output)?;
    Ok(())
}

/// A taker whose state is kept in a file.
#[derive(Drop)]
pub struct Kept<T: Keeper, F: Folder + Drop> {
    taker: T,
    folder: F,
    every: u64,
    taken: u64,
}

impl<T: Keeper, F: Folder + Drop> Model for Kept<T, F> {
    ghost use Rattle.sms_kept.specs.Keeping.{KeptValue};

    ghost Value = { KeptValue T F };

    ghost view = { λ k. record {
      taker = k.taker;
      folder = k.folder;
      every = k.every;
      taken = k.taken;
    } };
}

impl<T: Keeper, F: Folder + Drop> Kept<T, F> {
    /// A taker whose state is kept in the file of a folder. It is put there after as many lines
    /// each time, or at the end alone where that is 0. The first lines were taken before: these are
    /// passed over.
    pub fn new(taker: T, folder: F, every: u64, taken: u64) -> Kept<T, F>
        ensures { result ≡ record {
          taker = taker;
          folder = folder;
          every = every;
          taken = taken;
        } }
    {
        Kept {
            taker,
            folder,
            every,
            taken,
        }
    }

    /// The taker. The folder is closed.
    pub fn into_taker(self) -> T
        ensures { result ≡ self.taker }
    {
        self.taker
    }

    /// Replaces the file by the state.
    fn replace_file(&mut self) -> Result<(), T::Fault>
        ensures same { self.new ≡ record (self.old) { folder = self.new.folder } }
        ensures stands { F.is_known self.old.folder ≡ true → OnOk result (Stands F.named F.may_leave
            (Some (T.state self.old.taker self.old.taken)) self.new.folder) }
        ensures may { F.is_known self.old.folder ≡ true
            → LeavesOnly F.moment F.left_since self.old.folder self.new.folder
            (λ c. F.may_leave self.old.folder c
            ⊎ (c ≡ Some (T.state self.old.taker self.old.taken))) }
    {
        let octets = match self.taker.save(self.taken) {
            Ok(octets) => octets,
            Err(_) => return Err(T::Fault::from(FeedFault::Page(PageFault::Memory))),
        };
        match replace(&mut self.folder, &octets) {
            Ok(()) => Ok(()),
            Err(fault) => Err(T::not_kept(fault)),
        }
    }

    /// Writes what was told, and then puts the state.
    fn put<W: Write>(&mut self, page: &mut Page, output: &mut W) -> Result<(), T::Fault>
        ensures puts { OnOk result (PutsState
            (keeping T.takes T.ends T.state F.is_known F.named F.may_leave F.moment
            F.left_since)
            (T.state self.old.taker self.old.taken)
            (standing self.old (W.contents output.old) page.old)
            (standing self.new (W.contents output.new) page.new)) }
        ensures may { OnErr result (MayPut
            (keeping T.takes T.ends T.state F.is_known F.named F.may_leave F.moment
            F.left_since)
            (T.state self.old.taker self.old.taken)
            (standing self.old (W.contents output.old) page.old)
            (standing self.new (W.contents output.new) page.new)) }
    {
        write_out(page, output)?;
        self.replace_file()
    }

    /// Hands on a line, which counts as taken then.
    fn take_line<W: Write>(
        &mut self,
        line: Line<'_>,
        page: &mut Page,
        output: &mut W,
    ) -> Result<(), T::Fault>
        ensures takes { OnOk result (TakesOne
            (keeping T.takes T.ends T.state F.is_known F.named F.may_leave F.moment
            F.left_since)
            (standing self.old (W.contents output.old) page.old)
            line.entry.number (option_copied line.entry.octets)
            (standing self.new (W.contents output.new) page.new)) }
        ensures same { OnErr result (self.new.folder ≡ self.old.folder) }
    {
        take_one(&mut self.taker, line, page, output)?;
        self.taken = line.number;
        Ok(())
    }
}

impl<T: Keeper, F: Folder + Drop> Worker for Kept<T, F> {
    type Fault = T::Fault;

    ghost use Rattle.sms_kept.specs.Keeping.{FailsLast, FailsLine, KeepsLast, KeepsLine, keeping};

    ghost does = { KeepsLine (keeping T.takes T.ends T.state F.is_known F.named F.may_leave
        F.moment F.left_since) };

    ghost fails = { FailsLine (keeping T.takes T.ends T.state F.is_known F.named F.may_leave
        F.moment F.left_since) };

    ghost ends = { KeepsLast (keeping T.takes T.ends T.state F.is_known F.named F.may_leave
        F.moment F.left_since) };

    ghost fails_at_end = { FailsLast (keeping T.takes T.ends T.state F.is_known F.named F.may_leave
        F.moment F.left_since) };

    fn take<W: Write>(
        &mut self,
        line: Line<'_>,
        page: &mut Page,
        output: &mut W,
    ) -> Result<(), T::Fault> {
        if is_passed_over(line.number, self.taken) {
            return Ok(());
        }
        self.take_line(line, page, output)?;
        if is_due(self.taken, self.every) {
            return self.put(page, output);
        }
        Ok(())
    }

    fn finish<W: Write>(&mut self, page: &mut Page, output: &mut W) -> Result<(), T::Fault> {
        self.taker.finish(page)?;
        self.put(page, output)
    }
}
