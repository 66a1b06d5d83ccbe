//! Packets that are named before they are put out, and carried once, again or never, in a chart,
//! beside a search through its rows.

mod search;

use crate::found::holds;
use search::{Collected, Doing, came_before};
use sms_script::Script;
use sms_trial::{Made, fed_with};
use sms_world::World;
use std::alloc::Global;
use std::process::Abort;
use std::test::Fail;

/// What stands before the class of the line of a packet that arrives.
const ARROW: &str = "<g marker-end=\"url(#head)\"><line class=\"";

/// The phones of a script.
const PHONES: &str = "phone a +1001\nphone b +1002\nphone c +1003\n";

/// The names of the phones.
static NAMES: [&str; 3] = ["a", "b", "c"];

/// Takes the lines of a front of a script, which say no event.
fn take_lines(alloc: Global, script: &mut Script, front: &str) -> Result<(), Fail> {
    for line in front.lines() {
        if script.lines() < 1_000 {
            drop(script.take(alloc, line.as_bytes())?);
        }
    }
    Ok(())
}

/// A run of a script whose lines are made as it goes.
#[derive(Drop)]
struct Run {
    made: Made,
    script: Script,
    world: World,
    collected: Collected,
    lines: String,
}

impl Run {
    /// Before the first event.
    fn new(alloc: Global, seed: u64) -> Result<Run, Fail> {
        let mut script = Script::new(alloc);
        take_lines(alloc, &mut script, PHONES)?;
        let world = World::new(alloc, script.limits(), script.addresses())?;
        Ok(Run {
            made: Made::new(seed),
            script,
            world,
            collected: Collected::new(alloc),
            lines: PHONES.to_string(alloc)?,
        })
    }

    /// The number of a packet: of one that is still to come, of one of the last, or of any.
    fn number(&mut self) -> usize {
        let count = self.world.packet_count();
        match self.made.below(8) {
            0 => count.saturating_add(self.made.below(3)).saturating_add(1),
            1..=4 => count.saturating_sub(self.made.below(4)),
            5 => 99,
            _ => self.made.below(count).saturating_add(1),
        }
    }

    /// A line that says an event.
    fn line(&mut self, alloc: Global) -> Result<String, Fail> {
        let name = NAMES[self.made.below(3) % 3];
        Ok(match self.made.below(12) {
            0 => format!(in alloc; "type {name} +1002 hello\n")?,
            1 => format!(in alloc; "type {name} +1001 {:0>200}\n", "x")?,
            2 | 3 => format!(in alloc; "push {name}\n")?,
            4 => format!(in alloc; "timeout {name}\n")?,
            _ => format!(in alloc; "carry {}\n", self.number())?,
        })
    }

    /// Lets an event happen.
    fn go_on(&mut self, alloc: Global) -> Result<(), Fail> {
        let line = self.line(alloc)?;
        self.lines.push_str(&line)?;
        if self.script.lines() < 1_000
            && let Some(event) = self.script.take(alloc, line.trim_ascii().as_bytes())?
        {
            self.collected.happen(&mut self.world, &event)?;
        }
        Ok(())
    }
}

/// A run of made events.
fn run_of(alloc: Global, seed: u64) -> Result<Run, Fail> {
    let mut run = Run::new(alloc, seed)?;
    for _ in 0..200 {
        run.go_on(alloc)?;
    }
    Ok(run)
}

/// How the line of a packet looks that arrives.
fn class_of(is_again: bool, up: bool) -> &'static str {
    match (is_again, up) {
        (true, _) => "again\"",
        (false, true) => "up\"",
        (false, false) => "down\"",
    }
}

/// Each packet that arrives has its arrow, which tells whether it came before.
fn are_arrows_drawn(rt: &impl Abort, chart: &str, run: &Collected) {
    let mut arrows = chart.split(ARROW);
    let _ = arrows.next();
    for (number, row) in run.rows.iter().enumerate() {
        if let Doing::Arrival(packet) = row.doing {
            if let Some(sent) = run.packets.get(packet) {
                let is_again = came_before(&run.rows, number, packet);
                let arrow = arrows.next().unwrap_or("");
                holds(rt, &number, arrow.starts_with(class_of(is_again, sent.up)));
            }
        }
    }
    holds(rt, &"end", arrows.next().is_none());
}

/// Each packet has its name after the arrows, and before it a cross where it was never carried.
fn are_crosses_drawn(rt: &impl Abort, chart: &str, run: &Collected) {
    let (_, names) = chart.rsplit_once(ARROW).unwrap_or(("", ""));
    let mut names = names.split(">#");
    for (place, packet) in run.packets.iter().enumerate() {
        let before = names.next().unwrap_or("");
        let has_cross = before.contains("class=\"cross\"");
        holds(rt, &("cross", place), has_cross == (packet.carried == 0));
    }
    holds(
        rt,
        &"names",
        names.next().is_some() && names.next().is_none(),
    );
}

/// A run is drawn as the search through its rows has it.
fn is_drawn(rt: &impl Abort, alloc: Global, seed: u64) -> Result<(), Fail> {
    let run = run_of(alloc, seed)?;
    let (status, chart) = fed_with(alloc, &["sms", "chart"], &run.lines)?;
    holds(rt, &seed, status == 0 && run.collected.packets.len() > 20);
    are_arrows_drawn(rt, &chart, &run.collected);
    are_crosses_drawn(rt, &chart, &run.collected);
    Ok(())
}

#[test]
fn draws_arrivals_as_they_are_searched_for(rt: HostRuntime) -> Result<(), Fail> {
    for seed in 0..8 {
        is_drawn(&rt, rt.alloc(), seed)?;
    }
    Ok(())
}
