//! The jobs, each over an input that its seed makes.

use crate::answers::Answers;
use crate::campaign::write;
use crate::chance::Chance;
use crate::counts::Form;
use crate::letters::letters_of;
use crate::lines::{Made, Maker};
use crate::pool::{Units, pool_of};
use crate::scripts::{Script, texts_of};
use crate::traffic::{Shape, Traffic};
use crate::units::{take_units, units_of};
use anyhow::{Result, bail};
use sms_command::command;
use std::alloc::Global;
use std::collections::VecDeque;

/// How many texts the traffic has, each again and again under other keys.
const POOL: usize = 1_000;

/// The most lines of a script.
const SCRIPT: u64 = 100_000;

/// The most lines of a script that is drawn.
const DRAWN: u64 = 40_000;

/// The most lines of a crowd.
const CROWDED: u64 = 40_000;

/// Lines in the order of one joiner's narrow limits, some 300 in a week.
const NARROW: Shape = Shape {
    flights: 8,
    origins: 10_000,
    fault: 100,
    repeat: 50,
    recent: 32,
    is_soon: false,
    lost: 40,
    lost_segments: 0,
    pace: 1_801,
    has_centre: false,
    has_letters: false,
};

/// Segments of thousands of texts among each other, within a day.
const CROWD: Shape = Shape {
    flights: 9_000,
    origins: 1_000_000,
    fault: 100,
    repeat: 50,
    recent: 10_000,
    is_soon: false,
    lost: 100,
    lost_segments: 0,
    pace: 1,
    has_centre: false,
    has_letters: false,
};

/// A capture of which one line in ten is at fault.
const CAPTURE: Shape = Shape {
    flights: 8,
    origins: 10_000,
    fault: 10,
    repeat: 0,
    recent: 0,
    is_soon: false,
    lost: 0,
    lost_segments: 0,
    pace: 61,
    has_centre: false,
    has_letters: false,
};

/// The same with the addresses of centres, and reports.
const LISTING: Shape = Shape {
    flights: 8,
    origins: 10_000,
    fault: 10,
    repeat: 0,
    recent: 0,
    is_soon: false,
    lost: 0,
    lost_segments: 0,
    pace: 61,
    has_centre: true,
    has_letters: false,
};

/// Texts with letters that are escaped, in the order of one joiner's narrow limits.
const LETTERS: Shape = Shape {
    flights: 8,
    origins: 10_000,
    fault: 100,
    repeat: 50,
    recent: 32,
    is_soon: false,
    lost: 40,
    lost_segments: 0,
    pace: 1_801,
    has_centre: false,
    has_letters: true,
};

/// Months of a gateway, 86,400 lines a week.
const GATEWAY: Shape = Shape {
    flights: 1_000,
    origins: 1_000_000,
    fault: 100,
    repeat: 30,
    recent: 20_000,
    is_soon: true,
    lost: 0,
    lost_segments: 20,
    pace: 7,
    has_centre: false,
    has_letters: false,
};

/// The seed of the input of a number.
fn seed_of(seed: u64, number: u64) -> u64 {
    seed.wrapping_mul(1_000).wrapping_add(number)
}

/// Runs the command on lines that are made, and takes its output and status.
fn run_on<M: Maker>(alloc: Global, words: &[&str], form: Form, maker: M, answers: &mut Answers) {
    let mut input = Made::new(alloc, maker);
    answers.begin(form);
    let status = command(alloc, words, &mut input, answers);
    drop(input);
    answers.finish(status);
}

/// The units of the texts of a shape.
fn pool_for(alloc: Global, shape: Shape, chance: &mut Chance) -> Result<Vec<Units>> {
    if shape.has_letters {
        return letters_of(alloc, chance, POOL);
    }
    pool_of(alloc, chance, POOL)
}

/// Traffic of a shape.
fn traffic(alloc: Global, shape: Shape, seed: u64, count: u64) -> Result<Traffic> {
    let mut chance = Chance::new(seed);
    let pool = pool_for(alloc, shape, &mut chance)?;
    let mut traffic = Traffic {
        shape,
        chance,
        pool,
        flights: Vec::new(alloc),
        sent: VecDeque::new(alloc),
        left: count,
        clock: 1,
        begun: 0,
        digits: Vec::new(alloc),
    };
    traffic.fill()?;
    Ok(traffic)
}

/// Joins traffic as objects, and as much other traffic as lines, of which all is told.
fn join(alloc: Global, seed: u64, count: u64, answers: &mut Answers) -> Result<()> {
    let half = count / 2;
    let objects = traffic(alloc, NARROW, seed_of(seed, 0), half)?;
    let words = ["sms", "join", "--json"];
    run_on(alloc, &words, Form::JoinedJson, objects, answers);
    let lines = traffic(alloc, NARROW, seed_of(seed, 1), half)?;
    let words = ["sms", "join", "--verbose"];
    run_on(alloc, &words, Form::Joined, lines, answers);
    Ok(())
}

/// Joins a crowd's segments. Of each second crowd, the first too, all is told.
fn crowd_one(
    alloc: Global,
    seed: u64,
    number: u64,
    lines: u64,
    answers: &mut Answers,
) -> Result<()> {
    let own = traffic(alloc, CROWD, seed_of(seed, number), lines)?;
    let words = [
        "sms",
        "join",
        "--open",
        "10000",
        "--remembered",
        "10000",
        "--verbose",
    ];
    let told = if number % 2 == 0 { 7 } else { 6 };
    run_on(alloc, &words[..told], Form::Joined, own, answers);
    Ok(())
}

/// Joins crowds one after another.
fn crowd(alloc: Global, seed: u64, count: u64, answers: &mut Answers) -> Result<()> {
    let mut left = count;
    for number in 0..count {
        let lines = left.min(CROWDED);
        if lines == 0 {
            break;
        }
        left -= lines;
        crowd_one(alloc, seed, number, lines, answers)?;
    }
    Ok(())
}

/// Shows a capture as JSON, and a listing as lines.
fn show(alloc: Global, seed: u64, count: u64, answers: &mut Answers) -> Result<()> {
    let half = count / 2;
    let capture = traffic(alloc, CAPTURE, seed_of(seed, 0), half)?;
    let words = ["sms", "show", "deliver", "--lines", "--json"];
    run_on(alloc, &words, Form::ShownJson, capture, answers);
    let listing = traffic(alloc, LISTING, seed_of(seed, 1), half)?;
    let words = ["sms", "show", "any", "--sca", "--lines"];
    run_on(alloc, &words, Form::Shown, listing, answers);
    Ok(())
}

/// A script of so many lines at most.
fn script(alloc: Global, seed: u64, lines: u64) -> Result<Script> {
    let mut chance = Chance::new(seed);
    let texts = texts_of(alloc, &mut chance, 100)?;
    Ok(Script::new(chance, texts, lines))
}

/// Plays a script, plainly or as its number says.
fn play_one(
    alloc: Global,
    seed: u64,
    number: u64,
    lines: u64,
    answers: &mut Answers,
) -> Result<()> {
    let script = script(alloc, seed_of(seed, number), lines)?;
    let words = ["sms", "play", "--orderly", "--accepted", "--json"];
    match number % 3 {
        0 => run_on(alloc, &words[..2], Form::Played, script, answers),
        1 => run_on(alloc, &words[..4], Form::Played, script, answers),
        _ => run_on(alloc, &words, Form::PlayedJson, script, answers),
    }
    Ok(())
}

/// Plays scripts one after another.
fn play(alloc: Global, seed: u64, count: u64, answers: &mut Answers) -> Result<()> {
    let mut left = count;
    for number in 0..count {
        let lines = left.min(SCRIPT);
        if lines == 0 {
            break;
        }
        left -= lines;
        play_one(alloc, seed, number, lines, answers)?;
    }
    Ok(())
}

/// Plays a script in each way.
fn ways(alloc: Global, seed: u64, count: u64, answers: &mut Answers) -> Result<()> {
    for number in 0..3 {
        play_one(alloc, seed, number, count, answers)?;
    }
    Ok(())
}

/// Draws a script.
fn chart_one(alloc: Global, seed: u64, lines: u64, answers: &mut Answers) -> Result<()> {
    let script = script(alloc, seed, lines)?;
    run_on(alloc, &["sms", "chart"], Form::Drawn, script, answers);
    Ok(())
}

/// Draws scripts one after another.
fn chart(alloc: Global, seed: u64, count: u64, answers: &mut Answers) -> Result<()> {
    let mut left = count;
    for number in 0..count {
        let lines = left.min(DRAWN);
        if lines == 0 {
            break;
        }
        left -= lines;
        let own = seed.wrapping_add(number.wrapping_mul(1_000_003));
        chart_one(alloc, own, lines, answers)?;
    }
    Ok(())
}

/// Writes a campaign's units, and takes twice as many units.
fn texts(alloc: Global, seed: u64, count: u64, answers: &mut Answers) -> Result<()> {
    let mut chance = Chance::new(seed);
    let mut units = units_of(alloc, &mut chance, POOL)?;
    write(alloc, &mut chance, count, answers)?;
    take_units(alloc, &mut units, count.saturating_mul(2), answers)
}

/// Shows or joins letters, as objects or as lines.
fn letters_one(
    alloc: Global,
    seed: u64,
    number: u64,
    lines: u64,
    answers: &mut Answers,
) -> Result<()> {
    let own = traffic(alloc, LETTERS, seed_of(seed, number), lines)?;
    let shown = ["sms", "show", "deliver", "--lines", "--json"];
    let joined = ["sms", "join", "--verbose", "--json"];
    match number {
        0 => run_on(alloc, &shown, Form::ShownJson, own, answers),
        1 => run_on(alloc, &shown[..4], Form::Shown, own, answers),
        2 => run_on(alloc, &joined, Form::JoinedJson, own, answers),
        _ => run_on(alloc, &joined[..3], Form::Joined, own, answers),
    }
    Ok(())
}

/// Shows and joins letters, a quarter of the lines in each way.
fn letters(alloc: Global, seed: u64, count: u64, answers: &mut Answers) -> Result<()> {
    for number in 0..4 {
        letters_one(alloc, seed, number, count / 4, answers)?;
    }
    Ok(())
}

/// Joins a gateway's traffic, of which all is told.
fn gateway(alloc: Global, seed: u64, count: u64, answers: &mut Answers) -> Result<()> {
    let own = traffic(alloc, GATEWAY, seed_of(seed, 0), count)?;
    let words = [
        "sms",
        "join",
        "--open",
        "20000",
        "--remembered",
        "65536",
        "--verbose",
    ];
    run_on(alloc, &words, Form::Joined, own, answers);
    Ok(())
}

/// Runs a job, and gives its answers.
pub fn run(alloc: Global, name: &str, seed: u64, count: u64) -> Result<Answers> {
    let mut answers = Answers::new(alloc);
    let told = &mut answers;
    match name {
        "join" => join(alloc, seed, count, told)?,
        "crowd" => crowd(alloc, seed, count, told)?,
        "show" => show(alloc, seed, count, told)?,
        "play" => play(alloc, seed, count, told)?,
        "ways" => ways(alloc, seed, count, told)?,
        "chart" => chart(alloc, seed, count, told)?,
        "texts" => texts(alloc, seed, count, told)?,
        "letters" => letters(alloc, seed, count, told)?,
        "gateway" => gateway(alloc, seed, count, told)?,
        _ => bail!("no such job"),
    }
    Ok(answers)
}
