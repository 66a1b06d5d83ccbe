//! Runs a job that users wait for on an input that is made as it runs, and prints a digest of all
//! that the job answers, and how much of what came out.
#![tactic(auto)]

mod answers;
mod campaign;
mod chance;
mod counts;
mod date;
mod digest;
mod jobs;
mod letters;
mod lines;
mod pool;
mod scripts;
mod texts;
mod traffic;
mod units;

use anyhow::{Context, Result, bail};
use std::env;

/// What the words ask for: a job, the seed of its input, and how many units, lines or texts.
#[derive(Drop)]
struct Asked {
    name: String,
    seed: u64,
    count: u64,
}

/// The number that a word says.
fn number_in(word: Option<&String>) -> Result<u64> {
    let word = word.context("a number is missing")?;
    word.parse::<u64>().context("not a number")
}

/// What the words ask for.
fn words_of(rt: &HostRuntime) -> Result<Asked> {
    let words: Vec<String> = env::args(rt)?.collect(rt.alloc())?;
    let seed = number_in(words.get(2))?;
    let count = number_in(words.get(3))?;
    let Some(name) = words.get(1) else {
        bail!("a job is missing");
    };
    let name = name.clone()?;
    Ok(Asked { name, seed, count })
}

/// The jobs that are run one after another where all are asked for.
static JOBS: [&str; 8] = [
    "join", "crowd", "show", "ways", "chart", "texts", "letters", "gateway",
];

/// Runs a job, and prints what it answers.
fn tell(rt: &HostRuntime, name: &str, seed: u64, count: u64) -> Result<()> {
    let told = jobs::run(rt.alloc(), name, seed, count)?;
    println!(rt; "{name}: {told}")?;
    Ok(())
}

fn main(rt: HostRuntime) -> Result<()> {
    let Asked { name, seed, count } = words_of(&rt)?;
    if name.as_str() != "all" {
        return tell(&rt, name.as_str(), seed, count);
    }
    for job in JOBS {
        tell(&rt, job, seed, count)?;
    }
    Ok(())
}
