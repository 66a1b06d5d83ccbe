//! Units that are joined with a seed, which changes nothing that is written.

use crate::coming::Coming;
use crate::found::holds;
use crate::jumps::line_of;
use sms_command::command_with_seed;
use sms_trial::fed_with;
use std::alloc::Global;
use std::io::sink;
use std::process::Abort;
use std::test::Fail;

/// The seeds that are tried.
static SEEDS: [u128; 3] = [0, 0x0123_4567_89AB_CDEF_FEDC_BA98_7654_3210, u128::MAX];

/// Words by which some forty sets are open at a time, and a few are remembered.
static WORDS: [&str; 5] = ["sms", "join", "--verbose", "--open", "1000"];

/// The lines of an input: segments that come in a made order, an hour after one another.
fn made_lines(alloc: Global) -> Result<String, Fail> {
    let mut coming = Coming::new(7);
    let mut input = String::new(alloc);
    for hour in 0..720u64 {
        if let Some((reference, sequence)) = coming.next() {
            let moment = Some(hour.saturating_mul(3_600));
            input.push_str(&line_of(alloc, reference, sequence, moment)?)?;
        }
    }
    Ok(input)
}

/// The status and the whole output, with a seed.
fn fed_with_seed(alloc: Global, seed: u128, input: &str) -> Result<(u8, String), Fail> {
    let mut output = Vec::new(alloc);
    let seed = Some(seed);
    let mut octets = input.as_bytes();
    let words = WORDS.as_slice();
    let status = command_with_seed(alloc, words, seed, &mut octets, &mut output, &mut sink());
    Ok((status, String::from_utf8(output)?))
}

/// Whether a seed changes nothing that is written.
fn is_the_same(alloc: Global, seed: u128, input: &str) -> Result<bool, Fail> {
    let (wanted, lines) = fed_with(alloc, WORDS.as_slice(), input)?;
    let (status, output) = fed_with_seed(alloc, seed, input)?;
    Ok(status == wanted && output.as_str() == lines.as_str() && !output.is_empty())
}

#[test]
fn seeds_change_nothing_that_is_written(rt: HostRuntime) -> Result<(), Fail> {
    let input = made_lines(rt.alloc())?;
    for seed in &SEEDS {
        let same = is_the_same(rt.alloc(), *seed, &input)?;
        holds(&rt, &*seed, same);
    }
    drop(input);
    Ok(())
}
