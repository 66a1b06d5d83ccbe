//! A campaign: texts that are cut and written as SMS-SUBMIT by the calls of the library.

ghost use Rattle.std.specs.Prelude.{◌≡◌, IfOk, All};
ghost use Rattle.sms_join.specs.Segments.User.{IsSendable};
ghost use Rattle.sms_tpdu.specs.declared.user_data.concat.Width.TheVariants.{Eight};

use crate::answers::Answers;
use crate::chance::Chance;
use crate::counts::add_one;
use crate::texts::{long_text, short_text};
use anyhow::Result;
use sms_field::{Address, Validity};
use sms_join::{SegmentView, Segments, cut_text};
use sms_tpdu::{SubmitFront, Width};
use std::alloc::Global;

/// The octets of the SMS-SUBMIT of a segment.
fn written(alloc: Global, segment: &SegmentView<'_>, target: Address, number: u8) -> Result<Vec<u8>>
    requires { IsSendable Eight segment.now }
{
    let front = SubmitFront {
        reject: false,
        validity: Validity::Relative(0xAA),
        report: true,
        reply: false,
        reference: number,
        target,
        pid: 0,
        dcs: segment.coding_scheme(),
    };
    Ok(segment.write_submit(alloc, &front, Width::Eight, u16::from(number))?)
}

/// Writes the segments of a text to one target.
fn write_segments(
    alloc: Global,
    segments: &Segments,
    target: &Address,
    number: u8,
    answers: &mut Answers,
) -> Result<()>
    requires { All (IsSendable Eight) segments.now }
{
    for place in 0..segments.len() {
        if let Some(segment) = segments.get(place) {
            let octets = written(alloc, &segment, target.copy(alloc)?, number)?;
            add_one(&mut answers.counts.written);
            answers.digest.take(&octets);
        }
    }
    Ok(())
}

/// Writes a text to one target.
fn write_text(
    alloc: Global,
    text: &str,
    target: &str,
    number: u8,
    answers: &mut Answers,
) -> Result<()> {
    let segments = cut_text(alloc, text, Width::Eight)?;
    let target = Address::from_text(alloc, target)?;
    write_segments(alloc, &segments, &target, number, answers)
}

/// A text for each of a campaign's many targets: one of four is long.
fn text_for(alloc: Global, chance: &mut Chance, number: u64) -> Result<String> {
    let text = if number % 4 == 0 {
        long_text(alloc, chance)?
    } else {
        short_text(alloc, chance)?
    };
    Ok(text)
}

/// Some texts.
fn texts_of(alloc: Global, chance: &mut Chance) -> Result<Vec<String>> {
    let mut texts = Vec::new(alloc);
    for number in 0..256 {
        texts.push(text_for(alloc, chance, number)?)?;
    }
    Ok(texts)
}

/// Cuts and writes so many texts, each to a target of its own and with its number in front.
pub fn write(alloc: Global, chance: &mut Chance, count: u64, answers: &mut Answers) -> Result<()> {
    let texts = texts_of(alloc, chance)?;
    let mut text = String::new(alloc);
    let mut target = String::new(alloc);
    for number in 0..count {
        text.clear();
        target.clear();
        write!(text, "{number}: ")?;
        write!(target, "+4670{number:07}")?;
        if let Some(rest) = texts.get((number % 256) as usize) {
            text.push_str(rest.as_str())?;
        }
        write_text(
            alloc,
            text.as_str(),
            target.as_str(),
            (number % 256) as u8,
            answers,
        )?;
    }
    Ok(())
}
