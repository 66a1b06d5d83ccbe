//! Packets that are carried again and again, and how a chart draws them; and its labels, beside
//! those that are written character by character.

use crate::found::holds;
use sms_trial::{Made, fed_with};
use std::alloc::Global;
use std::process::Abort;
use std::test::Fail;

/// How many packets there are at least before the first is carried.
const PACKETS: usize = 10;

/// What stands before the class of the line of a packet that arrives.
const ARROW: &str = "<g marker-end=\"url(#head)\"><line class=\"";

/// Phones, each of which types a text.
fn typed(alloc: Global) -> Result<String, Fail> {
    let mut script = String::new(alloc);
    for phone in 0..PACKETS {
        let line = format!(in alloc; "phone p{phone} +100{phone}\n")?;
        script.push_str(&line)?;
    }
    for phone in 0..PACKETS {
        let line = format!(in alloc; "type p{phone} +100{phone} text\n")?;
        script.push_str(&line)?;
    }
    Ok(script)
}

/// The places of packets that are carried one after another.
fn carried(alloc: Global, count: usize) -> Result<Vec<usize>, Fail> {
    let mut made = Made::new(5);
    let mut places = Vec::new(alloc);
    for _ in 0..count {
        places.push(made.below(PACKETS))?;
    }
    Ok(places)
}

/// A script in which these packets are carried.
fn script_of(alloc: Global, places: &[usize]) -> Result<String, Fail> {
    let mut script = typed(alloc)?;
    for place in places {
        let line = format!(in alloc; "carry {}\n", place.saturating_add(1))?;
        script.push_str(&line)?;
    }
    Ok(script)
}

/// Whether a packet arrived before.
fn came_before(places: &[usize], row: usize, packet: usize) -> bool {
    places.iter().take(row).any(|place| *place == packet)
}

#[test]
fn draws_a_packet_that_came_before(rt: HostRuntime) -> Result<(), Fail> {
    let places = carried(rt.alloc(), 300)?;
    let script = script_of(rt.alloc(), &places)?;
    let (status, chart) = fed_with(rt.alloc(), &["sms", "chart"], &script)?;
    holds(&rt, &"status", status == 0);
    let mut arrows = chart.split(ARROW);
    let _ = arrows.next();
    for (row, place) in places.iter().enumerate() {
        let is_again = arrows.next().unwrap_or("").starts_with("again\"");
        holds(&rt, &row, is_again == came_before(&places, row, *place));
    }
    holds(&rt, &"end", arrows.next().is_none());
    Ok(())
}

/// How many characters of a label stand beside a lifeline.
const LABEL_MAX: usize = 24;

/// How many characters of a line stand below the lifelines.
const LINE_MAX: usize = 110;

/// Characters of texts: some stand as others in XML, some have many octets.
static CHARACTERS: [char; 16] = [
    'a', 'b', 'z', '0', '~', '&', '<', '>', '"', '\'', 'é', '€', '\u{FFFD}', '\u{FFFE}',
    '\u{FFFF}', '😀',
];

/// Adds a character of a text in XML, which has none of the last two of the plane.
fn push_character(words: &mut String, character: char) -> Result<(), Fail> {
    match character {
        '&' => words.push_str("&amp;")?,
        '<' => words.push_str("&lt;")?,
        '>' => words.push_str("&gt;")?,
        '\u{FFFE}' | '\u{FFFF}' => words.push('\u{FFFD}')?,
        _ => words.push(character)?,
    }
    Ok(())
}

/// The front of a text in XML, as many characters as may stand there; a longer one ends in three
/// dots.
fn words_of(alloc: Global, text: &str, most: usize) -> Result<String, Fail> {
    let mut words = String::new(alloc);
    for (place, character) in text.chars().enumerate() {
        if place >= most {
            words.push('…')?;
            return Ok(words);
        }
        push_character(&mut words, character)?;
    }
    Ok(words)
}

/// A text of as many characters among the first ones.
fn text_of(alloc: Global, count: usize, among: usize, made: &mut Made) -> Result<String, Fail> {
    let mut text = String::new(alloc);
    for _ in 0..count {
        let character = CHARACTERS.get(made.below(among)).copied();
        text.push(character.unwrap_or('a'))?;
    }
    Ok(text)
}

/// What stands between the tags of the first text of a class after a place; empty where there is
/// none.
fn label_after<'a>(chart: &'a str, class: &str) -> (&'a str, &'a str) {
    let (_, rest) = chart.split_once(class).unwrap_or(("", ""));
    let (_, rest) = rest.split_once('>').unwrap_or(("", ""));
    rest.split_once("</text>").unwrap_or(("", ""))
}

/// What stands between the tags of the last line below the lifelines.
fn last_line<'a>(chart: &'a str) -> &'a str {
    let (_, last) = chart.rsplit_once("<text class=\"end\"").unwrap_or(("", ""));
    let (_, rest) = last.split_once('>').unwrap_or(("", ""));
    let (line, _) = rest.split_once("</text>").unwrap_or(("", ""));
    line
}

/// A script in which a text is typed and comes.
fn script_with(alloc: Global, text: &str) -> Result<String, Fail> {
    let mut script = format!(in alloc; "phone a +1\nphone b +2\ntype a +2 {text}\n")?;
    for packet in 1..24 {
        let lines = format!(in alloc; "carry {packet}\npush b\n")?;
        script.push_str(&lines)?;
    }
    Ok(script)
}

/// Whether a chart has what was asked first, and what came last, written character by character.
fn has_text(alloc: Global, chart: &str, text: &str) -> Result<bool, Fail> {
    let asked = format!(in alloc; "type a +2 {text}")?;
    let words = words_of(alloc, &asked, LABEL_MAX)?;
    let label = format!(in alloc; "1 {words}")?;
    let (found, _) = label_after(chart, "<text class=\"asked\"");
    let entry = format!(in alloc; "+1 {text}")?;
    let line = words_of(alloc, &entry, LINE_MAX)?;
    Ok(found == label.as_str() && last_line(chart) == line.as_str())
}

/// A text is drawn as it is written character by character.
fn is_drawn(rt: &impl Abort, alloc: Global, text: &str) -> Result<(), Fail> {
    let script = script_with(alloc, text)?;
    let (status, chart) = fed_with(alloc, &["sms", "chart"], &script)?;
    holds(rt, &text, status == 0 && has_text(alloc, &chart, text)?);
    Ok(())
}

/// Made texts of as many characters are drawn as they are written character by character.
fn count_is_drawn(
    rt: &impl Abort,
    alloc: Global,
    count: usize,
    made: &mut Made,
) -> Result<(), Fail> {
    for among in [3, 10, 16] {
        let text = text_of(alloc, count, among, made)?;
        is_drawn(rt, alloc, &text)?;
        drop(text);
    }
    Ok(())
}

#[test]
fn draws_texts_of_each_length(rt: HostRuntime) -> Result<(), Fail> {
    let mut made = Made::new(7);
    for count in 0..=20 {
        count_is_drawn(&rt, rt.alloc(), count, &mut made)?;
    }
    for count in 102..=112 {
        count_is_drawn(&rt, rt.alloc(), count, &mut made)?;
    }
    Ok(())
}

/// Whether the labels of a chart ask these in turn, written character by character.
fn are_asked(alloc: Global, chart: &str, asked: &[&str]) -> Result<bool, Fail> {
    let mut rest = chart;
    for (place, text) in asked.iter().enumerate() {
        let words = words_of(alloc, text, LABEL_MAX)?;
        let label = format!(in alloc; "{} {words}", place.saturating_add(1))?;
        let (found, after) = label_after(rest, "<text class=\"asked\"");
        if found != label.as_str() {
            return Ok(false);
        }
        rest = after;
    }
    Ok(true)
}

/// What a phone of a name does, and what is told of it, is drawn character by character.
fn name_is_drawn(rt: &impl Abort, alloc: Global, name: &str) -> Result<(), Fail> {
    let timeout = format!(in alloc; "timeout {name}")?;
    let push = format!(in alloc; "push {name}")?;
    let down = format!(in alloc; "inject down {name}")?;
    let script = format!(in alloc; "phone {name} +1\n{timeout}\n{push}\n{down} 0904\n")?;
    let (status, chart) = fed_with(alloc, &["sms", "chart"], &script)?;
    let asked = [timeout.as_str(), push.as_str(), down.as_str()];
    let (found, _) = label_after(&chart, "<text class=\"name\"");
    holds(rt, &name, status == 0 && found == name);
    holds(rt, &asked, are_asked(alloc, &chart, &asked)?);
    Ok(())
}

#[test]
fn draws_names_of_each_length(rt: HostRuntime) -> Result<(), Fail> {
    for length in 1..=16 {
        let name = "a".repeat(rt.alloc(), length)?;
        name_is_drawn(&rt, rt.alloc(), &name)?;
        drop(name);
    }
    Ok(())
}
