//! What was found among the words of `join`.

use crate::piece::Pieces;
use crate::words::found::form_found;
use crate::words::{Carried, Joined, Request, StateFile};
use clap::ArgMatches;

/// After how many lines a state is written each time, unless it is told.
const OFTEN: u64 = 10_000;

/// What a line with user data alone has; none where the options say two things.
fn data_carried(found: &ArgMatches<'_>) -> Option<Carried> {
    if found.get_flag("sca") || found.get_flag("record") {
        return None;
    }
    Some(if found.get_flag("septets") {
        Carried::Septets
    } else {
        Carried::Data
    })
}

/// What a line has that is joined; none where the options say two things.
fn carried_of(found: &ArgMatches<'_>) -> Option<Carried> {
    if found.get_flag("data") {
        return data_carried(found);
    }
    match (
        found.get_flag("sca"),
        found.get_flag("record"),
        found.get_flag("septets"),
    ) {
        (false, false, false) => Some(Carried::Unit),
        (true, false, false) => Some(Carried::Centre),
        (false, true, false) => Some(Carried::Record),
        _ => None,
    }
}

/// What becomes of texts in one piece, by a word.
fn alone_of(word: Option<&str>) -> sms_join::Alone {
    match word {
        Some("pass") => sms_join::Alone::Passed,
        _ => sms_join::Alone::Remembered,
    }
}

/// How lines have their pieces; none where the options say two things, or `every` alone.
fn pieces_of(found: &ArgMatches<'_>) -> Option<Pieces> {
    if found.get_one::<u64>("every").is_some() && found.get_str("state").is_none() {
        return None;
    }
    let carried = carried_of(found)?;
    Some(Pieces {
        carried,
        heeds_languages: found.get_flag("languages"),
    })
}

/// Where what a joiner holds is kept, if it is.
fn state_of<'a>(found: &ArgMatches<'a>) -> Option<StateFile<'a>> {
    let path = found.get_str("state")?;
    Some(StateFile {
        path,
        every: found.get_one::<u64>("every").unwrap_or(OFTEN),
    })
}

/// How units are joined.
pub fn joined_of<'a>(found: &ArgMatches<'a>) -> Option<Request<'a>> {
    Some(Request::Join(Joined {
        pieces: pieces_of(found),
        has_recipients: found.get_flag("to"),
        open: found.get_one::<usize>("open").unwrap_or(16),
        remembered: found.get_one::<usize>("remembered").unwrap_or(32),
        remember_for: found.get_one::<u64>("remember-for"),
        alone: alone_of(found.get_str("alone")),
        form: form_found(found),
        is_verbose: found.get_flag("verbose"),
        state: state_of(found),
    }))
}
