//! What was found among the words of a command line.

use crate::words::arguments::whole_command;
use crate::words::found_joined::joined_of;
use crate::words::{Played, Request};
use clap::error::ErrorKind;
use clap::{ArgMatches, Command, Error};
use sms_encode::{Draft, DraftKind};
use sms_national::Language;
use sms_show::{Alone, Kind, Sender, Shown, UnitKind};
use sms_split::{Languages, LongText};
use sms_told::Form;
use std::alloc::Global;
use std::convert::AsStr;

/// The kind that a word names.
fn kind_of(word: &str) -> Option<Kind> {
    match word {
        "deliver" => Some(Kind::Unit(UnitKind::Deliver)),
        "submit" => Some(Kind::Unit(UnitKind::Submit)),
        "submit-ack" => Some(Kind::Unit(UnitKind::SubmitAck)),
        "submit-error" => Some(Kind::Unit(UnitKind::SubmitError)),
        "deliver-ack" => Some(Kind::Unit(UnitKind::DeliverAck)),
        "deliver-error" => Some(Kind::Unit(UnitKind::DeliverError)),
        "any" => Some(Kind::Any),
        "status-report" => Some(Kind::Unit(UnitKind::StatusReport)),
        "command" => Some(Kind::Unit(UnitKind::Command)),
        "rp" => Some(Kind::Rp),
        "cp" => Some(Kind::Cp),
        "record" => Some(Kind::Record),
        "data" => Some(Kind::Data),
        _ => None,
    }
}

/// The kind of unit with a text that a word names.
fn draft_kind_of(word: &str) -> Option<DraftKind> {
    match word {
        "deliver" => Some(DraftKind::Deliver),
        "submit" => Some(DraftKind::Submit),
        _ => None,
    }
}

/// Who sent a unit, by a word.
fn sender_of(word: &str) -> Option<Sender> {
    match word {
        "centre" => Some(Sender::Centre),
        "phone" => Some(Sender::Phone),
        _ => None,
    }
}

/// How an answer is written.
pub fn form_found(found: &ArgMatches<'_>) -> Form {
    if found.get_flag("json") {
        Form::Json
    } else {
        Form::Plain
    }
}

/// What is told of user data alone.
fn alone_found<'a>(found: &ArgMatches<'a>) -> Alone<'a> {
    Alone {
        dcs: found.get_str("dcs"),
        has_header: found.get_flag("header"),
        are_singles: found.get_flag("septets"),
        length: found.get_one::<u8>("udl"),
    }
}

/// What is shown, or `None` where its kind is unknown.
fn shown_of<'a>(found: &ArgMatches<'a>) -> Option<Request<'a>> {
    Some(Request::Show(Shown {
        kind: kind_of(found.get_str("KIND")?)?,
        octets: found.get_str("HEX").unwrap_or(""),
        has_lines: found.get_flag("lines"),
        has_centre: found.get_flag("sca"),
        sender: found.get_str("from").and_then(sender_of),
        form: form_found(found),
        is_explained: found.get_flag("explain"),
        any: found.get_flag("any"),
        heeds_languages: found.get_flag("languages"),
        alone: alone_found(found),
    }))
}

/// What is encoded, or `None` where its kind is unknown.
fn draft_of<'a>(found: &ArgMatches<'a>) -> Option<Request<'a>> {
    Some(Request::Encode(Draft {
        kind: draft_kind_of(found.get_str("KIND")?)?,
        address: found.get_str("ADDRESS").unwrap_or(""),
        text: found.get_str("TEXT").unwrap_or(""),
        reference: found.get_one::<u8>("mr"),
        reject: found.get_flag("rd"),
        validity: found.get_one::<u8>("validity"),
        stamp: found.get_str("stamp"),
        report: found.get_flag("report"),
        is_split: found.get_flag("split"),
        is_wide: found.get_flag("wide"),
        concat_reference: found.get_one::<u16>("ref"),
        centre: found.get_str("sca"),
        is_for_modem: found.get_flag("modem"),
        is_explained: found.get_flag("explain"),
    }))
}

/// The national language tables that a word names.
fn languages_of(word: Option<&str>) -> Languages {
    match word {
        Some("turkish") => Languages::One(Language::Turkish),
        Some("spanish") => Languages::One(Language::Spanish),
        Some("portuguese") => Languages::One(Language::Portuguese),
        Some(_) => Languages::All,
        None => Languages::None,
    }
}

/// What is split.
fn long_text_of<'a>(found: &ArgMatches<'a>) -> Option<Request<'a>> {
    Some(Request::Split(LongText {
        text: found.get_str("TEXT").unwrap_or(""),
        wide: found.get_flag("wide"),
        reference: found.get_one::<u16>("ref").unwrap_or(0),
        form: form_found(found),
        languages: languages_of(found.get_str("language")),
        is_data: found.get_flag("data"),
        is_single: found.get_flag("septets"),
    }))
}

/// How a script is played.
fn played_of<'a>(found: &ArgMatches<'_>) -> Request<'a> {
    Request::Play(Played {
        form: form_found(found),
        is_checked: found.get_flag("check"),
        tells_order: found.get_flag("orderly"),
        tells_accepted: found.get_flag("accepted"),
    })
}

/// What the words of a subcommand ask for.
fn request_of<'a>(name: &str, found: &ArgMatches<'a>) -> Option<Request<'a>> {
    match name {
        "show" => shown_of(found),
        "encode" => draft_of(found),
        "split" => long_text_of(found),
        "join" => joined_of(found),
        "play" => Some(played_of(found)),
        "chart" => Some(Request::Chart),
        _ => None,
    }
}

/// What the subcommand that was found asks for.
fn found_request<'a>(matches: &ArgMatches<'a>) -> Option<Request<'a>> {
    let (name, found) = matches.subcommand()?;
    request_of(name, found)
}

/// What the words ask of a command.
fn asked_of<'a, S: AsStr>(command: &mut Command<'a>, words: &'a [S]) -> Result<Request<'a>, Error> {
    let matches = command.try_get_matches_from_mut(words)?;
    match found_request(&matches) {
        Some(request) => Ok(request),
        None => Err(command.error(ErrorKind::InvalidSubcommand, "unknown subcommand or kind")?),
    }
}

/// What the words ask for, the program's name first.
pub fn parse_words<'a, S: AsStr>(alloc: Global, words: &'a [S]) -> Result<Request<'a>, Error> {
    let mut command = whole_command(alloc, words)?;
    asked_of(&mut command, words)
}
