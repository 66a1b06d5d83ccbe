//! The words of a command line, as `clap` takes them.

use crate::words::subcommands::SUBCOMMANDS;
use clap::builder::ValueParser;
use clap::{Arg, ArgAction, Command, value_parser};
use std::alloc::{AllocError, Global};
use std::convert::AsStr;

/// The program's version.
const VERSION: &str = "0.1";

/// The greatest number of texts that are open or remembered.
const COUNT_MAX: u64 = 1_000_000;

/// What a word of a subcommand may be.
#[derive(Clone, Copy)]
pub enum WordForm {
    /// One of these, which is wanted.
    Kind(&'static [&'static str]),
    /// Any word, which is wanted.
    Word,
    /// Any word, which is wanted unless this option is given, and then not.
    WordUnless(&'static str),
    /// An option with one of these.
    Choice(&'static [&'static str]),
    /// An option without a value.
    Flag,
    /// An option with a value of this name.
    Value(&'static str),
    /// An option with an octet.
    Octet,
    /// An option with a concatenation reference.
    Reference,
    /// An option with a number from 1 on.
    Count,
    /// An option with a number from 1 on, which has this name and may be as great as can be.
    Number(&'static str),
}

/// A word of a subcommand, or an option with its hyphens left out.
pub struct Word {
    pub name: &'static str,
    pub form: WordForm,
    pub help: &'static str,
}

/// A subcommand.
pub struct Subcommand {
    pub name: &'static str,
    pub about: &'static str,
    pub words: &'static [Word],
    /// What stands below its help.
    pub example: Option<&'static str>,
}

/// A word of a subcommand, as `clap` takes it.
fn arg_of<'a>(alloc: Global, word: &Word) -> Result<Arg<'a>, AllocError> {
    let arg = Arg::new(alloc, word.name).help(word.help);
    if let WordForm::WordUnless(option) = word.form {
        return arg.required_unless_present(option)?.conflicts_with(option);
    }
    Ok(form_of(arg, word))
}

/// A word with the form that it may have.
fn form_of<'a>(arg: Arg<'a>, word: &Word) -> Arg<'a> {
    match word.form {
        WordForm::Kind(kinds) => arg.required(true).value_parser(kinds),
        WordForm::Word => arg.required(true),
        WordForm::WordUnless(_) => arg,
        WordForm::Choice(words) => arg.long(word.name).value_parser(words),
        WordForm::Flag => arg.long(word.name).action(ArgAction::SetTrue),
        WordForm::Value(value) => arg.long(word.name).value_name(value),
        WordForm::Octet => arg
            .long(word.name)
            .value_name("N")
            .value_parser(value_parser!(u8)),
        WordForm::Reference => arg
            .long(word.name)
            .value_name("N")
            .value_parser(value_parser!(u16)),
        WordForm::Count => arg
            .long(word.name)
            .value_name("N")
            .value_parser(ValueParser::unsigned(1, COUNT_MAX)),
        WordForm::Number(value) => arg
            .long(word.name)
            .value_name(value)
            .value_parser(ValueParser::unsigned(1, u64::MAX)),
    }
}

/// A subcommand, with its words where it is named.
fn subcommand_of<'a>(
    alloc: Global,
    sub: &Subcommand,
    is_named: bool,
) -> Result<Command<'a>, AllocError> {
    let mut command = Command::new(alloc, sub.name).about(sub.about);
    if !is_named {
        return Ok(command);
    }
    if let Some(example) = sub.example {
        command = command.after_help(example);
    }
    for word in sub.words {
        command = command.arg(arg_of(alloc, word)?)?;
    }
    Ok(command)
}

/// Whether a word is the name of a subcommand.
fn is_named<S: AsStr>(words: &[S], sub: &Subcommand) -> bool {
    words.iter().any(|word| word.as_str() == sub.name)
}

/// The command with its subcommands. Those that no word names have no words of their own, which
/// nothing would ask for.
pub fn whole_command<'a, S: AsStr>(alloc: Global, words: &[S]) -> Result<Command<'a>, AllocError> {
    let mut command = Command::new(alloc, "sms")
        .about("Reads and writes short messages")
        .version(VERSION)
        .subcommand_required(true);
    for sub in SUBCOMMANDS.as_slice() {
        let named = is_named(words, sub);
        command = command.subcommand(subcommand_of(alloc, sub, named)?)?;
    }
    Ok(command)
}
