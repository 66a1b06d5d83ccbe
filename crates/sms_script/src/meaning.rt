//! What a line of a script means.

mod command;
mod event;
mod known;
mod statement;

ghost use Rattle.std.specs.Prelude.{◌≡◌, IfOk};
ghost use Rattle.sms_script.specs.Reasons.{Gives, Says};
ghost use Rattle.sms_script.specs.Words.{left, words};
ghost use Rattle.sms_script.specs.Meaning.Commands.{command};
ghost use Rattle.sms_script.specs.Meaning.Memory.{ToName, IsTypedToName, IsOfName, TypesToName, TakesMemory};
ghost use Rattle.sms_script.specs.Meaning.{phone, new_name, new_address, limit, clock, switch, new_phone, typing, event_number, one_phone, injection, said, in_utf8, is_comment, said_by_words, meaning, Fits};

use crate::fault::{MeaningFault, ScriptFault};
use crate::meaning::command::command_of;
use crate::meaning::known::PHONE_LIMIT;
use crate::words::{
    address_of, can_be_phone, is_name, no_word, number_in, octets_of, one_word, two_words,
    two_words_and_text,
};
pub use command::Command;
pub use event::{Event, Text};
pub use known::Known;
use sms_field::{Address, END_OF_2099};
pub use statement::{Limit, Phone, Statement};
use std::alloc::Global;

/// The greatest number of ten digits.
const GREATEST_NUMBER: u64 = 9_999_999_999;

/// The last second at which a clock can stand.
const LAST_SECOND: u64 = END_OF_2099 - 1;

/// The phone of this name, counted from 0.
fn phone_named(known: &Known, word: &str) -> Result<usize, ScriptFault>
    ensures { Says (λ n. n) result (phone known.now word.now) }
{
    if !is_name(word) {
        return Err(ScriptFault::BadName);
    }
    known.phone_named(word).ok_or(ScriptFault::UnknownPhone)
}

/// A name that no phone has.
fn new_name<'a>(known: &Known, word: &'a str) -> Result<&'a str, ScriptFault>
    ensures { Says (λ n. n.now) result (new_name known.now word.entry.now) }
{
    if !is_name(word) {
        return Err(ScriptFault::BadName);
    }
    if known.has_name(word) {
        return Err(ScriptFault::NameTaken);
    }
    Ok(word)
}

/// The address of a phone, which no other phone has. Memory runs out for a name alone, which is no
/// phone's address.
fn new_address(alloc: Global, known: &Known, word: &str) -> Result<Address, ScriptFault>
    ensures { Says (λ a. a) result (new_address known.now word.now) }
{
    let Ok(address) = address_of(alloc, word) else {
        return Err(ScriptFault::BadAddress);
    };
    if !can_be_phone(&address) {
        return Err(ScriptFault::BadAddress);
    }
    if known.has_address(&address) {
        return Err(ScriptFault::AddressTaken);
    }
    Ok(address)
}

/// What `held`, `open`, `remembered` and `store` say.
fn limit_of(which: Limit, rest: Option<&str>) -> Result<Statement, ScriptFault>
    ensures { Says (λ s. s) result (limit which (left rest.entry)) }
{
    let n = number_in(1, which.greatest(), one_word(rest)?)?;
    Ok(Statement::Limit(which, n))
}

/// What `clock` says.
fn clock_of(rest: Option<&str>) -> Result<Statement, ScriptFault>
    ensures { Says (λ s. s) result (clock (left rest.entry)) }
{
    let n = number_in(0, LAST_SECOND, one_word(rest)?)?;
    Ok(Statement::Clock(n))
}

/// What `phone` says.
fn phone_of(alloc: Global, known: &Known, rest: Option<&str>) -> Result<Statement, MeaningFault>
    ensures { Gives (TakesMemory ⊥) (λ s. s) result (new_phone known.now (left rest.entry)) }
{
    let (name, address) = two_words(rest)?;
    let name = new_name(known, name)?;
    let address = new_address(alloc, known, address)?;
    if known.addresses().len() >= PHONE_LIMIT {
        return Err(MeaningFault::Script(ScriptFault::TooManyPhones));
    }
    let name = Text::copy(alloc, name)?;
    Ok(Statement::Phone(Phone { name, address }))
}

/// What `type` says.
fn text_of(alloc: Global, known: &Known, rest: Option<&str>) -> Result<Statement, MeaningFault>
    ensures { let words = left rest.entry in
        Gives (TakesMemory (ToName words)) (λ s. s) result (typing known.now words) }
{
    let (name, address, text) = two_words_and_text(rest)?;
    let phone = phone_named(known, name)?;
    let target = address_of(alloc, address)?;
    let text = Text::copy(alloc, text)?;
    Ok(Statement::Event(Event::Compose {
        phone,
        target,
        text,
    }))
}

/// The number of `carry` and `tick`.
fn number_of(rest: Option<&str>) -> Result<u64, ScriptFault>
    ensures { Says (λ n. n) result (event_number (left rest.entry)) }
{
    number_in(0, GREATEST_NUMBER, one_word(rest)?)
}

/// The phone of `timeout` and `push`.
fn one_phone(known: &Known, rest: Option<&str>) -> Result<usize, ScriptFault>
    ensures { Says (λ n. n) result (one_phone known.now (left rest.entry)) }
{
    phone_named(known, one_word(rest)?)
}

/// What `inject` says.
fn injection_of(
    alloc: Global,
    known: &Known,
    up: bool,
    rest: Option<&str>,
) -> Result<Statement, MeaningFault>
    ensures { Gives (TakesMemory ⊥) (λ s. s) result (injection known.now up (left rest.entry)) }
{
    let (name, word) = two_words(rest)?;
    let phone = phone_named(known, name)?;
    let octets = octets_of(alloc, word)?;
    Ok(Statement::Event(Event::Inject { up, phone, octets }))
}

/// What a setting says that is there or not.
fn switch_of(statement: Statement, rest: Option<&str>) -> Result<Statement, ScriptFault>
    ensures { Says (λ s. s) result (switch statement (left rest.entry)) }
{
    no_word(rest)?;
    Ok(statement)
}

/// What the words after a command say.
#[tactic(auto, unfolding(crate::specs::Meaning::said))]
fn statement_of(
    alloc: Global,
    known: &Known,
    command: Command,
    rest: Option<&str>,
) -> Result<Statement, MeaningFault>
    ensures { let words = left rest.entry in
        let may = TakesMemory (IsTypedToName command words) in
        Gives may (λ s. s) result (said known.now command words) }
{
    match command {
        Command::Held => Ok(limit_of(Limit::Held, rest)?),
        Command::Open => Ok(limit_of(Limit::Open, rest)?),
        Command::Remembered => Ok(limit_of(Limit::Remembered, rest)?),
        Command::Store => Ok(limit_of(Limit::Store, rest)?),
        Command::Clock => Ok(clock_of(rest)?),
        Command::Brief => Ok(switch_of(Statement::Brief, rest)?),
        Command::Wide => Ok(switch_of(Statement::Wide, rest)?),
        Command::Reject => Ok(switch_of(Statement::Reject, rest)?),
        Command::Phone => phone_of(alloc, known, rest),
        Command::Compose => text_of(alloc, known, rest),
        Command::Carry => Ok(Statement::Event(Event::Carry(number_of(rest)?))),
        Command::Timeout => Ok(Statement::Event(Event::Timeout(one_phone(known, rest)?))),
        Command::Push => Ok(Statement::Event(Event::Push(one_phone(known, rest)?))),
        Command::Tick => Ok(Statement::Event(Event::Tick(number_of(rest)?))),
        Command::Inject(up) => injection_of(alloc, known, up, rest),
    }
}

/// The text of a line.
fn text_in(line: &[u8]) -> Result<&str, ScriptFault>
    ensures { Says (λ t. t.now) result (in_utf8 line.now) }
{
    match str::from_utf8(line) {
        Ok(text) => Ok(text),
        Err(_) => Err(ScriptFault::NotUtf8),
    }
}

/// Whether a line is empty, or begins with `#`.
fn is_comment(line: &[u8]) -> bool
    ensures { result ≡ is_comment line.now }
{
    match line.first() {
        Some(first) => *first == b'#',
        None => true,
    }
}

/// What a line that is no comment says.
fn statement_in(alloc: Global, known: &Known, line: &str) -> Result<Statement, MeaningFault>
    ensures { let all = words line.now in
        let may = TakesMemory (IsOfName (command all)) in
        Gives may (λ s. s) result (said_by_words known.now all) }
{
    let (command, rest) = command_of(Some(line))?;
    if command.is_setting() && known.is_running() {
        return Err(MeaningFault::Script(ScriptFault::SettingAfterEvent));
    }
    statement_of(alloc, known, command, rest)
}

/// What a line means, after lines that told what is known. How long the line is and how many came
/// before it are not looked at here: `play` does that.
pub fn meaning_of(alloc: Global, known: &Known, line: &[u8]) -> Result<Statement, MeaningFault>
    ensures means { let may = TakesMemory (TypesToName line.now) in
        Gives may (λ s. s) result (meaning known.now line.now) }
    ensures fits { IfOk result (λ s. Fits known.now s) }
{
    let line = text_in(line)?;
    if is_comment(line.as_bytes()) {
        return Ok(Statement::Nothing);
    }
    statement_in(alloc, known, line)
}
