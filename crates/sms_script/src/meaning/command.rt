//! The first words of lines.

ghost use Rattle.std.specs.Prelude.{◌≡◌, ◌∷◌, ℕ, List, Ok, Err, MatchOption, codes, if◌then◌else◌};
ghost use Rattle.std.specs.Str.{bytes_eq};
ghost use Rattle.sms_script.specs.Reasons.{Says};
ghost use Rattle.sms_script.specs.Words.{left};
ghost use Rattle.sms_script.specs.Meaning.Commands.{command, direction, is_setting};
ghost use Rattle.sms_script.specs.declared.fault.ScriptFault.TheVariants.{UnknownCommand};

use crate::fault::ScriptFault;
use crate::words::next_word;

/// The first word of a line, and of `inject` the second.
#[derive(Clone, Copy, Debug, PartialEq, Eq)]
pub enum Command {
    Held,
    Open,
    Remembered,
    Store,
    Clock,
    Brief,
    Wide,
    Reject,
    Phone,
    Compose,
    Carry,
    Timeout,
    Push,
    Tick,
    /// Up to the centre, or down to the phone.
    Inject(bool),
}

/// The direction of `inject`, and what is left after it.
fn direction_of<'a>(line: Option<&'a str>) -> Result<(Command, Option<&'a str>), ScriptFault>
    ensures { Says (λ x. (x.0, left x.1)) result (direction (left line.entry)) }
{
    let Some((word, rest)) = next_word(line) else {
        return Err(ScriptFault::UnknownCommand);
    };
    match word {
        "up" => Ok((Command::Inject(true), rest)),
        "down" => Ok((Command::Inject(false), rest)),
        _ => Err(ScriptFault::UnknownCommand),
    }
}

/// The command that a word is by itself. Those that most lines begin with are compared first.
fn command_named(word: &str) -> Option<Command>
    ensures { (more : List (List ℕ)) → MatchOption result
        (command (word.now ∷ more)
        ≡ (if bytes_eq word.now (codes "inject") then direction more else Err UnknownCommand))
        (λ c. command (word.now ∷ more) ≡ Ok (c, more)) }
{
    match word {
        "type" => Some(Command::Compose),
        "carry" => Some(Command::Carry),
        "push" => Some(Command::Push),
        "timeout" => Some(Command::Timeout),
        "tick" => Some(Command::Tick),
        "phone" => Some(Command::Phone),
        "held" => Some(Command::Held),
        "open" => Some(Command::Open),
        "remembered" => Some(Command::Remembered),
        "store" => Some(Command::Store),
        "clock" => Some(Command::Clock),
        "brief" => Some(Command::Brief),
        "wide" => Some(Command::Wide),
        "reject" => Some(Command::Reject),
        _ => None,
    }
}

/// The command of a line, and what is left after it.
pub fn command_of<'a>(line: Option<&'a str>) -> Result<(Command, Option<&'a str>), ScriptFault>
    ensures { Says (λ x. (x.0, left x.1)) result (command (left line.entry)) }
{
    let Some((word, rest)) = next_word(line) else {
        return Err(ScriptFault::UnknownCommand);
    };
    match command_named(word) {
        Some(command) => Ok((command, rest)),
        None if word == "inject" => direction_of(rest),
        None => Err(ScriptFault::UnknownCommand),
    }
}

impl Command {
    /// Whether it stands before the first event.
    pub fn is_setting(self) -> bool
        ensures { result ≡ is_setting self }
    {
        match self {
            Command::Compose | Command::Carry | Command::Timeout | Command::Push => false,
            Command::Tick | Command::Inject(_) => false,
            _ => true,
        }
    }
}
