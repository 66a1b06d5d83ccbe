//! What lines say after others, and the first reason for which they say nothing.

use crate::found::{holds, same};
use sms_field::Address;
use sms_script::{Event, Limits, PlayFault, Script, ScriptFault};
use std::alloc::{AllocError, Global};
use std::process::Abort;
use std::test::Fail;

/// A line that is at fault. Where two reasons apply, the one that counts.
#[derive(Clone, Copy)]
struct Faulty {
    line: &'static [u8],
    why: ScriptFault,
}

/// After the phones `a` and `b`, before the first event.
static FAULTS: [Faulty; 38] = [
    Faulty {
        line: b"\xFF",
        why: ScriptFault::NotUtf8,
    },
    Faulty {
        line: b"# \xC3",
        why: ScriptFault::NotUtf8,
    },
    Faulty {
        line: b" carry 1",
        why: ScriptFault::UnknownCommand,
    },
    Faulty {
        line: b"Carry x",
        why: ScriptFault::UnknownCommand,
    },
    Faulty {
        line: b"\xEF\xBB\xBF# mark",
        why: ScriptFault::UnknownCommand,
    },
    Faulty {
        line: b"inject",
        why: ScriptFault::UnknownCommand,
    },
    Faulty {
        line: b"inject ",
        why: ScriptFault::UnknownCommand,
    },
    Faulty {
        line: b"inject over zz 0",
        why: ScriptFault::UnknownCommand,
    },
    Faulty {
        line: b"inject up",
        why: ScriptFault::BadWords,
    },
    Faulty {
        line: b"held",
        why: ScriptFault::BadWords,
    },
    Faulty {
        line: b"held x 2",
        why: ScriptFault::BadWords,
    },
    Faulty {
        line: b"brief ",
        why: ScriptFault::BadWords,
    },
    Faulty {
        line: b"wide 1",
        why: ScriptFault::BadWords,
    },
    Faulty {
        line: b"reject yes",
        why: ScriptFault::BadWords,
    },
    Faulty {
        line: b"phone A",
        why: ScriptFault::BadWords,
    },
    Faulty {
        line: b"type zz",
        why: ScriptFault::BadWords,
    },
    Faulty {
        line: b"tick 5 ",
        why: ScriptFault::BadWords,
    },
    Faulty {
        line: b"held 0",
        why: ScriptFault::BadNumber,
    },
    Faulty {
        line: b"held 1001",
        why: ScriptFault::BadNumber,
    },
    Faulty {
        line: b"open 17",
        why: ScriptFault::BadNumber,
    },
    Faulty {
        line: b"remembered 33",
        why: ScriptFault::BadNumber,
    },
    Faulty {
        line: b"store 501",
        why: ScriptFault::BadNumber,
    },
    Faulty {
        line: b"clock 3155760000",
        why: ScriptFault::BadNumber,
    },
    Faulty {
        line: b"carry 00000000001",
        why: ScriptFault::BadNumber,
    },
    Faulty {
        line: b"carry 1\r",
        why: ScriptFault::BadNumber,
    },
    Faulty {
        line: b"tick +1",
        why: ScriptFault::BadNumber,
    },
    Faulty {
        line: b"phone 1a +12x",
        why: ScriptFault::BadName,
    },
    Faulty {
        line: b"phone aaaaaaaaaaaaaaaaa +1003",
        why: ScriptFault::BadName,
    },
    Faulty {
        line: b"push centre",
        why: ScriptFault::BadName,
    },
    Faulty {
        line: b"phone c +",
        why: ScriptFault::BadAddress,
    },
    Faulty {
        line: b"phone c abcd",
        why: ScriptFault::BadAddress,
    },
    Faulty {
        line: b"type a +12x hi",
        why: ScriptFault::BadAddress,
    },
    Faulty {
        line: b"inject up a 0",
        why: ScriptFault::BadHex,
    },
    Faulty {
        line: b"inject down a 0x00",
        why: ScriptFault::BadHex,
    },
    Faulty {
        line: b"type zz +12x hi",
        why: ScriptFault::UnknownPhone,
    },
    Faulty {
        line: b"inject up zz 0",
        why: ScriptFault::UnknownPhone,
    },
    Faulty {
        line: b"phone a +12x",
        why: ScriptFault::NameTaken,
    },
    Faulty {
        line: b"phone c +1001",
        why: ScriptFault::AddressTaken,
    },
];

/// After an event.
static FAULTS_AFTER_AN_EVENT: [Faulty; 4] = [
    Faulty {
        line: b"held x",
        why: ScriptFault::SettingAfterEvent,
    },
    Faulty {
        line: b"wide 1",
        why: ScriptFault::SettingAfterEvent,
    },
    Faulty {
        line: b"phone A",
        why: ScriptFault::SettingAfterEvent,
    },
    Faulty {
        line: b"Held 1",
        why: ScriptFault::UnknownCommand,
    },
];

/// Takes the next line of a short script.
fn take(alloc: Global, script: &mut Script, line: &[u8]) -> Result<Option<Event>, PlayFault> {
    if script.lines() > 1000 {
        return Ok(None);
    }
    script.take(alloc, line)
}

/// What lines have said.
fn script_of(alloc: Global, lines: &[&[u8]]) -> Result<Script, PlayFault> {
    let mut script = Script::new(alloc);
    for line in lines {
        take(alloc, &mut script, line)?;
    }
    Ok(script)
}

/// Why a line says nothing after others.
fn fault_of(alloc: Global, before: &[&[u8]], line: &[u8]) -> Option<PlayFault> {
    match script_of(alloc, before) {
        Ok(mut script) => take(alloc, &mut script, line).err(),
        Err(fault) => Some(fault),
    }
}

/// A line as a text, where it is one.
fn text_of(line: &[u8]) -> &str {
    match str::from_utf8(line) {
        Ok(text) => text,
        Err(_) => "a line that is no UTF-8",
    }
}

/// The line of a row is at fault as the row says, as the line of this number.
fn is_at_fault(rt: &impl Abort, row: &Faulty, found: Option<PlayFault>, line: u64) {
    let why = row.why;
    let good = found == Some(PlayFault::Script { line, why });
    holds(rt, &text_of(row.line), good);
}

#[test]
fn first_reasons_count(rt: HostRuntime) {
    let phones: [&[u8]; 2] = [b"phone a +1001", b"phone b +1002"];
    for row in FAULTS.iter() {
        let found = fault_of(rt.alloc(), &phones, row.line);
        is_at_fault(&rt, row, found, 3);
    }
}

#[test]
fn first_reasons_count_after_an_event(rt: HostRuntime) {
    for row in FAULTS_AFTER_AN_EVENT.iter() {
        let found = fault_of(rt.alloc(), &[b"carry 1"], row.line);
        is_at_fault(&rt, row, found, 2);
    }
}

/// The line of a phone.
fn phone_line(alloc: Global, n: u32) -> Result<String, AllocError> {
    format!(in alloc; "phone p{n} {n}")
}

/// Takes the line of a phone.
fn take_phone(alloc: Global, script: &mut Script, n: u32) -> Result<(), PlayFault> {
    let line = phone_line(alloc, n)?;
    take(alloc, script, line.as_bytes())?;
    Ok(())
}

/// A script of as many phones.
fn script_of_phones(alloc: Global, count: u32) -> Result<Script, PlayFault> {
    let mut script = Script::new(alloc);
    for n in 0..count {
        take_phone(alloc, &mut script, n)?;
    }
    Ok(script)
}

/// After a hundred phones.
static FAULTS_AFTER_A_HUNDRED_PHONES: [Faulty; 2] = [
    Faulty {
        line: b"phone p100 100",
        why: ScriptFault::TooManyPhones,
    },
    Faulty {
        line: b"phone p7 100",
        why: ScriptFault::NameTaken,
    },
];

#[test]
fn hundred_phones_and_one(rt: HostRuntime) -> Result<(), Fail> {
    let mut script = script_of_phones(rt.alloc(), 100)?;
    for row in FAULTS_AFTER_A_HUNDRED_PHONES.iter() {
        let found = take(rt.alloc(), &mut script, row.line).err();
        is_at_fault(&rt, row, found, 101);
    }
    Ok(())
}

/// A line, and the event that it is.
#[derive(Clone, Copy)]
struct Written {
    line: &'static str,
    event: &'static str,
}

/// After the phones `a` and `b`.
static EVENTS: [Written; 14] = [
    Written {
        line: "type b  hi \r",
        event: "type 1 [] [hi \r]",
    },
    Written {
        line: "type a +1002",
        event: "type 0 [+1002] []",
    },
    Written {
        line: "type a +1002 ",
        event: "type 0 [+1002] []",
    },
    Written {
        line: "type a abcd a  b\\n",
        event: "type 0 [abcd] [a  b\\n]",
    },
    Written {
        line: "carry 0",
        event: "carry 0",
    },
    Written {
        line: "carry 0000000007",
        event: "carry 7",
    },
    Written {
        line: "timeout a",
        event: "timeout 0",
    },
    Written {
        line: "push b",
        event: "push 1",
    },
    Written {
        line: "tick 9999999999",
        event: "tick 9999999999",
    },
    Written {
        line: "inject up b 0aFF",
        event: "inject true 1 [0AFF]",
    },
    Written {
        line: "inject down a ",
        event: "inject false 0 []",
    },
    Written {
        line: "inject down a -",
        event: "inject false 0 []",
    },
    Written {
        line: "# push b",
        event: "none",
    },
    Written {
        line: "",
        event: "none",
    },
];

/// What is typed, in words.
fn typed(alloc: Global, phone: usize, target: &Address, text: &str) -> Result<String, AllocError> {
    let target = target.to_text(alloc)?;
    format!(in alloc; "type {phone} [{target}] [{text}]")
}

/// What is injected, in words.
fn injected(alloc: Global, up: bool, phone: usize, octets: &[u8]) -> Result<String, AllocError> {
    let octets = hex::encode_upper(alloc, octets)?;
    format!(in alloc; "inject {up} {phone} [{octets}]")
}

/// An event of one number, in words.
fn numbered(alloc: Global, name: &str, number: u64) -> Result<String, AllocError> {
    format!(in alloc; "{name} {number}")
}

/// An event in words.
fn shown(alloc: Global, event: &Event) -> Result<String, AllocError> {
    match event {
        Event::Compose {
            phone,
            target,
            text,
        } => typed(alloc, *phone, target, text.as_str()),
        Event::Carry(number) => numbered(alloc, "carry", *number),
        Event::Timeout(phone) => numbered(alloc, "timeout", *phone as u64),
        Event::Push(phone) => numbered(alloc, "push", *phone as u64),
        Event::Tick(seconds) => numbered(alloc, "tick", *seconds),
        Event::Inject { up, phone, octets } => injected(alloc, *up, *phone, octets.as_slice()),
    }
}

/// What a line was taken for, in words.
fn answer_shown(
    alloc: Global,
    answer: &Result<Option<Event>, PlayFault>,
) -> Result<String, AllocError> {
    match answer {
        Ok(Some(event)) => shown(alloc, event),
        Ok(None) => "none".to_string(alloc),
        Err(fault) => fault.to_string(alloc),
    }
}

/// What a line is taken for after the phones `a` and `b`.
fn answer_to(alloc: Global, line: &[u8]) -> Result<Option<Event>, PlayFault> {
    let phones: [&[u8]; 2] = [b"phone a +1001", b"phone b +1002"];
    let mut script = script_of(alloc, &phones)?;
    take(alloc, &mut script, line)
}

/// An event in words is what a row wants.
fn is_event(rt: &impl Abort, row: &Written, found: &str) {
    same(rt, &row.line, &found, &row.event);
}

#[test]
fn events_as_written(rt: HostRuntime) -> Result<(), Fail> {
    for row in EVENTS.iter() {
        let answer = answer_to(rt.alloc(), row.line.as_bytes());
        let event = answer_shown(rt.alloc(), &answer)?;
        is_event(&rt, row, &event);
    }
    Ok(())
}

static SETTINGS: [&[u8]; 12] = [
    b"held 9",
    b"held 1000",
    b"open 1",
    b"remembered 2",
    b"store 3",
    b"clock 3155759999",
    b"brief",
    b"wide",
    b"reject",
    b"phone a +1001",
    b"phone b 1001",
    b"",
];

/// Whether the settings have said what they say.
fn is_set(script: &Script) -> bool {
    let limits = Limits {
        held: 1000,
        open_max: 1,
        remembered: 2,
        store: 3,
        wide: true,
        reject: true,
    };
    script.limits() == limits
        && script.clock() == Some(3_155_759_999)
        && script.is_brief()
        && script.lines() == 12
        && script.addresses().len() == 2
        && script.name(1) == "b"
}

#[test]
fn settings_as_written(rt: HostRuntime) -> Result<(), Fail> {
    let script = script_of(rt.alloc(), &SETTINGS)?;
    holds(&rt, &"settings", is_set(&script));
    Ok(())
}
