//! Answers, in lines and as lines of JSON.

use sms_answer::{
    Answer, Escaped, Hexadecimal, Layer, Line, Lines, Members, Number, Octet, Printed,
};
use sms_page::{Page, PageFault};
use sms_told::Form;
use std::alloc::Global;
use std::test::Fail;

/// A pair of numbers; in JSON a list of an object of them, of nothing, and of a text.
#[derive(Clone, Copy)]
struct Pair(u8, u8);

impl Printed for Pair {
    fn plain(&self, line: &mut Line) {
        line.put_decimal(u64::from(self.0));
        line.put_one(b' ');
        line.put_octet(self.1);
        line.put(b" of two");
    }

    fn json(&self, members: &mut Members) {
        members.open_list();
        members.open();
        members.number_named("first", u64::from(self.0));
        members.octets_named("second", &[self.1]);
        members.close();
        members.nothing();
        members.plain_text(b"two");
        members.close_list();
    }
}

/// Puts a member of each kind of value, of which two lie in another layer.
pub fn put_members(lines: &mut Lines) {
    lines.begin(Layer::Relay);
    lines.put_word("type", "deliver");
    lines.put("more", Answer(true));
    lines.enter(Layer::Unit);
    lines.put("octet", Octet(0x0a));
    lines.put_plain("plain", Number(1));
    lines.put_json("json", Number(2));
    lines.put("octets", Hexadecimal(b"\x0a\xff"));
    lines.put("none", Hexadecimal(b""));
    lines.enter(Layer::Data);
    lines.put("pair", Pair(10, 11));
    lines.put("text", Escaped("a\n\\\u{e9}"));
    lines.put_rest(0);
    lines.put_rest(3);
}

/// What is put of the members in lines.
pub const PLAIN: &[u8] = b"type: deliver\nmore: yes\noctet: 0A\nplain: 1\noctets: 0AFF\nnone: -\n\
pair: 10 0B of two\ntext: a\\n\\\\\xc3\xa9\nrest: 3\n";

/// What is put of them in JSON, behind its beginning.
pub const JSON: &[u8] = b"\"type\":\"deliver\",\"more\":true,\"unit\":{\"octet\":10,\"json\":2,\
\"octets\":\"0AFF\",\"none\":\"\",\"data\":{\"pair\":[{\"first\":10,\"second\":\"0B\"},null,\"two\"],\
\"text\":\"a\\n\\\\\xc3\xa9\",\"rest\":3}}}\n";

/// The octets of an answer behind those of another one.
pub fn answer(alloc: Global, form: Form, number: Option<u64>) -> Result<Vec<u8>, PageFault> {
    let mut page = Page::new(alloc);
    page.put(b"before\n");
    let mut lines = match number {
        Some(number) => Lines::numbered(form, page, number),
        None => Lines::new(form, page),
    };
    put_members(&mut lines);
    lines.finish().into_octets()
}

/// Whether octets are these parts, one behind another.
pub fn are_parts(octets: &[u8], parts: &[&[u8]]) -> bool {
    let mut rest = octets;
    for part in parts {
        match rest.strip_prefix(*part) {
            Some(behind) => rest = behind,
            None => return false,
        }
    }
    rest.is_empty()
}

#[test]
fn answers_stand_behind_what_stood_there(rt: HostRuntime) -> Result<(), Fail> {
    let plain = answer(rt.alloc(), Form::Plain, None).map_err(|_| "memory")?;
    assert!(rt; are_parts(&plain, &[b"before\n", PLAIN]));
    let numbered = answer(rt.alloc(), Form::Plain, Some(7)).map_err(|_| "memory")?;
    assert!(rt; are_parts(&numbered, &[b"before\n", PLAIN]));
    let json = answer(rt.alloc(), Form::Json, None).map_err(|_| "memory")?;
    assert!(rt; are_parts(&json, &[b"before\n{", JSON]));
    let numbered = answer(rt.alloc(), Form::Json, Some(12)).map_err(|_| "memory")?;
    assert!(rt; are_parts(&numbered, &[b"before\n{\"line\":12,", JSON]));
    Ok(())
}

#[test]
fn an_answer_of_nothing_is_a_line_in_json(rt: HostRuntime) -> Result<(), Fail> {
    let page = Lines::new(Form::Plain, Page::new(rt.alloc())).finish();
    assert_eq!(rt; page.count(), 0);
    let lines = Lines::numbered(Form::Json, Page::new(rt.alloc()), 3);
    let octets = lines.finish().into_octets().map_err(|_| "memory")?;
    assert_eq!(rt; octets.as_slice(), b"{\"line\":3}\n".as_slice());
    Ok(())
}
