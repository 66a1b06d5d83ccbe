//! One growth is refused, whichever it is (docs/CONTRIBUTING.md says how): asked once more, a call
//! answers as where none was refused.

use crate::found::is;
use crate::texts::TURKISH;
use sms_language::{septets_of_text, text_of_packed, text_of_septets};
use std::test::Fail;

#[test]
fn reads_after_a_refused_growth(rt: HostRuntime) -> Result<(), Fail> {
    let text = match text_of_septets(rt.alloc(), &[0x0C, 0x07, 0x1C], TURKISH) {
        Err(_) => text_of_septets(rt.alloc(), &[0x0C, 0x07, 0x1C], TURKISH)?,
        Ok(text) => text,
    };
    is(&rt, "septets", text.as_str(), "ğıŞ");
    Ok(())
}

#[test]
fn unpacks_after_a_refused_growth(rt: HostRuntime) -> Result<(), Fail> {
    let octets = [0x18, 0x07];
    let text = match text_of_packed(rt.alloc(), &octets, 1, 2, TURKISH) {
        Err(_) => text_of_packed(rt.alloc(), &octets, 1, 2, TURKISH)?,
        Ok(text) => text,
    };
    let text = text.ok_or("too few octets")?;
    is(&rt, "packed", text.as_str(), "ğı");
    Ok(())
}

#[test]
fn writes_after_a_refused_growth(rt: HostRuntime) -> Result<(), Fail> {
    let septets = match septets_of_text(rt.alloc(), "ğıŞ", TURKISH) {
        Err(_) => septets_of_text(rt.alloc(), "ğıŞ", TURKISH)?,
        Ok(septets) => septets,
    };
    let septets = septets.ok_or("no septets")?;
    is(
        &rt,
        "text",
        septets.as_slice(),
        [0x0C, 0x07, 0x1C].as_slice(),
    );
    Ok(())
}
