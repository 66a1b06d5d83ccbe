//! Answers to pieces.

use crate::texts::address_of;
use sms_join::{Offer, OfferFault};
use sms_page::Page;
use sms_told::{Form, Source, Telling};
use std::alloc::Global;
use std::test::Fail;

/// What is told of an answer to a piece of line 5.
fn told(
    alloc: Global,
    telling: Telling,
    answer: &Result<Offer, OfferFault>,
) -> Result<String, &'static str> {
    let origin = address_of(alloc, "1003")?;
    let source = Source {
        number: 5,
        recipient: None,
        origin: &origin,
        moment: Some(9),
    };
    let mut page = Page::new(alloc);
    telling
        .put_answer(alloc, &source, answer, &mut page)
        .map_err(|_| "memory")?;
    page.into_text().map_err(|_| "memory")
}

/// Telling all, or texts alone.
fn telling(form: Form, is_verbose: bool) -> Telling {
    Telling {
        form,
        is_verbose,
        tells_lines: true,
    }
}

#[test]
fn answers_are_told_where_all_is(rt: HostRuntime) -> Result<(), Fail> {
    let plain = telling(Form::Plain, true);
    let json = telling(Form::Json, true);
    let repeat = Ok(Offer::Repeat);
    let away = Err(OfferFault::TooManyOpen);
    assert_eq!(rt;
        told(rt.alloc(), plain, &repeat)?.as_str(),
        "line 5: repeat\n"
    );
    assert_eq!(rt;
        told(rt.alloc(), plain, &away)?.as_str(),
        "line 5: too many open sets\n"
    );
    assert_eq!(rt;
        told(rt.alloc(), json, &repeat)?.as_str(),
        "{\"line\":5,\"told\":\"repeat\"}\n"
    );
    assert_eq!(rt; told(rt.alloc(), plain, &Ok(Offer::Kept))?.as_str(), "");
    let brief = telling(Form::Plain, false);
    assert_eq!(rt; told(rt.alloc(), brief, &repeat)?.as_str(), "");
    assert_eq!(rt; told(rt.alloc(), brief, &away)?.as_str(), "");
    Ok(())
}

#[test]
fn a_text_is_told_with_its_line(rt: HostRuntime) -> Result<(), Fail> {
    let finished = Ok(Offer::Finished(String::from_str(rt.alloc(), "x")?));
    let plain = told(rt.alloc(), telling(Form::Plain, false), &finished)?;
    assert_eq!(rt; plain.as_str(), "9 1003 x\n");
    let json = told(rt.alloc(), telling(Form::Json, false), &finished)?;
    let wanted =
        "{\"line\":5,\"text\":\"x\",\"origin\":{\"text\":\"1003\",\"type\":0,\"plan\":1},\"moment\":9}\n";
    assert_eq!(rt; json.as_str(), wanted);
    Ok(())
}
