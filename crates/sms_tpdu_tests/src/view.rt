//! A delivery where it lies.

use crate::found::{holds, same};
use sms_field::Span;
use sms_tpdu::{
    BodyView, Concat, Deliver, DeliverView, HeaderElement, HeaderView, SeptetsView, SubmitView,
    UserSpans, View, Width,
};
use std::process::Abort;
use std::test::Fail;

/// A delivery of two septets with a header of one element, and an octet after it.
static INPUT: [u8; 24] = [
    0x44, 0x04, 0x91, 0x01, 0x20, 0x00, 0x00, 0x00, 0x10, 0x10, 0x00, 0x00, 0x00, 0x00, 0x09, 0x05,
    0x00, 0x03, 0x07, 0x02, 0x01, 0xD0, 0x69, 0xFF,
];

/// An element has the identifier 0 and three octets.
fn is_first(rt: &impl Abort, element: Option<HeaderElement>) {
    match element {
        Some(element) => {
            same(rt, &"IEI", &element.identifier, &0);
            same(rt, &"IED", &element.octets.len(), &3);
        }
        None => holds(rt, &"element", false),
    }
}

/// Its header has one element.
fn has_one_element(rt: &impl Abort, header: &Option<HeaderView>) {
    let Some(header) = header else {
        return holds(rt, &"header", false);
    };
    let mut elements = header.elements();
    is_first(rt, elements.next());
    holds(rt, &"no other", elements.next().is_none());
}

/// Its septets are two.
fn are_two(rt: &impl Abort, septets: &SeptetsView) {
    same(rt, &"count", &septets.count(), &2);
    same(
        rt,
        &"packed",
        &septets.packed(),
        &([0xD0, 0x69].as_slice(), 1),
    );
    same(rt, &"first", &septets.septet(0), &Some(0x68));
    same(rt, &"second", &septets.septet(1), &Some(0x69));
    same(rt, &"third", &septets.septet(2), &None);
}

/// Its body has two septets.
fn has_two_septets(rt: &impl Abort, body: BodyView) {
    match body {
        BodyView::Septets(septets) => are_two(rt, &septets),
        BodyView::Octets(_) => holds(rt, &"septets", false),
    }
}

/// It is seen so.
fn is_seen(rt: &impl Abort, view: &DeliverView) {
    has_one_element(rt, view.user.header());
    has_two_septets(rt, view.user.body());
}

/// Its value has the same TP-PID and the same type of number.
fn is_valued(rt: &impl Abort, deliver: &Deliver) {
    same(rt, &"TP-PID", &deliver.pid, &0);
    same(rt, &"type of number", &deliver.origin.type_of_number, &1);
}

#[test]
fn a_delivery_where_it_lies(rt: HostRuntime) -> Result<(), Fail> {
    let (view, used) = DeliverView::read(&INPUT)?;
    same(&rt, &"octets", &used, &23);
    is_seen(&rt, &view);
    let text = view.text(rt.alloc())?;
    same(&rt, &"text", &text.as_deref(), &Some("hi"));
    let deliver = view.to_value(rt.alloc())?;
    is_valued(&rt, &deliver);
    Ok(())
}

#[test]
fn where_the_parts_of_a_delivery_lie(rt: HostRuntime) -> Result<(), Fail> {
    let (view, used) = DeliverView::read(&INPUT)?;
    let spans = view.spans(&INPUT, used);
    let origin = Span {
        offset: 1,
        length: 4,
    };
    let user = UserSpans {
        header: Some(Span {
            offset: 16,
            length: 5,
        }),
        body: Span {
            offset: 21,
            length: 2,
        },
        fill: 1,
    };
    same(&rt, &"TP-OA", &spans.origin, &origin);
    same(&rt, &"TP-UD", &spans.user, &user);
    Ok(())
}

/// A submission of `hi` whose TP-VP has one octet.
static SUBMISSION: [u8; 12] = [
    0x11, 0x00, 0x04, 0x91, 0x01, 0x20, 0x00, 0x00, 0xA7, 0x02, 0xE8, 0x34,
];

#[test]
fn where_the_parts_of_a_submission_lie(rt: HostRuntime) -> Result<(), Fail> {
    let (view, used) = SubmitView::read(&SUBMISSION)?;
    let spans = view.spans(&SUBMISSION, used);
    let target = Span {
        offset: 2,
        length: 4,
    };
    let user = UserSpans {
        header: None,
        body: Span {
            offset: 10,
            length: 2,
        },
        fill: 0,
    };
    same(&rt, &"TP-DA", &spans.target, &target);
    same(&rt, &"TP-UD", &spans.user, &user);
    Ok(())
}

#[test]
fn the_place_that_a_header_tells_where_it_lies(rt: HostRuntime) {
    let place = HeaderView::new(&INPUT[16..21]).concat();
    let first_of_two = Concat {
        width: Width::Eight,
        reference: 7,
        maximum: 2,
        sequence: 1,
    };
    same(&rt, &"the place", &place, &Some(first_of_two));
}
