//! What a packet carries, in a few words.

use crate::fault::Fault;
use sms_page::Page;
use sms_relay::{CpBodyView, CpView, RpBodyView, RpView, Side};
use sms_tpdu::{DeliverView, SubmitView, UserDataView};
use std::alloc::Global;

/// The place among the segments of a text that user data tell.
fn put_place(alloc: Global, user: &UserDataView<'_>, page: &mut Page) -> Result<(), Fault> {
    let user = user.to_value(alloc)?;
    let concat = match &user.header {
        Some(header) => header.concat(),
        None => None,
    };
    drop(user);
    if let Some(concat) = concat {
        page.put(b" ");
        page.put_decimal(u64::from(concat.sequence));
        page.put(b"/");
        page.put_decimal(u64::from(concat.maximum));
    }
    Ok(())
}

/// The unit of a transfer.
fn put_unit(alloc: Global, side: Side, octets: &[u8], page: &mut Page) -> Result<(), Fault> {
    match side {
        Side::FromPhone => match SubmitView::read(octets) {
            Ok((submit, _)) => {
                page.put(b"SUBMIT");
                put_place(alloc, &submit.user, page)
            }
            Err(_) => {
                page.put(b"RP-DATA");
                Ok(())
            }
        },
        Side::ToPhone => match DeliverView::read(octets) {
            Ok((deliver, _)) => {
                page.put(b"DELIVER");
                put_place(alloc, &deliver.user, page)
            }
            Err(_) => {
                page.put(b"RP-DATA");
                Ok(())
            }
        },
    }
}

/// The message of the relay.
fn put_relay(alloc: Global, octets: &[u8], page: &mut Page) -> Result<(), Fault> {
    let Ok((message, _)) = RpView::read(octets) else {
        page.put(b"CP-DATA");
        return Ok(());
    };
    match &message.body {
        RpBodyView::Transfer { user, .. } => put_unit(alloc, message.side, user.as_slice(), page),
        RpBodyView::Ack { .. } => {
            page.put(b"RP-ACK");
            Ok(())
        }
        RpBodyView::Fail { cause, .. } => {
            page.put(b"RP-ERROR ");
            page.put_decimal(u64::from(*cause));
            Ok(())
        }
    }
}

/// The message of the connection.
fn put_connection(alloc: Global, octets: &[u8], page: &mut Page) -> Result<(), Fault> {
    let Ok((message, _)) = CpView::read(octets) else {
        page.put(b"no CP message");
        return Ok(());
    };
    match &message.body {
        CpBodyView::Transfer(relayed) => put_relay(alloc, relayed.as_slice(), page),
        CpBodyView::Ack => {
            page.put(b"CP-ACK");
            Ok(())
        }
        CpBodyView::Fail(_) => {
            page.put(b"CP-ERROR");
            Ok(())
        }
    }
}

/// What a packet carries: the unit and its place among the segments, or the message.
pub fn message_name(alloc: Global, octets: &[u8]) -> Result<String, Fault> {
    let mut page = Page::new(alloc);
    put_connection(alloc, octets, &mut page)?;
    Ok(page.into_text()?)
}
