//! A joiner that is saved and read back, while one request for memory is refused.

use crate::found::holds;
use crate::joiner::{joiner, limits};
use crate::rows::SAMPLE;
use sms_keep::{ReadFault, read, save};
use std::alloc::Global;
use std::test::Fail;

/// Whether the sample is read and saved again, or refused for want of memory; none where it is.
fn comes_back(alloc: Global) -> Option<bool> {
    match read(alloc, Some(7), limits(), SAMPLE) {
        Ok(restored) => {
            let octets = save(alloc, &restored.gateway, restored.taken).ok()?;
            Some(octets.as_slice() == SAMPLE)
        }
        Err(ReadFault::Memory) => None,
        Err(_) => Some(false),
    }
}

/// Whether the joiner is saved as the sample; none where memory runs out.
fn is_saved(alloc: Global) -> Option<bool> {
    let gateway = joiner(alloc).ok()?;
    let octets = save(alloc, &gateway, 12).ok()?;
    Some(octets.as_slice() == SAMPLE)
}

/// One growth is refused, whichever it is (docs/CONTRIBUTING.md says how): a second try does what
/// the first would have done.
#[test]
fn comes_back_after_a_refused_growth(rt: HostRuntime) -> Result<(), Fail> {
    let read = comes_back(rt.alloc()).or(comes_back(rt.alloc()));
    holds(&rt, "read", read == Some(true));
    let saved = is_saved(rt.alloc()).or(is_saved(rt.alloc()));
    holds(&rt, "saved", saved == Some(true));
    Ok(())
}
