//! An output that an input and an output share.

use std::alloc::{AllocError, Global};
use std::cell::RefCell;
use std::io::Write;

/// How many octets are collected before they are written.
const ENOUGH: usize = 32_768;

/// An output, and the octets that are collected before they are written into it.
#[derive(Drop)]
pub struct Outlet<'a, W: Write> {
    output: &'a mut W,
    page: Vec<u8>,
}

impl<'a, W: Write> Outlet<'a, W> {
    /// One with an empty page.
    pub fn new(alloc: Global, output: &'a mut W) -> Result<Outlet<'a, W>, AllocError> {
        Ok(Outlet {
            output,
            page: Vec::with_capacity(alloc, ENOUGH)?,
        })
    }

    /// Writes what was collected, and says whether it could be written.
    pub fn write_page(&mut self) -> bool {
        let written = self.output.write_all(&self.page);
        self.page.clear();
        written.is_ok()
    }

    /// Takes octets, and says whether what was collected could be written, where that was needed.
    fn take(&mut self, octets: &[u8]) -> bool {
        let is_full = self.page.len().saturating_add(octets.len()) > ENOUGH;
        if is_full && !self.write_page() {
            return false;
        }
        if octets.len() > ENOUGH {
            return self.output.write_all(octets).is_ok();
        }
        self.page.extend_from_slice(octets).is_ok()
    }

    /// Writes what was collected, flushes the output, and says whether that could be done.
    fn flush(&mut self) -> bool {
        self.write_page() && self.output.flush().is_ok()
    }
}

/// Takes octets, and says whether they could be taken.
pub fn take_all<W: Write>(outlet: &RefCell<Outlet<'_, W>>, octets: &[u8]) -> bool {
    match outlet.try_borrow_mut() {
        Ok(mut outlet) => outlet.take(octets),
        Err(_) => false,
    }
}

/// Writes what was collected, and says whether it could be written.
pub fn write_page<W: Write>(outlet: &RefCell<Outlet<'_, W>>) -> bool {
    match outlet.try_borrow_mut() {
        Ok(mut outlet) => outlet.write_page(),
        Err(_) => false,
    }
}

/// Writes what was collected, flushes an output, and says whether that could be done.
pub fn flush<W: Write>(outlet: &RefCell<Outlet<'_, W>>) -> bool {
    match outlet.try_borrow_mut() {
        Ok(mut outlet) => outlet.flush(),
        Err(_) => false,
    }
}
