//! What a transcript is written into.

ghost use Rattle.std.specs.Prelude.{◌≡◌, false, None};

use crate::talk::outlet::{Outlet, take_all};
use crate::talk::search::Search;
use sms_world::{DeviceFailed, Sink};
use std::cell::RefCell;
use std::io::Write;

/// What octets are written into.
#[derive(Drop)]
pub struct Mouth<'a, 'b, W: Write> {
    outlet: &'b RefCell<Outlet<'a, W>>,
    /// Whether a call of it failed.
    pub failed: bool,
    /// What looks for events that name nothing, where that is asked for.
    search: Option<Search>,
}

impl<'a, 'b, W: Write> Mouth<'a, 'b, W> {
    /// One that has not failed, and that looks for events that name nothing or not.
    pub fn new(outlet: &'b RefCell<Outlet<'a, W>>, is_checked: bool) -> Mouth<'a, 'b, W>
        ensures { result.failed ≡ false }
    {
        Mouth {
            outlet,
            failed: false,
            search: is_checked.then_some(Search::new()),
        }
    }

    /// Whether an event that names nothing was found.
    pub fn has_found_fault(&self) -> bool {
        match self.search {
            Some(search) => search.has_found,
            None => false,
        }
    }
}

impl<W: Write> Sink for Mouth<'_, '_, W> {
    ghost contents = { λ _. None };

    ghost has_failed = { λ m. m.failed };

    fn write(&mut self, octets: &[u8]) -> Result<usize, DeviceFailed> {
        if !take_all(self.outlet, octets) {
            self.failed = true;
            return Err(DeviceFailed);
        }
        if let Some(search) = &mut self.search {
            search.look_at(octets);
        }
        Ok(octets.len())
    }

    fn failed(&self) -> bool {
        self.failed
    }
}
