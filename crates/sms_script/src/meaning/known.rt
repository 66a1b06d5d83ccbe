//! What the lines so far have told that later lines rest on.

ghost use Rattle.std.specs.Prelude.{◌≡◌, ◌<◌, OnOk, OnErr, false, true, length, position, slice_get};
ghost use Rattle.std.specs.Option.{option_map};
ghost use Rattle.std.specs.List.{list_any};
ghost use Rattle.std.specs.Str.{bytes_eq};
ghost use Rattle.sms_field.specs.Address.Same.{same_address};
ghost use Rattle.sms_script.specs.Meaning.Known.{no_phones, with_phone, running, IsNew, ArePhones};

use crate::meaning::statement::Phone;
use indexmap::IndexSet;
use sms_field::Address;
use std::alloc::{AllocError, Global};
use std::marker::Model;

/// How many phones there may be.
pub const PHONE_LIMIT: usize = 100;

/// The names and the addresses of the phones, in their order, and whether an event came. Names are
/// found without walking them all.
#[derive(Drop)]
pub struct Known {
    names: IndexSet<String>,
    addresses: Vec<Address>,
    running: bool,
}

impl Model for Known {
    ghost use Rattle.sms_script.specs.Meaning.Known.{KnownValue, names_of, AreNamed};

    ghost Value = { KnownValue };

    ghost view = { λ k. record {
      names = names_of k.names.keys;
      addresses = k.addresses.items;
      is_running = k.running;
    } };

    ghost invariant = { λ k. AreNamed k.names.keys k.addresses.items };
}

impl Known {
    /// No phone, and no event.
    pub fn new(alloc: Global) -> Known
        ensures { result ≡ no_phones }
    {
        Known {
            names: IndexSet::new(alloc),
            addresses: Vec::new(alloc),
            running: false,
        }
    }

    /// The phone of this name, counted from 0.
    pub fn phone_named(&self, name: &str) -> Option<usize>
        ensures { result ≡ position (bytes_eq name.now) self.now.names }
    {
        self.names.get_index_of(name)
    }

    /// The name of a phone.
    pub fn name(&self, phone: usize) -> Option<&str>
        ensures { option_map (λ name. name.now) result ≡ slice_get self.now.names phone }
    {
        match self.names.get_index(phone) {
            Some(name) => Some(name.as_str()),
            None => None,
        }
    }

    /// Whether a phone has this name.
    pub fn has_name(&self, name: &str) -> bool
        ensures { result ≡ list_any (bytes_eq name.now) self.now.names }
    {
        self.names.contains(name)
    }

    /// Whether a phone has this address.
    pub fn has_address(&self, address: &Address) -> bool
        ensures { result ≡ list_any (λ a. same_address a address.now) self.now.addresses }
    {
        self.addresses.iter().any(|a| a.is_same(address))
    }

    /// The addresses of the phones.
    pub fn addresses(&self) -> &[Address]
        ensures addresses { result.now ≡ self.now.addresses }
        ensures phones { ArePhones self.now.addresses }
        ensures names { length self.now.names ≡ length self.now.addresses }
    {
        self.addresses.as_slice()
    }

    /// Whether an event came.
    pub fn is_running(&self) -> bool
        ensures { result ≡ self.now.is_running }
    {
        self.running
    }

    /// An event comes.
    pub fn start(&mut self)
        ensures { self.new ≡ running self.old }
    {
        self.running = true;
    }

    /// One more phone. Its name and address are new, and fewer than `PHONE_LIMIT` are known. If
    /// memory runs out, nothing has changed.
    pub fn add(&mut self, phone: Phone) -> Result<(), AllocError>
        requires { IsNew self.old phone }
        ensures ok { OnOk result (self.new ≡ with_phone self.old phone) }
        ensures err { OnErr result (self.new ≡ self.old) }
    {
        self.addresses.reserve(1)?;
        self.names.insert(phone.name.into_string())?;
        self.addresses.push_reserved(phone.address);
        Ok(())
    }
}
