//! The world as the network of a script, watched or not.

ghost use Rattle.sms_world.specs.Network.{conduct};
ghost use Rattle.sms_world.specs.Trusted.Network.{trusted_conduct};
ghost use Rattle.sms_world.specs.Watched.Network.{watched_conduct};

use crate::trusted::TrustedWorld;
use crate::watched::WatchedWorld;
use crate::words::{status_text, write_told};
use crate::world::World;
use sms_field::Address;
use sms_script::{Entry, Event, Limits, Network, Packet};
use std::alloc::{AllocError, Global};

impl Network for World {
    ghost conduct = { conduct };

    fn begin(alloc: Global, limits: Limits, phones: &[Address]) -> Result<Self, AllocError> {
        World::new(alloc, limits, phones)
    }

    fn step(&mut self, event: &Event, words: &mut Vec<u8>) -> Result<(), AllocError> {
        let told = World::step(self, event);
        write_told(words, &told)
    }

    fn packet_count(&self) -> usize {
        World::packet_count(self)
    }

    fn packet(&self, number: usize) -> Option<Packet<'_>> {
        self.packet_on_way(number)
    }

    fn typed(&self, phone: usize) -> usize {
        World::typed(self, phone)
    }

    fn status(&self, phone: usize, text: usize) -> Option<&str> {
        let status = World::status(self, phone, text)?;
        Some(status_text(status))
    }

    fn stored(&self, phone: usize) -> usize {
        self.store(phone).len()
    }

    fn entry(&self, phone: usize, place: usize) -> Option<Entry<'_>> {
        let entry = self.store(phone).get(place)?;
        Some(Entry {
            origin: &entry.origin,
            text: entry.text.as_str(),
        })
    }
}

impl Network for WatchedWorld {
    ghost conduct = { watched_conduct };

    fn begin(alloc: Global, limits: Limits, phones: &[Address]) -> Result<Self, AllocError> {
        WatchedWorld::new(alloc, limits, phones)
    }

    fn step(&mut self, event: &Event, words: &mut Vec<u8>) -> Result<(), AllocError> {
        let told = WatchedWorld::step(self, event);
        write_told(words, &told)
    }

    fn packet_count(&self) -> usize {
        self.world().packet_count()
    }

    fn packet(&self, number: usize) -> Option<Packet<'_>> {
        self.world().packet_on_way(number)
    }

    fn typed(&self, phone: usize) -> usize {
        self.world().typed(phone)
    }

    fn status(&self, phone: usize, text: usize) -> Option<&str> {
        Network::status(self.world(), phone, text)
    }

    fn stored(&self, phone: usize) -> usize {
        self.world().store(phone).len()
    }

    fn entry(&self, phone: usize, place: usize) -> Option<Entry<'_>> {
        Network::entry(self.world(), phone, place)
    }
}

impl Network for TrustedWorld {
    ghost conduct = { trusted_conduct };

    fn begin(alloc: Global, limits: Limits, phones: &[Address]) -> Result<Self, AllocError> {
        TrustedWorld::new(alloc, limits, phones)
    }

    fn step(&mut self, event: &Event, words: &mut Vec<u8>) -> Result<(), AllocError> {
        let told = TrustedWorld::step(self, event);
        write_told(words, &told)
    }

    fn packet_count(&self) -> usize {
        self.world().packet_count()
    }

    fn packet(&self, number: usize) -> Option<Packet<'_>> {
        self.world().packet_on_way(number)
    }

    fn typed(&self, phone: usize) -> usize {
        self.world().typed(phone)
    }

    fn status(&self, phone: usize, text: usize) -> Option<&str> {
        Network::status(self.world(), phone, text)
    }

    fn stored(&self, phone: usize) -> usize {
        self.world().store(phone).len()
    }

    fn entry(&self, phone: usize, place: usize) -> Option<Entry<'_>> {
        Network::entry(self.world(), phone, place)
    }
}
