//! The world that a script is played on for a chart or for objects in JSON.

ghost use Rattle.std.specs.Prelude.{◌≡◌, is_some, length};
ghost use Rattle.sms_command.specs.Inside.Runs.{is_trusted, is_watched, world_of};

use sms_field::Address;
use sms_run::Machine;
use sms_world::{
    Breach, Doubt, Entry, Event, Limits, Outcome, Status, TrustedWorld, WatchedWorld, World,
    WorldFault,
};
use std::alloc::{AllocError, Global};

/// What is to be told of a run besides.
#[derive(Clone, Copy)]
pub enum Watching {
    Nothing,
    /// Whether it is orderly.
    Order,
    /// Whether it is orderly, and whether `accepted` means accepted.
    Accepted,
}

/// The world that a script is played on.
#[derive(Drop)]
pub enum Running {
    Plain(World),
    /// One that tells whether the run is orderly.
    Watched(WatchedWorld),
    /// One that tells besides whether `accepted` means accepted.
    Trusted(TrustedWorld),
}

impl Running {
    /// The world as it stands.
    pub fn world(&self) -> &World
        ensures { result.now ≡ world_of self.now }
    {
        match self {
            Running::Plain(world) => world,
            Running::Watched(watched) => watched.world(),
            Running::Trusted(trusted) => trusted.world(),
        }
    }

    /// What is told of the order of the run, where it is watched: the first event that came out of
    /// order, if one did.
    pub fn order(&self) -> Option<Option<Breach>>
        ensures { is_some result ≡ is_watched self.now }
    {
        match self {
            Running::Plain(_) => None,
            Running::Watched(watched) => Some(watched.order()),
            Running::Trusted(trusted) => Some(trusted.watched().order()),
        }
    }

    /// What is told of `accepted`, where that is noted: the first event after which it need not
    /// mean accepted, if there is one.
    pub fn accepted(&self) -> Option<Option<Doubt>>
        ensures { is_some result ≡ is_trusted self.now }
    {
        match self {
            Running::Plain(_) | Running::Watched(_) => None,
            Running::Trusted(trusted) => Some(trusted.accepted()),
        }
    }

    /// How many phones there are.
    pub fn phones(&self) -> usize
        ensures { result ≡ length (world_of self.now).parties.phones }
    {
        self.world().phone_count()
    }

    /// The texts that came to a phone.
    pub fn store(&self, phone: usize) -> &[Entry] {
        let world = self.world();
        if phone < world.phone_count() {
            world.store(phone)
        } else {
            &[]
        }
    }

    /// How many texts were typed at a phone.
    pub fn typed(&self, phone: usize) -> usize {
        let world = self.world();
        if phone < world.phone_count() {
            world.typed(phone)
        } else {
            0
        }
    }

    /// How the text of this number of a phone stands.
    pub fn status(&self, phone: usize, number: usize) -> Option<Status> {
        let world = self.world();
        if phone < world.phone_count() {
            world.status(phone, number)
        } else {
            None
        }
    }
}

impl Machine for Running {
    ghost use Rattle.sms_command.specs.Inside.Runs.{conduct};

    type Way = Watching;

    type Answer = Result<Outcome, WorldFault>;

    ghost conduct = { conduct };

    fn begin(
        alloc: Global,
        way: Watching,
        limits: Limits,
        phones: &[Address],
    ) -> Result<Running, AllocError> {
        match way {
            Watching::Nothing => Ok(Running::Plain(World::new(alloc, limits, phones)?)),
            Watching::Order => Ok(Running::Watched(WatchedWorld::new(alloc, limits, phones)?)),
            Watching::Accepted => Ok(Running::Trusted(TrustedWorld::new(alloc, limits, phones)?)),
        }
    }

    fn step(&mut self, event: &Event) -> Result<Outcome, WorldFault> {
        match self {
            Running::Plain(world) => world.step(event),
            Running::Watched(watched) => watched.step(event),
            Running::Trusted(trusted) => trusted.step(event),
        }
    }

    fn packet_count(&self) -> usize {
        self.world().packet_count()
    }
}
