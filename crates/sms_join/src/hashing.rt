//! How the tables of a joiner hash keys.

ghost use Rattle.std.specs.Prelude.{◌≡◌, IfOk};

use std::alloc::AllocError;
use std::hash::{BuildHasher, DefaultHasher, FoldHasher, Hasher, RandomState};
use std::io;
use std::random::RandomSource;

/// Makes the hashers of a table.
#[derive(Clone, Copy)]
pub(crate) enum Hashing {
    /// All alike, and fast. Whoever picks keys can pick some of one hash.
    Fixed,
    /// SipHash by two keys. Whoever does not know them cannot.
    Seeded(RandomState),
}

/// A hasher of either kind.
#[derive(Clone, Copy)]
pub(crate) enum KeyHasher {
    Fixed(FoldHasher),
    Seeded(DefaultHasher),
}

/// The octets of a seed, the lowest first, as often as they are asked for.
#[derive(Drop)]
struct Seed {
    octets: [u8; 16],
}

impl RandomSource for Seed {
    fn fill_bytes(&self, buf: &mut [u8]) -> io::Result<()> {
        for part in buf.chunks_mut(16) {
            let count = part.len().min(16);
            part.copy_from_slice(&self.octets[..count]);
        }
        Ok(())
    }
}

impl Hashing {
    /// By a seed, whose halves are the keys.
    pub(crate) fn seeded(seed: u128) -> Result<Hashing, AllocError> {
        let source = Seed {
            octets: seed.to_le_bytes(),
        };
        match RandomState::new(&source) {
            Ok(keys) => Ok(Hashing::Seeded(keys)),
            Err(_) => Err(AllocError),
        }
    }
}

impl BuildHasher for Hashing {
    type Hasher = KeyHasher;

    ghost use Rattle.sms_join.specs.Inside.Hashings.{hasher_of};

    ghost build_hasher = { hasher_of };

    #[inline(always)]
    fn build_hasher(&self) -> KeyHasher {
        match self {
            Hashing::Fixed => KeyHasher::Fixed(FoldHasher::default()),
            Hashing::Seeded(keys) => KeyHasher::Seeded(keys.build_hasher()),
        }
    }
}

impl Hasher for KeyHasher {
    ghost use Rattle.sms_join.specs.Inside.Hashings.{write, finish};

    ghost write = { write };

    ghost finish = { finish };

    #[inline(always)]
    fn write(&mut self, bytes: &[u8]) {
        match self {
            KeyHasher::Fixed(hasher) => hasher.write(bytes),
            KeyHasher::Seeded(hasher) => hasher.write(bytes),
        }
    }

    #[inline(always)]
    fn finish(&self) -> u64 {
        match self {
            KeyHasher::Fixed(hasher) => hasher.finish(),
            KeyHasher::Seeded(hasher) => hasher.finish(),
        }
    }
}
