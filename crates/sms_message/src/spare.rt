//! Lists whose room is used again.

ghost use Rattle.std.specs.Prelude.{◌≡◌, []};

use arrayvec::ArrayVec;
use std::alloc::Global;

/// How many lists are kept.
const ROOMS_MAX: usize = 4;

/// Lists whose octets nobody needs any more: their room is used again.
#[derive(Drop)]
pub struct Spare {
    alloc: Global,
    rooms: ArrayVec<Vec<u8>, ROOMS_MAX, Global>,
}

impl Spare {
    /// It holds no list yet, and takes no memory.
    pub fn new(alloc: Global) -> Spare {
        Spare {
            alloc,
            rooms: ArrayVec::new_in(alloc),
        }
    }

    /// The memory that lists with no room yet grow in.
    #[inline]
    pub fn alloc(&self) -> Global {
        self.alloc
    }

    /// An empty list, with room that was used before where there is some. It takes no memory.
    #[inline]
    pub fn room(&mut self) -> Vec<u8>
        ensures { result.items ≡ [] }
    {
        match self.rooms.pop() {
            Some(list) => emptied(list),
            None => Vec::new(self.alloc),
        }
    }

    /// Keeps the room of a list, where few are kept; the octets in it are lost. It never fails.
    #[inline]
    pub fn give(&mut self, list: Vec<u8>) {
        if self.rooms.is_full() {
            drop(list);
        } else {
            self.rooms.push(list);
        }
    }
}

/// A list without its octets.
#[inline]
fn emptied(mut list: Vec<u8>) -> Vec<u8>
    ensures { result.items ≡ [] }
{
    list.clear();
    list
}
