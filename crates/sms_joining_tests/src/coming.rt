//! Sets of three segments that come in a made order.

use sms_trial::Made;

/// How many sets there are segments of at a time.
const WINDOW: usize = 40;

/// A set of which segments come.
#[derive(Clone, Copy)]
struct ComingSet {
    reference: usize,
    /// Which of its segments are still to come.
    awaited: [bool; 3],
}

/// The sets of a window, of which segments come.
#[derive(Drop)]
pub struct Coming {
    made: Made,
    sets: [ComingSet; WINDOW],
    /// The reference of the next set.
    next: usize,
}

impl Coming {
    /// The sets of the first window.
    pub fn new(seed: u64) -> Coming {
        let first = ComingSet {
            reference: 0,
            awaited: [true; 3],
        };
        let mut sets = [first; WINDOW];
        for (reference, set) in sets.iter_mut().enumerate() {
            set.reference = reference;
        }
        Coming {
            made: Made::new(seed),
            sets,
            next: WINDOW,
        }
    }

    /// The reference and the sequence of a segment that comes next. One in eight sets is given up
    /// before it is whole.
    pub fn next(&mut self) -> Option<(usize, usize)> {
        let place = self.made.below(WINDOW);
        let sequence = self.made.below(3);
        let gives_up = self.made.octet() < 32;
        let set = self.sets.get_mut(place)?;
        let reference = set.reference;
        let awaited = set.awaited.get_mut(sequence)?;
        let comes = *awaited;
        *awaited = false;
        if gives_up || set.awaited == [false; 3] {
            set.reference = self.next;
            set.awaited = [true; 3];
            self.next = self.next.saturating_add(1);
        }
        comes.then_some((reference, sequence))
    }
}
