//! Events that name nothing, in a transcript.

/// Where a transcript stands, as far as events that name nothing are looked for in it: the line of
/// an event is its number, a blank, and its words.
#[derive(Clone, Copy, PartialEq, Eq)]
enum Place {
    /// At the beginning of a line.
    Start,
    /// In the number of an event.
    Number,
    /// In its words, after as many octets that are those of a fault.
    Words(usize),
    /// In another line, or after the words that matter.
    Rest,
    /// After the last event.
    Ended,
}

/// The first word of an event that names nothing, and the blank after it.
const FAULT: &[u8; 6] = b"fault ";

/// What a transcript has after an octet more.
fn after(place: Place, octet: u8) -> Place {
    match (place, octet) {
        (Place::Ended, _) => Place::Ended,
        (_, b'\n') => Place::Start,
        (Place::Start | Place::Number, b'0'..=b'9') => Place::Number,
        (Place::Start, b's') => Place::Ended,
        (Place::Number, b' ') => Place::Words(0),
        (Place::Words(count), _) if FAULT.get(count) == Some(&octet) => {
            Place::Words(count.saturating_add(1))
        }
        _ => Place::Rest,
    }
}

/// Looks for events that name nothing in a transcript.
#[derive(Clone, Copy)]
pub struct Search {
    place: Place,
    /// Whether one was told.
    pub has_found: bool,
}

impl Search {
    /// At the beginning.
    pub fn new() -> Search {
        Search {
            place: Place::Start,
            has_found: false,
        }
    }

    /// Looks at the octets that come next.
    pub fn look_at(&mut self, octets: &[u8]) {
        for octet in octets {
            self.place = after(self.place, *octet);
            if self.place == Place::Words(FAULT.len()) {
                self.has_found = true;
            }
        }
    }
}
