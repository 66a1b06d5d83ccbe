//! The elements of a user data header, where they lie.

ghost use Rattle.std.specs.Prelude.{length};
ghost use Rattle.std.specs.Iterator.{at_most};
ghost use Rattle.sms_tpdu.specs.UserData.Elements.{StartsAt};

use crate::user_data::view::header::HeaderView;
use std::marker::Model;

/// An element of a header.
#[derive(Clone, Copy)]
pub struct HeaderElement<'a> {
    /// IEI: what kind of element it is.
    pub identifier: u8,
    /// IED: its octets, as many as IEDL says.
    pub octets: &'a [u8],
}

/// The elements of a header that are left. Contracts see them as their octets.
#[derive(Drop)]
pub struct Elements<'a> {
    rest: &'a [u8],
}

impl<'a> Model for Elements<'a> {
    ghost use Rattle.std.specs.Prelude.{ℕ, List};
    ghost use Rattle.sms_tpdu.specs.UserData.Elements.{AreWhole};

    ghost Value = { List ℕ };

    ghost view = { λ e. e.rest.now };

    ghost invariant = { λ e. AreWhole e.rest.now };
}

impl<'a> Iterator for Elements<'a> {
    ghost use Rattle.std.specs.Prelude.{length};
    ghost use Rattle.std.specs.Iterator.{at_most};
    ghost use Rattle.sms_tpdu.specs.UserData.Elements.{GivesElement};

    type Item = HeaderElement<'a>;

    ghost remaining = { λ left. at_most (length left) };

    ghost next_gives = { GivesElement };

    fn next(&mut self) -> Option<HeaderElement<'a>> {
        let [identifier, length, after @ ..] = self.rest else {
            return None;
        };
        let (octets, rest) = after.split_at(usize::from(*length));
        self.rest = rest;
        Some(HeaderElement {
            identifier: *identifier,
            octets,
        })
    }
}

impl<'a> HeaderView<'a> {
    /// The elements, one after another; none where the last one is cut.
    pub fn elements(&self) -> Elements<'a>
        ensures { StartsAt self.now result }
    {
        let header = self.as_slice();
        let mut rest = header;
        while let [_, length, after @ ..] = rest {
            let length = usize::from(*length);
            if after.len() < length {
                return Elements { rest: &[] };
            }
            let (_, others) = after.split_at(length);
            rest = others;
        }
        if rest.is_empty() {
            Elements { rest: header }
        } else {
            Elements { rest: &[] }
        }
    }
}
