//! Headers, as they are printed.

ghost use Rattle.std.specs.Prelude.{◌≡◌};

use sms_answer::{Line, Members, Printed};
use sms_told::bits_of;
use sms_tpdu::{Concat, HeaderView};

/// A concatenation: the bits of its reference, the reference, the maximum and the sequence.
#[derive(Clone, Copy)]
pub struct ConcatText(pub Concat);

impl Printed for ConcatText {
    fn plain(&self, line: &mut Line) {
        line.put_decimal(bits_of(self.0.width));
        line.put_one(b' ');
        line.put_decimal(u64::from(self.0.reference));
        line.put_one(b' ');
        line.put_decimal(u64::from(self.0.maximum));
        line.put_one(b' ');
        line.put_decimal(u64::from(self.0.sequence));
    }

    fn json(&self, members: &mut Members) {
        members.open();
        members.number_named("width", bits_of(self.0.width));
        members.number_named("reference", u64::from(self.0.reference));
        members.number_named("maximum", u64::from(self.0.maximum));
        members.number_named("sequence", u64::from(self.0.sequence));
        members.close();
    }
}

/// A header: its octets. JSON has its elements, or its octets where it has none.
pub struct HeaderText<'a, 'b>(pub &'b HeaderView<'a>);

impl Drop for HeaderText<'_, '_> {
    fn drop(self) {
        let HeaderText(_) = self;
    }
}

impl Printed for HeaderText<'_, '_> {
    fn plain(&self, line: &mut Line) {
        line.put_hexadecimal(self.0.as_slice());
    }

    fn json(&self, members: &mut Members) {
        let mut elements = self.0.elements();
        let Some(first) = elements.next() else {
            members.octets(self.0.as_slice());
            return;
        };
        members.open_list();
        put_element(members, first.identifier, first.octets);
        for element in elements {
            put_element(members, element.identifier, element.octets);
        }
        members.close_list();
    }
}

/// Adds an element of a header.
fn put_element(members: &mut Members, identifier: u8, octets: &[u8])
    ensures { members.new ≡ members.old }
{
    members.open();
    members.number_named("identifier", u64::from(identifier));
    members.octets_named("octets", octets);
    members.close();
}
