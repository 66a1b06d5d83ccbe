//! How many septets there is room for.

ghost use Rattle.std.specs.Prelude.{◌≡◌, ◌≤◌};
ghost use Rattle.sms_national.specs.Rooms as rooms;

use sms_field::Alphabet;
use sms_language::{Locking, Single, Tables};
use sms_tpdu::{Width, greatest_length, length_of_header};

/// How many octets an element with a national language identifier takes (3GPP TS 23.040,
/// 9.2.3.24.15 and 9.2.3.24.16).
const LANGUAGE_OCTETS: usize = 3;

/// How many octets the elements that tell tables take.
fn table_octets(tables: Tables) -> usize
    ensures is { result ≡ rooms.table_octets tables }
    ensures few { result ≤ 6 }
{
    let single = match tables.single {
        Single::Default => 0,
        _ => LANGUAGE_OCTETS,
    };
    match tables.locking {
        Locking::Default => single,
        _ => single + LANGUAGE_OCTETS,
    }
}

/// How many septets stand after elements of so many octets.
fn room_after(octets: usize) -> usize
    requires { octets ≤ 12 }
    ensures { result ≡ rooms.room_after octets }
{
    let all = greatest_length(Alphabet::Gsm7);
    if octets == 0 {
        return all;
    }
    all - length_of_header(Alphabet::Gsm7, octets + 1)
}

/// How many septets a message has room for under tables: 160, 155 with one element, 152 with two.
pub fn room_alone(tables: Tables) -> usize
    ensures { result ≡ rooms.room_alone tables }
{
    room_after(table_octets(tables))
}

/// How many septets a segment has room for under tables, beside its place.
pub fn room_beside(width: Width, tables: Tables) -> usize
    ensures is { result ≡ rooms.room_beside width tables }
    ensures wide { 2 ≤ result }
{
    let place = width.header_octets() - 1;
    room_after(place + table_octets(tables))
}
