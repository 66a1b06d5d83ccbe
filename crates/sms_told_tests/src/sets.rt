//! Sets of segments that are not whole.

ghost use Rattle.std.specs.Prelude.{◌≡◌};
ghost use Rattle.sms_tpdu.specs.UserData.ConcatenationFound.{IsPlace};

use crate::texts::address_of;
use sms_field::{Address, Stamp};
use sms_join::{Gateway, GatewayLimits, Ucs2Units, Units};
use sms_page::Page;
use sms_told::{Form, put_open_sets};
use sms_tpdu::{Concat, Width};
use std::alloc::Global;
use std::test::Fail;

/// The place of a segment of four: of eight bits without a recipient.
fn place_of(width: Width, sequence: u8) -> Option<Concat>
    ensures { IsPlace result }
{
    if sequence == 0 || sequence > 4 {
        return None;
    }
    Some(Concat {
        width,
        reference: 7,
        maximum: 4,
        sequence,
    })
}

/// Offers a segment.
fn offer(
    alloc: Global,
    gateway: &mut Gateway,
    to: Option<&Address>,
    width: Width,
    sequence: u8,
) -> Result<(), &'static str> {
    let origin = address_of(alloc, "+1003")?;
    let units = Ucs2Units::new(Vec::from_slice(alloc, &[0x61]).map_err(|_| "memory")?);
    let place = place_of(width, sequence);
    let stamp = Stamp::new([0; 7]);
    gateway
        .offer(0, to, &origin, stamp, place, Units::Ucs2(units))
        .map_err(|_| "refused")?;
    Ok(())
}

/// A joiner with two open sets.
fn two_open(alloc: Global) -> Result<Gateway, &'static str> {
    let to = address_of(alloc, "Shop")?;
    let limits = GatewayLimits::new(4, 8);
    let mut gateway = Gateway::new(alloc, limits).map_err(|_| "memory")?;
    offer(alloc, &mut gateway, None, Width::Eight, 3)?;
    offer(alloc, &mut gateway, Some(&to), Width::Sixteen, 1)?;
    offer(alloc, &mut gateway, None, Width::Eight, 1)?;
    Ok(gateway)
}

/// What is told of the open sets.
fn told(alloc: Global, form: Form) -> Result<String, &'static str> {
    let gateway = two_open(alloc)?;
    let mut page = Page::new(alloc);
    put_open_sets(alloc, form, &gateway, &mut page).map_err(|_| "memory")?;
    page.into_text().map_err(|_| "memory")
}

#[test]
fn open_sets_are_told(rt: HostRuntime) -> Result<(), Fail> {
    let plain = told(rt.alloc(), Form::Plain)?;
    let wanted = concat!(
        "open: +1003 8 7 4 missing 2 4\n",
        "open: Shop +1003 16 7 4 missing 2 3 4\n",
    );
    assert_eq!(rt; plain.as_str(), wanted);
    let json = told(rt.alloc(), Form::Json)?;
    let wanted = concat!(
        "{\"open\":{\"origin\":{\"text\":\"+1003\",\"type\":1,\"plan\":1},\"width\":8,",
        "\"reference\":7,\"maximum\":4,\"missing\":[2,4]}}\n",
        "{\"open\":{\"recipient\":{\"text\":\"Shop\",\"type\":5,\"plan\":0},",
        "\"origin\":{\"text\":\"+1003\",\"type\":1,\"plan\":1},\"width\":16,",
        "\"reference\":7,\"maximum\":4,\"missing\":[2,3,4]}}\n",
    );
    assert_eq!(rt; json.as_str(), wanted);
    Ok(())
}
