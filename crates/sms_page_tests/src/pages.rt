//! Pages of numbers, octets and JSON.

use sms_page::{Object, Page};
use std::test::Fail;

#[test]
fn numbers_and_octets_stand_one_behind_another(rt: HostRuntime) -> Result<(), Fail> {
    let mut page = Page::new(rt.alloc());
    for number in [0, 9, 10, 99, 100, 18_446_744_073_709_551_615] {
        page.put_decimal(number);
        page.put_one(b' ');
    }
    page.put_hexadecimal(&[]);
    page.put_octet(160);
    page.put_hexadecimal(&[0, 31, 255]);
    let octets = page.into_octets().map_err(|_| "memory")?;
    let wanted = b"0 9 10 99 100 18446744073709551615 -A0001FFF";
    assert_eq!(rt; octets.as_slice(), wanted.as_slice());
    Ok(())
}

#[test]
fn objects_have_commas(rt: HostRuntime) -> Result<(), Fail> {
    let mut object = Object::new(Page::new(rt.alloc()));
    object.open_list();
    object.open();
    object.number_named("reference", 7);
    object.text_named("text", "x");
    object.close();
    object.open();
    object.octets_named("octets", &[171]);
    object.name("none");
    object.open_list();
    object.close_list();
    object.close();
    object.nothing();
    object.flag(true);
    object.plain_text(b"plain");
    object.close_list();
    let octets = object.into_line().into_octets().map_err(|_| "memory")?;
    let wanted = concat!(
        "[{\"reference\":7,\"text\":\"x\"},{\"octets\":\"AB\",\"none\":[]},",
        "null,true,\"plain\"]\n"
    );
    assert_eq!(rt; octets.as_slice(), wanted.as_bytes());
    Ok(())
}

#[test]
fn a_page_goes_back_to_what_stood_before(rt: HostRuntime) -> Result<(), Fail> {
    let mut page = Page::new(rt.alloc());
    page.put(b"before");
    let before = page.count();
    page.put(b" and behind");
    page.cut();
    page.put(b"nothing");
    assert!(rt; page.is_cut());
    page.back_to(before);
    assert!(rt; !page.is_cut());
    page.put(b", again");
    let octets = page.into_octets().map_err(|_| "memory")?;
    assert_eq!(rt; octets.as_slice(), b"before, again".as_slice());
    Ok(())
}
