//! Octets that are read from hexadecimal digits.

use sms_page::put_octets;
use std::test::Fail;

#[test]
fn digits_of_either_case_are_read_by_blocks(rt: HostRuntime) -> Result<(), Fail> {
    let mut room = [0u8; 20];
    let digits = b"000102030405060708090a0b0c0d0e0f10aBFf7f";
    assert_eq!(rt; put_octets(&mut room, digits, false), Ok(20));
    let wanted = [
        0, 1, 2, 3, 4, 5, 6, 7, 8, 9, 10, 11, 12, 13, 14, 15, 16, 171, 255, 127,
    ];
    assert_eq!(rt; room, wanted);
    Ok(())
}

#[test]
fn the_first_that_is_wrong_is_found(rt: HostRuntime) -> Result<(), Fail> {
    let mut room = [0u8; 3];
    assert_eq!(rt; put_octets(&mut room, b"0a 0B ", true), Ok(2));
    assert_eq!(rt; put_octets(&mut room, b"0a 0B ", false), Err(2));
    assert_eq!(rt; put_octets(&mut room, b"0a 0B0", true), Err(6));
    assert_eq!(rt; put_octets(&mut room, b"0a 0 B", true), Err(4));
    assert_eq!(rt; put_octets(&mut room, b"0g0h0i", true), Err(1));
    Ok(())
}
