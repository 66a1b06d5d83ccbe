//! Octets in a message, and user data of the relay.

ghost use Rattle.std.specs.Prelude.{◌≡◌, ◌≤◌, ◌++◌, length, IfOk, OnOk};
ghost use Rattle.sms_text.specs.Octets.{IsOctets};
ghost use Rattle.sms_field.specs.Field.{octets_of};
ghost use Rattle.sms_field.specs.Reading.Answer.{Sees};
ghost use Rattle.sms_relay.specs.Rp.UserData.{user_data, optional_user_data, user_octets, optional_user_octets, IsUserData, IsOptionalUserData};
ghost use Rattle.sms_relay.specs.declared.fault.RelayFault.TheVariants.{Short};

use crate::fault::RelayFault;
use sms_field::{Cursor, Fault};
use sms_tpdu::{Octets, OctetsView};
use std::alloc::AllocError;

/// The most octets that RP-User data may have (3GPP TS 24.011, 8.2.5.3).
pub const USER_DATA_MAX: u8 = 233;

/// The octet before user data that may be left out.
pub const USER_DATA_TAG: u8 = 0x41;

/// The next octets, as many as are counted.
pub fn octets_at<'a>(input: &mut Cursor<'a>, count: u8) -> Result<OctetsView<'a>, Fault<RelayFault>>
    ensures many { IfOk result (λ octets. length octets ≡ count) }
    ensures small { IfOk result IsOctets }
    ensures read { Sees (octets_of Short count) input.old result input.new }
{
    let octets = input.take_octets(count as usize)?;
    Ok(OctetsView::new(octets))
}

/// User data.
#[tactic(auto, unfolding(crate::specs::Rp::UserData::user_data))]
pub fn user_data_at<'a>(input: &mut Cursor<'a>) -> Result<OctetsView<'a>, Fault<RelayFault>>
    ensures fits { IfOk result IsUserData }
    ensures read { Sees user_data input.old result input.new }
{
    let count = input.take_octet_up_to(USER_DATA_MAX, RelayFault::DataTooLong)?;
    octets_at(input, count)
}

/// User data after their tag, or none where no tag stands.
pub fn optional_user_data_at<'a>(
    input: &mut Cursor<'a>,
) -> Result<Option<OctetsView<'a>>, Fault<RelayFault>>
    ensures fits { IfOk result IsOptionalUserData }
    ensures read { Sees optional_user_data input.old result input.new }
{
    match input.rest() {
        [tag, ..] if *tag == USER_DATA_TAG => {
            input.take_octet()?;
            let user = user_data_at(input)?;
            Ok(Some(user))
        }
        _ => Ok(None),
    }
}

/// Room for user data after their tag.
pub fn room_for_user_data(user: &Option<Octets>) -> usize
    requires { IsOptionalUserData user.now }
    ensures enough { length (optional_user_octets user.now) ≤ result }
    ensures few { result ≤ 235 }
{
    match user {
        Some(user) => 2 + user.as_slice().len(),
        None => 0,
    }
}

/// Adds these octets as user data, with their length before them.
pub fn put_octets(out: &mut Vec<u8>, octets: &[u8]) -> Result<(), AllocError>
    requires { length octets.now ≤ USER_DATA_MAX }
    ensures { OnOk result (out.new.items ≡ out.old.items ++ user_octets octets.now) }
{
    out.push(octets.len() as u8)?;
    out.extend_from_slice(octets)
}

/// Adds user data, with their length before them.
pub fn put_user_data(out: &mut Vec<u8>, user: &Octets) -> Result<(), AllocError>
    requires { IsUserData user.now }
    ensures { OnOk result (out.new.items ≡ out.old.items ++ user_octets user.now) }
{
    put_octets(out, user.as_slice())
}

/// Adds user data after their tag, where there are any.
pub fn put_optional_user_data(out: &mut Vec<u8>, user: &Option<Octets>) -> Result<(), AllocError>
    requires { IsOptionalUserData user.now }
    ensures { OnOk result (out.new.items ≡ out.old.items ++ optional_user_octets user.now) }
{
    match user {
        Some(user) => {
            out.push(USER_DATA_TAG)?;
            put_user_data(out, user)
        }
        None => Ok(()),
    }
}
