//! The octets of user data that C gives to be written.

ghost use Rattle.std.specs.Prelude.{◌≡◌, ◌≤◌, ◌<◌, ◌+◌, false, length, Some, Ok, IfOk, IfErr, MatchResult};
ghost use Rattle.sms_field.specs.Coding.{alphabet_at};
ghost use Rattle.sms_field.specs.declared.coding.Alphabet.TheVariants.{EightBit, Ucs2, Compressed};
ghost use Rattle.sms_tpdu.specs.UserData.{FitsAlphabet};
ghost use Rattle.sms_c.specs.Answered.{Fails};
ghost use Rattle.sms_c.specs.DataWriting as given;
ghost use Rattle.sms_c.specs.Status.{IsNotRoom};

use crate::status::Failure;
use sms_field::{Alphabet, alphabet_of};
use sms_tpdu::{Body, Header, OCTETS_MAX, Octets, UserData};
use std::alloc::{AllocError, Global};

/// The user data of octets without a header.
fn bare(alloc: Global, octets: &[u8]) -> Result<UserData, AllocError>
    requires { length octets.now ≤ OCTETS_MAX }
    ensures user { IfOk result (λ user. given.in_parts false octets.now ≡ Ok user) }
    ensures eight { IfOk result (FitsAlphabet EightBit) }
    ensures ucs2 { IfOk result (FitsAlphabet Ucs2) }
    ensures compressed { IfOk result (FitsAlphabet Compressed) }
{
    let body = Octets::from_slice(alloc, octets)?;
    Ok(UserData {
        header: None,
        body: Body::Octets(body),
    })
}

/// The user data of octets of which so many are a header.
fn headed(alloc: Global, header: &[u8], body: &[u8]) -> Result<UserData, AllocError>
    requires { length header.now + length body.now < OCTETS_MAX }
    ensures user { IfOk result (λ user. user ≡ record {
      header = Some header.now;
      body = Body.Octets body.now;
    }) }
    ensures eight { IfOk result (FitsAlphabet EightBit) }
    ensures ucs2 { IfOk result (FitsAlphabet Ucs2) }
    ensures compressed { IfOk result (FitsAlphabet Compressed) }
{
    let header = Header::from_slice(alloc, header)?;
    let body = Octets::from_slice(alloc, body)?;
    Ok(UserData {
        header: Some(header),
        body: Body::Octets(body),
    })
}

/// The user data of octets, which begin with a header or not.
fn in_parts(alloc: Global, has_header: bool, octets: &[u8]) -> Result<UserData, Failure>
    requires { length octets.now ≤ OCTETS_MAX }
    ensures user { MatchResult result (λ user. given.in_parts has_header octets.now ≡ Ok user)
        (λ why. Fails (given.in_parts has_header octets.now) why) }
    ensures eight { IfOk result (FitsAlphabet EightBit) }
    ensures ucs2 { IfOk result (FitsAlphabet Ucs2) }
    ensures compressed { IfOk result (FitsAlphabet Compressed) }
    ensures room { IfErr result IsNotRoom }
{
    if !has_header {
        return Ok(bare(alloc, octets)?);
    }
    let [size, others @ ..] = octets else {
        return Err(Failure::OutOfRange);
    };
    let size = usize::from(*size);
    if size > others.len() {
        return Err(Failure::OutOfRange);
    }
    let (header, body) = others.split_at(size);
    Ok(headed(alloc, header, body)?)
}

/// The user data of at most 140 octets, under an alphabet that counts in octets.
fn under(
    alloc: Global,
    alphabet: Alphabet,
    has_header: bool,
    octets: &[u8],
) -> Result<UserData, Failure>
    ensures user { MatchResult result
        (λ user. given.of_octets alphabet has_header octets.now ≡ Ok user)
        (λ why. Fails (given.of_octets alphabet has_header octets.now) why) }
    ensures fits { IfOk result (FitsAlphabet alphabet) }
    ensures room { IfErr result IsNotRoom }
{
    if alphabet == Alphabet::Gsm7 {
        return Err(Failure::OutOfRange);
    }
    if octets.len() > OCTETS_MAX {
        return Err(Failure::TooLong);
    }
    in_parts(alloc, has_header, octets)
}

/// The user data of octets under a TP-DCS.
pub fn data_given(
    alloc: Global,
    dcs: u8,
    has_header: bool,
    octets: &[u8],
) -> Result<UserData, Failure>
    ensures user { MatchResult result
        (λ user. given.of_octets (alphabet_at dcs) has_header octets.now ≡ Ok user)
        (λ why. Fails (given.of_octets (alphabet_at dcs) has_header octets.now) why) }
    ensures fits { IfOk result (FitsAlphabet (alphabet_at dcs)) }
    ensures room { IfErr result IsNotRoom }
{
    under(alloc, alphabet_of(dcs), has_header, octets)
}
