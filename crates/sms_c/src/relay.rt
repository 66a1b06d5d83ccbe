//! Messages of the relay and of the connection, read.

ghost use Rattle.std.specs.Prelude.{◌≡◌, ◌<◌, ℕ, true, false, List, length, drop, is_some, option_map};
ghost use Rattle.sms_field.specs.Reading.Lies.{TakesOctets};
ghost use Rattle.sms_field.specs.Reading.{Reads};
ghost use Rattle.sms_field.specs.RelayAddress.{relay_address};
ghost use Rattle.sms_field.specs.Reading.WholeAnswer.{IsFaultOf};
ghost use Rattle.sms_field.specs.declared.refusal.Fault.{Fault as TheFault};
ghost use Rattle.sms_relay.specs.Cp.{cp_message};
ghost use Rattle.sms_relay.specs.Cp.Seen.{seen_cp_body};
ghost use Rattle.sms_relay.specs.Cp.Value.{CpValue};
ghost use Rattle.sms_relay.specs.Rp.{rp_message};
ghost use Rattle.sms_relay.specs.Rp.Seen.{seen_rp_body};
ghost use Rattle.sms_relay.specs.Rp.Value.{RpValue};
ghost use Rattle.sms_relay.specs.declared.fault.RelayFault.{RelayFault};
ghost use Rattle.sms_relay.specs.declared.fault.RelayFault.TheVariants.{Short};
ghost use Rattle.sms_c.specs.Parts.{no_span};
ghost use Rattle.sms_c.specs.SeenRelay as seen;
ghost use Rattle.sms_c.specs.SeenRelay.{ShowsCp, ShowsRp};
ghost use Rattle.sms_c.specs.Status.{relay_refused as told};

use crate::parts::{Span, bit};
use crate::reading::report::octet_seen;
use crate::status::{OK, Refused, relay_refused};
use sms_field::RpAddressView;
use sms_relay::{CpBodyView, CpView, RpBodyView, RpView, Side};
use sms_tpdu::OctetsView;

/// A message of the connection, and where its user data lie.
#[repr(C)]
#[derive(Clone, Copy)]
pub struct CpSeen {
    /// The octets of an RP message, under kind 0.
    pub user: Span,
    /// How many octets the message takes.
    pub used: usize,
    pub flag: u8,
    pub value: u8,
    /// 0 CP-DATA, 1 CP-ACK, 2 CP-ERROR.
    pub kind: u8,
    /// CP-Cause, under kind 2.
    pub cause: u8,
}

/// A message of the relay, and where its parts lie.
#[repr(C)]
#[derive(Clone, Copy)]
pub struct RpSeen {
    /// The address of the service centre, under kind 0.
    pub address: Span,
    /// The octets of a unit.
    pub user: Span,
    /// How many octets the message takes.
    pub used: usize,
    /// 0 from the phone, 1 to it.
    pub side: u8,
    pub reference: u8,
    /// 0 RP-DATA, 1 RP-ACK, 2 RP-ERROR.
    pub kind: u8,
    pub has_address: u8,
    pub has_user: u8,
    /// RP-Cause, under kind 2.
    pub cause: u8,
    pub has_diagnostic: u8,
    pub diagnostic: u8,
}

/// So many octets before a place.
fn span_before(used: usize, length: Option<usize>) -> Span
    ensures { result ≡ seen.span_before used length }
{
    match length {
        Some(length) => Span {
            offset: used.saturating_sub(length),
            length,
        },
        None => Span::NONE,
    }
}

/// The number of a kind, and CP-Cause.
fn cp_kind_and_cause(body: &CpBodyView) -> (u8, u8)
    ensures kind { result.0 ≡ seen.cp_kind (seen_cp_body body.now) }
    ensures cause { result.1 ≡ seen.cp_cause (seen_cp_body body.now) }
{
    match body {
        CpBodyView::Transfer(_) => (0, 0),
        CpBodyView::Ack => (1, 0),
        CpBodyView::Fail(cause) => (2, *cause),
    }
}

/// How many octets the user data of a message of the connection have, where they are there.
fn cp_user_length(body: &CpBodyView) -> Option<usize>
    ensures { result ≡ option_map (λ user. length user) (seen.cp_user (seen_cp_body body.now)) }
{
    match body {
        CpBodyView::Transfer(user) => Some(user.as_slice().len()),
        _ => None,
    }
}

/// What C sees of a message of the connection that takes so many octets.
fn cp_seen(view: &CpView, used: usize) -> CpSeen
    ensures used { result.used ≡ used }
    ensures shows { (octets : List ℕ) → Reads cp_message view.now octets used
        → ShowsCp view.now octets result }
{
    let (kind, cause) = cp_kind_and_cause(&view.body);
    let length = cp_user_length(&view.body);
    CpSeen {
        user: span_before(used, length),
        used,
        flag: bit(view.flag),
        value: view.value,
        kind,
        cause,
    }
}

/// Sees a message of the connection at the front of the octets.
#[unsafe(no_mangle)]
pub extern "C" fn sms_cp_read(octets: &[u8], out: &mut CpSeen, refused: &mut Refused) -> u32
    ensures status { result < 2 }
    ensures untold { result ≡ 0 → refused.new ≡ refused.old }
    ensures read { result ≡ 0 → (value : CpValue)
        × Reads cp_message value octets.now out.new.used × ShowsCp value octets.now out.new }
    ensures refused { result ≡ 1 → (fault : TheFault RelayFault)
        × IsFaultOf cp_message Short octets.now fault × (refused.new ≡ told fault)
        × (out.new ≡ out.old) }
{
    match CpView::read(octets) {
        Ok((view, used)) => {
            *out = cp_seen(&view, used);
            OK
        }
        Err(fault) => relay_refused(refused, fault),
    }
}

/// The number of a side.
fn side_number(side: Side) -> u8
    ensures { result ≡ seen.side_number side }
{
    match side {
        Side::FromPhone => 0,
        Side::ToPhone => 1,
    }
}

/// The number of a kind, RP-Cause and its diagnostic.
fn rp_kind_and_cause(body: &RpBodyView) -> (u8, u8, Option<u8>)
    ensures kind { result.0 ≡ seen.rp_kind (seen_rp_body body.now) }
    ensures cause { result.1 ≡ seen.rp_cause (seen_rp_body body.now) }
    ensures diagnostic { result.2 ≡ seen.rp_diagnostic (seen_rp_body body.now) }
{
    match body {
        RpBodyView::Transfer { .. } => (0, 0, None),
        RpBodyView::Ack { .. } => (1, 0, None),
        RpBodyView::Fail {
            cause,
            diagnostic,
            ..
        } => (2, *cause, *diagnostic),
    }
}

/// Whether there is an address of a service centre.
fn has_address(body: &RpBodyView) -> bool
    ensures { result ≡ is_some (seen.rp_address (seen_rp_body body.now)) }
{
    match body {
        RpBodyView::Transfer { address, .. } => address.is_some(),
        _ => false,
    }
}

/// How many octets some user data have.
fn length_of(user: &Option<OctetsView>) -> Option<usize>
    ensures { result ≡ option_map (λ user. length user) user.now }
{
    Some(user.as_ref()?.as_slice().len())
}

/// How many octets the user data have, where they are there.
fn rp_user_length(body: &RpBodyView) -> Option<usize>
    ensures { result ≡ option_map (λ user. length user) (seen.rp_user (seen_rp_body body.now)) }
{
    match body {
        RpBodyView::Transfer { user, .. } => Some(user.as_slice().len()),
        RpBodyView::Ack { user } => length_of(user),
        RpBodyView::Fail { user, .. } => length_of(user),
    }
}

/// How many octets stand before the address of an RP-DATA.
fn before_address(side: Side) -> usize
    ensures { result ≡ seen.before_address side }
{
    match side {
        Side::FromPhone => 3,
        Side::ToPhone => 2,
    }
}

/// Where the address lies, with its length octet, that begins after so many octets. Not looked at
/// is whether it can be read.
fn address_after(octets: &[u8], before: usize) -> Span
    ensures begins { result.offset ≡ before }
    ensures takes { TakesOctets relay_address (drop before octets.now) result.length }
{
    let (_, after) = octets.split_at(before.min(octets.len()));
    Span {
        offset: before,
        length: RpAddressView::length_in(after),
    }
}

/// Where the address of an RP-DATA lies, if it is there.
fn address_span(octets: &[u8], side: Side, there: bool) -> Span
    ensures none { there ≡ false → result ≡ no_span }
    ensures begins { there ≡ true → result.offset ≡ seen.before_address side }
    ensures takes { there ≡ true → TakesOctets relay_address
        (drop (seen.before_address side) octets.now) result.length }
{
    if !there {
        return Span::NONE;
    }
    address_after(octets, before_address(side))
}

/// What C sees of a message of the relay that takes so many of the octets.
fn rp_seen(octets: &[u8], view: &RpView, used: usize) -> RpSeen
    requires { Reads rp_message view.now octets.now used }
    ensures used { result.used ≡ used }
    ensures shows { ShowsRp view.now octets.now result }
{
    let (kind, cause, diagnostic) = rp_kind_and_cause(&view.body);
    let (has_diagnostic, diagnostic) = octet_seen(diagnostic);
    let addressed = has_address(&view.body);
    let length = rp_user_length(&view.body);
    RpSeen {
        address: address_span(octets, view.side, addressed),
        user: span_before(used, length),
        used,
        side: side_number(view.side),
        reference: view.reference,
        kind,
        has_address: bit(addressed),
        has_user: bit(length.is_some()),
        cause,
        has_diagnostic,
        diagnostic,
    }
}

/// Sees a message of the relay at the front of the octets.
#[unsafe(no_mangle)]
pub extern "C" fn sms_rp_read(octets: &[u8], out: &mut RpSeen, refused: &mut Refused) -> u32
    ensures status { result < 2 }
    ensures untold { result ≡ 0 → refused.new ≡ refused.old }
    ensures read { result ≡ 0 → (value : RpValue)
        × Reads rp_message value octets.now out.new.used × ShowsRp value octets.now out.new }
    ensures refused { result ≡ 1 → (fault : TheFault RelayFault)
        × IsFaultOf rp_message Short octets.now fault × (refused.new ≡ told fault)
        × (out.new ≡ out.old) }
{
    match RpView::read(octets) {
        Ok((view, used)) => {
            *out = rp_seen(octets, &view, used);
            OK
        }
        Err(fault) => relay_refused(refused, fault),
    }
}
