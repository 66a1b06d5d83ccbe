//! What the status of a message says.

ghost use Rattle.std.specs.Prelude.{◌≡◌, ◌%◌, get_or};
ghost use Rattle.sms_tpdu.specs.StatusReport.Status.{counts_as, group_of, meaning_of, named_values, status_of};
ghost use Rattle.sms_tpdu.specs.declared.status_report.status.StatusGroup.TheVariants as group;
ghost use Rattle.sms_tpdu.specs.declared.status_report.status.StatusMeaning.TheVariants as meaning;
ghost use Rattle.sms_field.specs.Bit.{bit};

use sms_field::has_bit;

/// How it stands with a message, in general.
#[derive(Clone, Copy, Debug, PartialEq, Eq)]
pub enum StatusGroup {
    /// The transaction is completed.
    Completed,
    /// There is a temporary error, and the service centre still tries to deliver.
    StillTrying,
    /// There is a permanent error, and the service centre does not try any more.
    PermanentError,
    /// There is a temporary error, and the service centre does not try any more.
    TemporaryError,
    /// The standard leaves it open. No octet has this group: a phone takes each reserved value as
    /// 63, which is a `TemporaryError`.
    Reserved,
}

/// What is said of a message within a group. An SME is a short message entity, as a phone.
#[derive(Clone, Copy, Debug, PartialEq, Eq)]
pub enum StatusMeaning {
    /// The SME has received the message.
    Received,
    /// The message was forwarded to the SME, but the centre cannot confirm that it was delivered.
    Unconfirmed,
    /// The service centre has replaced the message.
    Replaced,
    /// Congestion.
    Congestion,
    /// The SME is busy.
    Busy,
    /// The SME does not respond.
    NoResponse,
    /// The service was rejected.
    ServiceRejected,
    /// The quality of service is not available.
    QualityNotAvailable,
    /// There is an error in the SME.
    EntityError,
    /// Remote procedure error.
    ProcedureError,
    /// The destination is incompatible.
    Incompatible,
    /// The SME has rejected the connection.
    ConnectionRejected,
    /// The destination is not obtainable.
    NotObtainable,
    /// No interworking is available.
    NoInterworking,
    /// The validity period of the message has ended.
    Expired,
    /// The SME that sent the message has deleted it.
    DeletedBySender,
    /// The administration of the service centre has deleted the message.
    DeletedByCentre,
    /// The service centre knows of no such message.
    Unknown,
    /// The service centre gives the value a meaning of its own.
    CentreSpecific,
    /// The standard leaves it open. A phone takes it as 63, `ServiceRejected` without more
    /// attempts, whose group it has.
    Reserved,
}

/// What TP-ST says of a message (TS 23.040, 9.2.3.15).
#[derive(Clone, Copy, Debug, PartialEq, Eq)]
pub struct Status {
    /// How it stands in general.
    pub group: StatusGroup,
    /// What is said within the group.
    pub meaning: StatusMeaning,
}

impl StatusGroup {
    /// The group that an octet names.
    fn of(octet: u8) -> StatusGroup
        ensures { result ≡ group_of (bit 7 octet) (bit 6 octet) (bit 5 octet) }
    {
        match (has_bit(octet, 7), has_bit(octet, 6), has_bit(octet, 5)) {
            (false, false, false) => StatusGroup::Completed,
            (false, false, true) => StatusGroup::StillTrying,
            (false, true, false) => StatusGroup::PermanentError,
            (false, true, true) => StatusGroup::TemporaryError,
            (true, _, _) => StatusGroup::Reserved,
        }
    }
}

/// What the low half of an octet says where the transaction is completed.
fn completed(low: u8) -> StatusMeaning
    ensures { result ≡ get_or (named_values group.Completed) low meaning.Reserved }
{
    match low {
        0 => StatusMeaning::Received,
        1 => StatusMeaning::Unconfirmed,
        2 => StatusMeaning::Replaced,
        _ => StatusMeaning::Reserved,
    }
}

/// What the low half of an octet says of a temporary error.
fn temporary_error(low: u8) -> StatusMeaning
    ensures { result ≡ get_or (named_values group.TemporaryError) low meaning.Reserved }
{
    match low {
        0 => StatusMeaning::Congestion,
        1 => StatusMeaning::Busy,
        2 => StatusMeaning::NoResponse,
        3 => StatusMeaning::ServiceRejected,
        4 => StatusMeaning::QualityNotAvailable,
        5 => StatusMeaning::EntityError,
        _ => StatusMeaning::Reserved,
    }
}

/// What the low half of an octet says of a permanent error.
fn permanent_error(low: u8) -> StatusMeaning
    ensures { result ≡ get_or (named_values group.PermanentError) low meaning.Reserved }
{
    match low {
        0 => StatusMeaning::ProcedureError,
        1 => StatusMeaning::Incompatible,
        2 => StatusMeaning::ConnectionRejected,
        3 => StatusMeaning::NotObtainable,
        4 => StatusMeaning::QualityNotAvailable,
        5 => StatusMeaning::NoInterworking,
        6 => StatusMeaning::Expired,
        7 => StatusMeaning::DeletedBySender,
        8 => StatusMeaning::DeletedByCentre,
        9 => StatusMeaning::Unknown,
        _ => StatusMeaning::Reserved,
    }
}

/// What an octet says within its group.
fn meaning_in(group: StatusGroup, octet: u8) -> StatusMeaning
    ensures { result ≡ meaning_of group (bit 4 octet) (octet % 16) }
{
    let own = has_bit(octet, 4);
    match group {
        StatusGroup::Reserved => StatusMeaning::Reserved,
        _ if own => StatusMeaning::CentreSpecific,
        StatusGroup::Completed => completed(octet % 16),
        StatusGroup::StillTrying | StatusGroup::TemporaryError => temporary_error(octet % 16),
        StatusGroup::PermanentError => permanent_error(octet % 16),
    }
}

/// The group that a value counts as: where it is reserved, the one of 63.
fn counts_as(group: StatusGroup, meaning: StatusMeaning) -> StatusGroup
    ensures { result ≡ counts_as group meaning }
{
    match meaning {
        StatusMeaning::Reserved => StatusGroup::TemporaryError,
        _ => group,
    }
}

impl Status {
    /// What an octet says. Every octet says something: those without a name are reserved, and count
    /// as 63, a temporary error after which the service centre does not try any more.
    pub fn of(octet: u8) -> Status
        ensures { result ≡ status_of octet }
    {
        let known = StatusGroup::of(octet);
        let meaning = meaning_in(known, octet);
        Status {
            group: counts_as(known, meaning),
            meaning,
        }
    }
}
