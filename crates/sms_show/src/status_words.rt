//! What a status report and a command say, in words.

ghost use Rattle.std.specs.Prelude.{◌≡◌, true};
ghost use Rattle.std.specs.List.{list_all};
ghost use Rattle.sms_page.specs.Plain.{is_plain};

use sms_answer::{Line, Members, Printed};
use sms_tpdu::{CommandKind, Status, StatusGroup, StatusMeaning};

/// The words of a group.
fn group_words(group: StatusGroup) -> &'static str
    ensures { list_all (is_plain 34) result.now ≡ true }
{
    match group {
        StatusGroup::Completed => "completed",
        StatusGroup::StillTrying => "still trying",
        StatusGroup::PermanentError => "permanent error",
        StatusGroup::TemporaryError => "temporary error",
        StatusGroup::Reserved => "reserved",
    }
}

/// Whether the message did not come, or not yet.
fn is_failure(group: StatusGroup) -> bool {
    match group {
        StatusGroup::StillTrying | StatusGroup::PermanentError => true,
        StatusGroup::TemporaryError => true,
        StatusGroup::Completed | StatusGroup::Reserved => false,
    }
}

/// The words of a status within its group.
fn meaning_words(meaning: StatusMeaning) -> &'static str
    ensures { list_all (is_plain 34) result.now ≡ true }
{
    match meaning {
        StatusMeaning::Received => "received",
        StatusMeaning::Unconfirmed => "forwarded, delivery not confirmed",
        StatusMeaning::Replaced => "replaced by the service centre",
        StatusMeaning::Congestion => "congestion",
        StatusMeaning::Busy => "SME busy",
        StatusMeaning::NoResponse => "no response from SME",
        StatusMeaning::ServiceRejected => "service rejected",
        StatusMeaning::QualityNotAvailable => "quality of service not available",
        StatusMeaning::EntityError => "error in SME",
        StatusMeaning::ProcedureError => "remote procedure error",
        StatusMeaning::Incompatible => "incompatible destination",
        StatusMeaning::ConnectionRejected => "connection rejected by SME",
        StatusMeaning::NotObtainable => "not obtainable",
        StatusMeaning::NoInterworking => "no interworking available",
        StatusMeaning::Expired => "validity period expired",
        StatusMeaning::DeletedBySender => "deleted by originating SME",
        StatusMeaning::DeletedByCentre => "deleted by service centre administration",
        StatusMeaning::Unknown => "message does not exist",
        StatusMeaning::CentreSpecific => "service centre specific",
        StatusMeaning::Reserved => "reserved",
    }
}

/// TP-ST: its octet, its group where it is no success, and what it says.
#[derive(Clone, Copy)]
pub struct StatusText(pub u8);

impl Printed for StatusText {
    fn plain(&self, line: &mut Line) {
        let status = Status::of(self.0);
        line.put_octet(self.0);
        line.put(b" ");
        if is_failure(status.group) {
            line.put_word(group_words(status.group));
            line.put(b": ");
        }
        line.put_word(meaning_words(status.meaning));
    }

    fn json(&self, members: &mut Members) {
        let status = Status::of(self.0);
        members.open();
        members.number_named("octet", u64::from(self.0));
        members.text_named("group", group_words(status.group));
        members.text_named("meaning", meaning_words(status.meaning));
        members.close();
    }
}

/// The words of what a command asks.
fn command_words(kind: CommandKind) -> &'static str
    ensures { list_all (is_plain 34) result.now ≡ true }
{
    match kind {
        CommandKind::Enquiry => "enquiry",
        CommandKind::CancelReport => "cancel status report request",
        CommandKind::Delete => "delete",
        CommandKind::EnableReport => "enable status report request",
        CommandKind::CentreSpecific => "service centre specific",
        CommandKind::Reserved => "reserved",
    }
}

/// TP-CT: its octet, and what it asks.
#[derive(Clone, Copy)]
pub struct CommandText(pub u8);

impl Printed for CommandText {
    fn plain(&self, line: &mut Line) {
        line.put_octet(self.0);
        line.put(b" ");
        line.put_word(command_words(CommandKind::of(self.0)));
    }

    fn json(&self, members: &mut Members) {
        members.open();
        members.number_named("octet", u64::from(self.0));
        members.text_named("meaning", command_words(CommandKind::of(self.0)));
        members.close();
    }
}
