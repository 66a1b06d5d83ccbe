//! What follows from the definitions alone. Each function is empty: its contract is the law.

ghost use Rattle.sms_field.specs.Reading.Values.{Has};
ghost use Rattle.sms_tpdu.specs.Refusals.{TellsOtherTypes, IsRefusedOnce};
ghost use Rattle.sms_tpdu.specs.Sizes.{greatest_size, greatest_status_size, greatest_command_size, IsWithin, HasEachSpelling};
ghost use Rattle.sms_tpdu.specs.Deliver.{deliver, IsDeliverable, SpellsDeliver};
ghost use Rattle.sms_tpdu.specs.Deliver.Flags.{deliver_flags};
ghost use Rattle.sms_tpdu.specs.Submit.{submit, IsSubmittable, SpellsSubmit};
ghost use Rattle.sms_tpdu.specs.Submit.Flags.{submit_flags};
ghost use Rattle.sms_tpdu.specs.Report.Octet.{submit_report, deliver_report};
ghost use Rattle.sms_tpdu.specs.Report.{deliver_ack, deliver_error, submit_ack, submit_error, IsDeliverAck, IsDeliverError, IsSubmitAck, IsSubmitError, SpellsDeliverAck, SpellsDeliverError, SpellsSubmitAck, SpellsSubmitError};
ghost use Rattle.sms_tpdu.specs.StatusReport.{status_report, IsStatusReport, SpellsStatusReport};
ghost use Rattle.sms_tpdu.specs.StatusReport.Flags.{status_report_flags};
ghost use Rattle.sms_tpdu.specs.Command.{command, IsCommand, SpellsCommand};
ghost use Rattle.sms_tpdu.specs.Command.Flags.{command_flags};
ghost use Rattle.sms_tpdu.specs.UserData.ConcatenationFound.{ElementsAreOne, ConcatIsThere, ConcatIsOne, ConcatIsPlace};
ghost use Rattle.sms_tpdu.specs.UserData.Spans.{UserDataLie};
ghost use Rattle.sms_tpdu.specs.UserData.Header.{header, IsHeader, SpellsHeader};
ghost use Rattle.sms_tpdu.specs.declared.fault.UnitFault.TheVariants.{Short};

/// A unit is refused as one of another type just where its first octet is that of one.
pub fn other_types_are_told()
    ensures submit { TellsOtherTypes submit submit_flags }
    ensures deliver { TellsOtherTypes deliver deliver_flags }
    ensures submit_ack { TellsOtherTypes submit_ack submit_report }
    ensures submit_error { TellsOtherTypes submit_error submit_report }
    ensures deliver_ack { TellsOtherTypes deliver_ack deliver_report }
    ensures deliver_error { TellsOtherTypes deliver_error deliver_report }
    ensures status_report { TellsOtherTypes status_report status_report_flags }
    ensures command { TellsOtherTypes command command_flags }
{}

/// An input is refused as a unit, or as a header, at one place and for one reason.
pub fn units_are_refused_once()
    ensures submit { IsRefusedOnce Short submit }
    ensures deliver { IsRefusedOnce Short deliver }
    ensures submit_ack { IsRefusedOnce Short submit_ack }
    ensures submit_error { IsRefusedOnce Short submit_error }
    ensures deliver_ack { IsRefusedOnce Short deliver_ack }
    ensures deliver_error { IsRefusedOnce Short deliver_error }
    ensures status_report { IsRefusedOnce Short status_report }
    ensures command { IsRefusedOnce Short command }
    ensures header { IsRefusedOnce Short header }
{}

/// A transfer unit is written in at most 172 octets, an SMS-COMMAND in at most 175, and an
/// SMS-STATUS-REPORT in at most 192.
pub fn units_are_short()
    ensures submit { IsWithin greatest_size SpellsSubmit }
    ensures deliver { IsWithin greatest_size SpellsDeliver }
    ensures submit_ack { IsWithin greatest_size SpellsSubmitAck }
    ensures submit_error { IsWithin greatest_size SpellsSubmitError }
    ensures deliver_ack { IsWithin greatest_size SpellsDeliverAck }
    ensures deliver_error { IsWithin greatest_size SpellsDeliverError }
    ensures status_report { IsWithin greatest_status_size SpellsStatusReport }
    ensures command { IsWithin greatest_command_size SpellsCommand }
{}

/// Each value of a unit has a spelling, and so has each header.
pub fn values_are_spelled()
    ensures submit { HasEachSpelling IsSubmittable SpellsSubmit }
    ensures deliver { HasEachSpelling IsDeliverable SpellsDeliver }
    ensures submit_ack { HasEachSpelling IsSubmitAck SpellsSubmitAck }
    ensures submit_error { HasEachSpelling IsSubmitError SpellsSubmitError }
    ensures deliver_ack { HasEachSpelling IsDeliverAck SpellsDeliverAck }
    ensures deliver_error { HasEachSpelling IsDeliverError SpellsDeliverError }
    ensures status_report { HasEachSpelling IsStatusReport SpellsStatusReport }
    ensures command { HasEachSpelling IsCommand SpellsCommand }
    ensures header { HasEachSpelling IsHeader SpellsHeader }
{}

/// What is read of octets has a spelling.
pub fn what_is_read_is_spelled()
    ensures submit { Has IsSubmittable submit }
    ensures deliver { Has IsDeliverable deliver }
    ensures submit_ack { Has IsSubmitAck submit_ack }
    ensures submit_error { Has IsSubmitError submit_error }
    ensures deliver_ack { Has IsDeliverAck deliver_ack }
    ensures deliver_error { Has IsDeliverError deliver_error }
    ensures status_report { Has IsStatusReport status_report }
    ensures command { Has IsCommand command }
    ensures header { Has IsHeader header }
{}

/// A header has one list of elements.
pub fn elements_are_one()
    ensures { ElementsAreOne }
{}

/// The place of a segment that a header tells is the one that is computed.
pub fn places_are_computed()
    ensures there { ConcatIsThere }
    ensures one { ConcatIsOne }
    ensures in_range { ConcatIsPlace }
{}

/// User data lie in the octets of which they were read where their spans say.
pub fn user_data_lie()
    ensures { UserDataLie }
{}
