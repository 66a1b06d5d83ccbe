//! What the phone wrote, where it lies in a record.

ghost use Rattle.std.specs.Prelude.{◌≡◌, IfOk};
ghost use Rattle.sms_field.specs.Field.{map_reason};
ghost use Rattle.sms_field.specs.Reading.Answer.{Sees, SeesAs};
ghost use Rattle.sms_tpdu.specs.Command.{command};
ghost use Rattle.sms_tpdu.specs.Submit.{submit};
ghost use Rattle.sms_card.specs.Fault.{record_fault};
ghost use Rattle.sms_card.specs.Originated.{originated_unit, originated_as};
ghost use Rattle.sms_card.specs.Originated.Seen.{seen_originated};

use crate::fault::RecordFault;
use crate::originated::{OriginatedKind, OriginatedUnit};
use crate::padding::padding_at;
use sms_field::{Cursor, Fault};
use sms_tpdu::{CommandView, SubmitView, View};
use std::alloc::{AllocError, Global};

/// A unit of the phone, where it lies: TP-MTI tells which.
#[derive(Drop)]
pub enum OriginatedView<'a> {
    /// SMS-SUBMIT.
    Submit(SubmitView<'a>),
    /// SMS-COMMAND.
    Command(CommandView<'a>),
}

/// A submission, refused for a record's reasons.
fn submit_at<'a>(input: &mut Cursor<'a>) -> Result<SubmitView<'a>, Fault<RecordFault>>
    ensures { Sees (map_reason record_fault submit) input.old result input.new }
{
    SubmitView::read_at(input).map_err(Fault::map_reason)
}

/// A command, refused for a record's reasons.
fn command_at<'a>(input: &mut Cursor<'a>) -> Result<CommandView<'a>, Fault<RecordFault>>
    ensures { Sees (map_reason record_fault command) input.old result input.new }
{
    CommandView::read_at(input).map_err(Fault::map_reason)
}

/// A unit of a kind, and FF to the end.
#[tactic(auto, unfolding(crate::specs::Originated::originated_as))]
fn originated_as_at<'a>(
    input: &mut Cursor<'a>,
    kind: OriginatedKind,
) -> Result<OriginatedView<'a>, Fault<RecordFault>>
    ensures { SeesAs seen_originated (originated_as kind) input.old result input.new }
{
    match kind {
        OriginatedKind::Submit => {
            let submit = submit_at(input)?;
            padding_at(input)?;
            Ok(OriginatedView::Submit(submit))
        }
        OriginatedKind::Command => {
            let command = command_at(input)?;
            padding_at(input)?;
            Ok(OriginatedView::Command(command))
        }
    }
}

/// A unit, and FF to the end.
pub fn originated_at<'a>(input: &mut Cursor<'a>) -> Result<OriginatedView<'a>, Fault<RecordFault>>
    ensures { SeesAs seen_originated originated_unit input.old result input.new }
{
    let place = input.place();
    match input.rest() {
        [] => Err(Fault {
            place,
            why: RecordFault::Short,
        }),
        [first, ..] => match OriginatedKind::from_octet(*first) {
            Ok(kind) => originated_as_at(input, kind),
            Err(why) => Err(Fault { place, why }),
        },
    }
}

impl<'a> OriginatedView<'a> {
    /// The unit itself.
    pub fn to_value(&self, alloc: Global) -> Result<OriginatedUnit, AllocError>
        ensures { IfOk result (λ unit. unit ≡ seen_originated self.now) }
    {
        match self {
            OriginatedView::Submit(submit) => {
                let submit = submit.to_value(alloc)?;
                Ok(OriginatedUnit::Submit(submit))
            }
            OriginatedView::Command(command) => {
                let command = command.to_value(alloc)?;
                Ok(OriginatedUnit::Command(command))
            }
        }
    }
}
