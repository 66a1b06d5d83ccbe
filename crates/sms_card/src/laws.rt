//! What follows from the definitions alone. Each function is empty: its contract is the law.

ghost use Rattle.sms_tpdu.specs.UnitLaws.{AreUnitLaws};
ghost use Rattle.sms_card.specs.Stored.Laws.{WrittenIsRead, TooLongIsUnwritten};
ghost use Rattle.sms_card.specs.Stored.{card_record, SpellsRecord, EndsHere};
ghost use Rattle.sms_card.specs.declared.fault.RecordFault.TheVariants.{Short};

/// Records are a lawful field, are written in octets, and are read back as written where nothing
/// follows them.
pub fn records_are_fields()
    ensures { AreUnitLaws Short card_record SpellsRecord EndsHere }
{}

/// The octets of a record are read as it; and so are those in which a record is written that was
/// read.
pub fn records_come_back()
    ensures { WrittenIsRead }
{}

/// A record whose status, centre and unit have more than 176 octets has no octets.
pub fn long_records_are_unwritten()
    ensures { TooLongIsUnwritten }
{}
