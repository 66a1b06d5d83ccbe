//! What follows from the definitions alone. Each function is empty: its contract is the law.

ghost use Rattle.sms_field.specs.Field.{octet_by};
ghost use Rattle.sms_field.specs.Reading.Values.{Has};
ghost use Rattle.sms_tpdu.specs.Refusals.{IsRefusedOnce};
ghost use Rattle.sms_tpdu.specs.Sizes.{HasEachSpelling};
ghost use Rattle.sms_tpdu.specs.UnitLaws.{AreUnitLaws};
ghost use Rattle.sms_relay.specs.Carried.{OneMessageIsCarried};
ghost use Rattle.sms_relay.specs.Cp.{cp_message, SpellsCp};
ghost use Rattle.sms_relay.specs.Cp.Value.{IsCpMessage};
ghost use Rattle.sms_relay.specs.ReadOctets.{CpOctetsAre, RpOctetsAre};
ghost use Rattle.sms_relay.specs.Rp.{rp_message, SpellsRp, LacksUserData, MayFollow};
ghost use Rattle.sms_relay.specs.Rp.Cause.{rp_cause, SpellsCause};
ghost use Rattle.sms_relay.specs.Rp.UserData.{user_data, optional_user_data, SpellsUserData, SpellsOptionalUserData};
ghost use Rattle.sms_relay.specs.Rp.Value.{IsRpMessage};
ghost use Rattle.sms_relay.specs.Transaction.{transaction, SpellsTransaction};
ghost use Rattle.sms_relay.specs.Rp.Types.{TellsUnknownTypes, ReferenceIsSecond};
ghost use Rattle.sms_relay.specs.declared.fault.RelayFault.TheVariants.{Short};

/// A packet carries at most one message.
#[tactic(auto, using(crate::specs::Inside::CarriedLaws::one_message))]
pub fn packets_carry_one_message()
    ensures { OneMessageIsCarried }
{}

/// Messages are lawful fields, are written in octets, and are read back as written.
pub fn messages_are_fields()
    ensures cp { AreUnitLaws Short cp_message SpellsCp (λ _ _. Unit {0}) }
    ensures rp { AreUnitLaws Short rp_message SpellsRp MayFollow }
{}

/// The parts of messages are lawful fields, are written in octets, and are read back as written:
/// the transaction, the cause of an error, and user data, which may be left out.
pub fn parts_are_fields()
    ensures transaction { AreUnitLaws Short (octet_by Short transaction)
        SpellsTransaction (λ _ _. Unit {0}) }
    ensures cause { AreUnitLaws Short rp_cause SpellsCause (λ _ _. Unit {0}) }
    ensures user { AreUnitLaws Short user_data SpellsUserData (λ _ _. Unit {0}) }
    ensures optional { AreUnitLaws Short optional_user_data SpellsOptionalUserData LacksUserData }
{}

/// An input is refused as a message at one place and for one reason.
pub fn messages_are_refused_once()
    ensures cp { IsRefusedOnce Short cp_message }
    ensures rp { IsRefusedOnce Short rp_message }
{}

/// Octets are refused as an RP message of no known type just where their first octet names none.
pub fn unknown_types_are_told()
    ensures { TellsUnknownTypes }
{}

/// The reference of an RP message is its second octet.
pub fn references_are_second()
    ensures { ReferenceIsSecond }
{}

/// The user data that are read from octets are octets.
pub fn octets_are_read()
    ensures cp { CpOctetsAre }
    ensures rp { RpOctetsAre }
{}

/// What is read of octets has a spelling.
pub fn what_is_read_is_spelled()
    ensures cp { Has IsCpMessage cp_message }
    ensures rp { Has IsRpMessage rp_message }
{}

/// Each value of a message has a spelling.
pub fn values_are_spelled()
    ensures cp { HasEachSpelling IsCpMessage SpellsCp }
    ensures rp { HasEachSpelling IsRpMessage SpellsRp }
{}
