//! What follows from the definitions alone. Each function is empty: its contract is the law.

ghost use Rattle.std.specs.Prelude.{◌≡◌};
ghost use Rattle.sms_field.specs.Address.NamePacking.{NamesArePacked, OnlyNamesArePacked};
ghost use Rattle.sms_field.specs.Address.{address};
ghost use Rattle.sms_field.specs.Address.Value.{HasSpelling};
ghost use Rattle.sms_field.specs.Reading.OneRefusal.{HasOneRefusal};
ghost use Rattle.sms_field.specs.RelayAddress.{relay_address};
ghost use Rattle.sms_field.specs.RelayAddress.Value.{HasOptionalSpelling};
ghost use Rattle.sms_field.specs.declared.fault.FieldFault.TheVariants.{Short};
ghost use Rattle.sms_field.specs.Reading.Readable.{HasOneReading, IsDecided, IsUnread};
ghost use Rattle.sms_field.specs.Reading.Values.{Has, ChainHas};
ghost use Rattle.sms_field.specs.Reading.Reasons.{ChainNever};
ghost use Rattle.sms_field.specs.Address.Same.{SameIsEqual, SameIsReflexive, SameIsSymmetric, SameIsTransitive};
ghost use Rattle.sms_field.specs.Time.Computed.{end_of_2099, StampIsOne, StampIsThere, MomentIsOne, MomentIsThere, EndIsOne, MomentComesBack, MomentComesBackOfZone0};

use crate::chain::Chain;
use crate::moment::END_OF_2099;

/// A lawful field.
pub trait Lawful<V, W> {
    ghost use Rattle.sms_field.specs.Field.{Field, IsLawful};

    ghost short: { W };

    ghost field: { Field V W };

    ghost is_lawful: { IsLawful short field };
}

/// What is known of the values of two fields, of which the second follows the first.
pub trait Known<A, B, W>: Chain<A, B, W> {
    ghost of_first: { A → Type 0 };

    ghost of_second: { B → Type 0 };
}

/// An input of octets has one reading by a lawful field, or none; what is refused has none.
pub fn law_of_readings<V, W, F: Lawful<V, W>>()
    ensures one { HasOneReading F.field }
    ensures decided { IsDecided F.field }
    ensures unread { IsUnread F.field F.short }
{}

/// What neither of two fields is refused for, their chain is not.
pub fn law_of_reasons<A, B, W, J: Chain<A, B, W>>()
    ensures { ChainNever J.first J.second }
{}

/// What is known of the values of two fields is known of those of their chain.
pub fn law_of_values<A, B, W, K: Known<A, B, W>>()
    ensures { ChainHas K.of_first K.of_second K.first K.second }
{}

/// An input is refused as an address at one place and for one reason.
pub fn addresses_are_refused_once()
    ensures transfer { HasOneRefusal address Short }
    ensures relay { HasOneRefusal relay_address Short }
{}

/// What is read of octets as an address has a spelling.
pub fn what_is_read_is_spelled()
    ensures transfer { Has HasSpelling address }
    ensures relay { Has HasOptionalSpelling relay_address }
{}

/// Addresses are the same just where they are equal.
pub fn same_addresses_are_equal()
    ensures equal { SameIsEqual }
    ensures reflexive { SameIsReflexive }
    ensures symmetric { SameIsSymmetric }
    ensures transitive { SameIsTransitive }
{}

/// The octets of a name are its septets packed, with no fill bit, and all other bits are 0.
pub fn names_are_packed()
    ensures packed { NamesArePacked }
    ensures only { OnlyNamesArePacked }
{}

/// The stamp of a moment in zone 0 is the one that is computed, and each moment before the end of
/// 2099 has one.
pub fn stamps_are_computed()
    ensures one { StampIsOne }
    ensures there { StampIsThere }
    ensures end { END_OF_2099 ≡ end_of_2099 }
{}

/// The moment of a stamp is the one that is computed.
pub fn moments_are_computed()
    ensures one { MomentIsOne }
    ensures there { MomentIsThere }
{}

/// The end of a validity period is the one that is computed.
pub fn ends_are_computed()
    ensures { EndIsOne }
{}

/// The moment of the stamp of a moment is that moment.
pub fn moments_come_back()
    ensures each_zone { MomentComesBack }
    ensures zone_0 { MomentComesBackOfZone0 }
{}
