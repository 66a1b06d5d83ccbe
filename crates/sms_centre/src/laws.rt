//! What follows from the definitions alone. No function here does anything: its contract is the
//! law.

ghost use Rattle.sms_centre.specs.Centre.Drops.{CentreDropsPutNothingOut};
ghost use Rattle.sms_centre.specs.Centre.Few.{CentrePutsFewOut};
ghost use Rattle.sms_centre.specs.Centre.Keys.{DeliveriesHaveOwnKeys};
ghost use Rattle.sms_centre.specs.Centre.Recipients.{RecipientsAreAddressed};
ghost use Rattle.sms_centre.specs.Centre.Stamps.{StampsRise};

use sms_field::laws::moments_come_back;

/// The stamps given to one recipient rise, whatever comes to the centre.
pub fn stamps_rise()
    ensures { StampsRise }
{}

/// Deliveries of different messages to one phone, each in one piece, have different keys, so that
/// neither is taken for a repeat of the other.
pub fn deliveries_have_own_keys()
    ensures { DeliveriesHaveOwnKeys }
{
    moments_come_back();
}

/// The recipient of an accepted message is the phone that has its destination address.
pub fn recipients_are_addressed()
    ensures { RecipientsAreAddressed }
{}

/// The centre puts out two packets at most.
pub fn centre_puts_few_out()
    ensures { CentrePutsFewOut }
{}

/// What the centre drops, whatever came, makes it put nothing out.
pub fn centre_drops_put_nothing_out()
    ensures { CentreDropsPutNothingOut }
{}
