//! How open sets are walked through. The function is empty: its contract is the law.

ghost use Rattle.sms_join.specs.OpenSets.Told.{AreWalked};

/// Sets that rise in the numbers of their openings are all found in turn, from 0 on, and then from
/// the number of each and one more.
pub fn open_sets_are_walked()
    ensures { AreWalked }
{}
