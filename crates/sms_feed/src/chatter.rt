//! What a modem says around the units that it lists.

ghost use Rattle.std.specs.Prelude.{◌≡◌};
ghost use Rattle.sms_feed.specs.Units.{is_chatter, is_nothing};

/// Whether a line is what a modem says around the units that it lists.
fn is_chatter(line: &[u8]) -> bool
    ensures { result ≡ is_chatter line.now }
{
    line == b"OK".as_slice()
        || line == b"ERROR".as_slice()
        || line.starts_with(b"+CMGL:")
        || line.starts_with(b"+CMGR:")
        || line.starts_with(b"+CMT:")
        || line.starts_with(b"AT")
}

/// Whether a line without the blanks around it has no unit.
pub(crate) fn is_nothing(line: &[u8]) -> bool
    ensures { result ≡ is_nothing line.now }
{
    line.is_empty() || is_chatter(line)
}
