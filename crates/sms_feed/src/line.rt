//! A line of an input.

ghost use Rattle.std.specs.Prelude.{◌≡◌, if◌then◌else◌, option_copied};
ghost use Rattle.sms_script.specs.Lines.{strip_carriage_return};
ghost use Rattle.sms_feed.specs.Lines.{few};

/// The most octets of a line, without its line feed and the carriage return before it.
pub(crate) const LINE_LIMIT: usize = 4_096;

/// A line of an input.
#[derive(Clone, Copy)]
pub struct Line<'a> {
    /// How many lines there are up to this one.
    pub number: u64,
    /// Its octets, without the line feed and the carriage return before it; none where there are
    /// more than 4,096.
    pub octets: Option<&'a [u8]>,
}

/// The octets of a line, unless they are too many.
fn few_of<'a>(octets: &'a [u8]) -> Option<&'a [u8]>
    ensures { option_copied result ≡ few octets.now }
{
    if octets.len() <= LINE_LIMIT {
        Some(octets)
    } else {
        None
    }
}

/// The octets of a line in front of its end, which is a line feed or none, unless they are too many.
pub(crate) fn octets_of<'a>(has_feed: bool, octets: &'a [u8]) -> Option<&'a [u8]>
    ensures { option_copied result
        ≡ few (if has_feed then strip_carriage_return octets.now else octets.now) }
{
    match octets.strip_suffix(b"\r") {
        Some(front) if has_feed => few_of(front),
        _ => few_of(octets),
    }
}
