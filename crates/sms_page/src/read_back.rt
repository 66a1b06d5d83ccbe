//! What is put is read back: laws, which no call needs.

ghost use Rattle.sms_page.specs.ReadBack.{DigitsReadBack, JsonReadsBack, LineReadsBack, StaysInLine};

/// What is put is read back, and a text stays in its line.
pub fn reads_back()
    ensures json { JsonReadsBack }
    ensures line { LineReadsBack }
    ensures stays { StaysInLine }
    ensures digits { DigitsReadBack }
{}
