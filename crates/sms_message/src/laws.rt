//! What follows from the definitions alone. No function here does anything: its contract is the
//! law.

ghost use Rattle.sms_message.specs.Message.Laws.{CarriedIsRead, EachIsRead, OneMessageIsRead};

/// A packet that carries a message is read as it.
pub fn carried_messages_are_read()
    ensures { CarriedIsRead }
{}

/// Octets are read as some message.
pub fn octets_are_read_as_a_message()
    ensures { EachIsRead }
{}

/// Octets are read as one message.
pub fn octets_are_read_as_one_message()
    ensures { OneMessageIsRead }
{}
