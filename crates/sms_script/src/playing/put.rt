//! Texts put into a sink.

ghost use Rattle.std.specs.Prelude.{◌≡◌, IfErr, false};
ghost use Rattle.sms_script.specs.Play.Puts.{Puts, HasFailed};
ghost use Rattle.sms_script.specs.declared.fault.PlayFault.TheVariants.{Write};

use crate::devices::{Sink, write_whole};
use crate::fault::PlayFault;

/// Puts a text into a sink. It takes no memory.
pub fn put<K: Sink>(sink: &mut K, text: &[u8]) -> Result<(), PlayFault>
    requires { K.has_failed sink.old ≡ false }
    ensures puts { Puts (K.contents sink.old) (K.contents sink.new) text.now result }
    ensures fault { IfErr result (λ fault. fault ≡ Write) }
    ensures failed { HasFailed result (K.has_failed sink.new) }
{
    match write_whole(sink, text) {
        Ok(()) => Ok(()),
        Err(_) => Err(PlayFault::Write),
    }
}
