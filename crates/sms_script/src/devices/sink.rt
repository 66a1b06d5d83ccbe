//! What takes octets.

ghost use Rattle.std.specs.Prelude.{◌≡◌, ◌≤◌, ◌<◌, ◌↔◌, List, ℕ, Option, Bool, true, false, IfOk, IsErr, IsOk, OnOk, length};
ghost use Rattle.std.specs.Io.KnownBytes.{Appends, WriteAppends};
ghost use Rattle.sms_script.specs.Devices.{AppendsFront};

use crate::devices::source::DeviceFailed;

/// What takes octets.
pub trait Sink {
    /// The octets that it has taken, where they are known.
    ghost contents: { Self → Option (List ℕ) };

    /// Whether a call has failed.
    ghost has_failed: { Self → Bool };

    /// Writes some of the octets, from the first on, and answers how many: at least one where there
    /// is one. No call may have failed yet.
    fn write(&mut self, octets: &[u8]) -> Result<usize, DeviceFailed>
        requires { has_failed self.old ≡ false }
        ensures octets { WriteAppends (contents self.old) (contents self.new) result octets.now }
        ensures bound { IfOk result (λ n. n ≤ length octets.now) }
        ensures some { IfOk result (λ n. 0 < length octets.now → 0 < n) }
        ensures fails { IsErr result → has_failed self.new ≡ true }
        ensures works { IsOk result → has_failed self.new ≡ false };

    /// Whether a call has failed. Once it has, it stays so.
    fn failed(&self) -> bool
        ensures { result ≡ has_failed self.now };
}

/// Writes all of the octets, in as many writes as the sink needs. It must not have failed yet.
/// Where a write fails, the sink has taken the octets of those before.
pub fn write_whole<K: Sink>(sink: &mut K, octets: &[u8]) -> Result<(), DeviceFailed>
    requires { K.has_failed sink.old ≡ false }
    ensures ok { OnOk result (Appends (K.contents sink.old) (K.contents sink.new) octets.now) }
    ensures front { AppendsFront (K.contents sink.old) (K.contents sink.new) octets.now }
    ensures fails { IsErr result ↔ (K.has_failed sink.new ≡ true) }
{
    let mut done = 0;
    while done < octets.len() {
        done += sink.write(&octets[done..])?;
    }
    Ok(())
}
