//! The version of the library.

ghost use Rattle.std.specs.Prelude.{◌≡◌};

/// 2.4.0: 1,000,000 times the major number, 1,000 times the minor one, and the patch.
const VERSION: u32 = 2_004_000;

/// Tells the version of the library, to be compared with that of the header.
#[unsafe(no_mangle)]
pub extern "C" fn sms_version() -> u32
    ensures { result ≡ 2004000 }
{
    VERSION
}
