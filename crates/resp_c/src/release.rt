//! The version of the library.

ghost use Rattle.std.specs.Prelude.{◌≡◌, ◌+◌, ◌*◌};

/// Returns the version of the library, 65,536 × major + 256 × minor + patch, as the header's
/// `RESP_VERSION_NUMBER`.
#[unsafe(no_mangle)]
pub extern "C" fn resp_version() -> u32
    ensures { result ≡ 65_536 * 0 + 256 * 3 + 0 }
{
    0x00_03_00
}
