//! The version of the library.
ghost use Rattle.std.specs.Prelude.{◌≡◌};

// Version 0.4.0, as in packaging/VERSION and include/odht.h.
const VERSION: u32 = 400;

/// The version of this library: 10000 for each major number, 100 for each minor one, and the
/// patch. A program can compare it with `ODHT_VERSION`, that of the header it was compiled with.
#[unsafe(no_mangle)]
pub extern "C" fn odht_version() -> u32
    ensures { result ≡ 400 }
{
    VERSION
}
