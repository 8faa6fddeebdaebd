// The version of the library.

ghost use Rattle.std.specs.Prelude.{◌≡◌};
ghost use Rattle.foresight_c.specs.Version.{version};

/// The version of the library: of 2.1, 20100. `embedding/foresight_tickets.h` has the header's.
#[unsafe(no_mangle)]
pub extern "C" fn foresight_version() -> u32
    ensures { result ≡ version }
{
    20100
}
