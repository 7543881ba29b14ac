// The version of the library, which the header and the Rust crate have too.
ghost use Rattle.std.specs.Prelude.{◌≡◌};
ghost use Rattle.free_path_c.specs.Version.{version};

// Major, minor and patch in a byte each, patch the lowest.
#[unsafe(no_mangle)]
pub extern "C" fn lavtoeu_version() -> u32
    ensures { result ≡ version }
{
    512
}
