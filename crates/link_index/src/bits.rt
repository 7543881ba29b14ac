// One bit of a u64.
ghost use Rattle.std.specs.Prelude.{◌≡◌, true, false, ◌<◌};
ghost use Rattle.link_index.specs.Bits.{bit_of, with_bit};

pub(crate) fn has_bit(entry: u64, t: u32) -> bool
    requires { t < 64 }
    ensures { result ≡ bit_of entry t }
{
    (entry >> t) % 2 == 1
}

// Sets bit t.
pub(crate) fn with_bit(entry: u64, t: u32) -> u64
    requires { t < 64 }
    ensures { result ≡ with_bit entry t true }
{
    if has_bit(entry, t) {
        return entry;
    }
    entry + (1u64 << t)
}

// Clears bit t.
pub(crate) fn without_bit(entry: u64, t: u32) -> u64
    requires { t < 64 }
    ensures { result ≡ with_bit entry t false }
{
    if has_bit(entry, t) {
        return entry - (1u64 << t);
    }
    entry
}
