// An offset in whole metres, from the bits of its float: sign, exponent and digits are integers, and no float is added or cut.
ghost use Rattle.std.specs.Prelude.{◌≡◌, true, ◌<◌, ◌^◌};
ghost use Rattle.disp_structs.specs.Floats.{real_of, in_reach};
ghost use Rattle.image_fault.specs.ImageFault.{float_fits};
ghost use Rattle.path_page.specs.Metres.{nearest_to, metres_of, whole_metres};

use disp_structs::floats;

// Where an exact half goes.
#[derive(Clone, Copy)]
pub enum Ties {
    Away,
    Even,
}

// A whole number of metres; minus stands only where it is not 0.
#[derive(Clone, Copy)]
pub struct WholeMetres {
    pub minus: bool,
    pub metres: u64,
}

// The whole number nearest to n / d.
fn nearest_to(ties: Ties, n: u64, d: u64) -> u64
    requires { (n < 2 ^ 62) × (0 < d) × (d < 2 ^ 62) }
    ensures { result ≡ nearest_to ties n d }
{
    let whole = n / d;
    let twice = 2 * (n % d);
    if twice < d {
        return whole;
    }
    if d < twice {
        return whole + 1;
    }
    match ties {
        Ties::Away => whole + 1,
        Ties::Even => whole + whole % 2,
    }
}

// The magnitude. Below an exponent of 1022 the value is less than a half. From there on it is digits / 2 ^ (1075 - exponent).
fn metres_of(ties: Ties, bits: u64) -> u64
    requires { float_fits bits ≡ true }
    ensures { result ≡ metres_of ties (real_of bits) }
{
    let exponent = bits % 0x8000_0000_0000_0000 / 0x10_0000_0000_0000;
    let digits = 0x10_0000_0000_0000 + bits % 0x10_0000_0000_0000;
    if exponent < 1022 {
        return 0;
    }
    nearest_to(ties, digits, 1 << (1075 - exponent))
}

// A result of 0 has no sign.
pub(crate) fn whole_metres(ties: Ties, x: f64) -> WholeMetres
    requires { in_reach x ≡ true }
    ensures { result ≡ whole_metres ties x }
{
    let bits = floats::bits_of(x);
    let metres = metres_of(ties, bits);
    let minus = metres != 0 && 0x8000_0000_0000_0000 <= bits;
    WholeMetres { minus, metres }
}
