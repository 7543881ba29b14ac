// Floats from and to their bit patterns, the reach of an offset, and the near test.
ghost use Rattle.std.specs.Prelude.{◌≡◌};
ghost use Rattle.disp_structs.specs.Floats.{real_of, bits_of, in_reach, magnitude, near_float};

// The float of a pattern, and 0 for a NaN's.
pub fn real_of(b: u64) -> f64
    ensures { result ≡ real_of b }
{
    if b % 0x8000_0000_0000_0000 <= 0x7ff0_0000_0000_0000 {
        f64::from_bits(b)
    } else {
        0.0
    }
}

// The pattern of a float, and 0 for a NaN.
pub fn bits_of(x: f64) -> u64
    ensures { result ≡ bits_of x }
{
    if x.is_nan() { 0 } else { x.to_bits() }
}

// At most 1e12 in magnitude.
pub fn in_reach(x: f64) -> bool
    ensures { result ≡ in_reach x }
{
    x <= 1000000000000.0 && -1000000000000.0 <= x
}

// utils::almost_eq_uom, as document 01 defines it.
pub fn near(a: f64, b: f64) -> bool
    ensures { result ≡ near_float a b }
{
    let d = b - a;
    let s = a + b;
    magnitude(d) < 0.00000001 || (s != 0.0 && magnitude(d / s) < 0.00000001)
}

// Not f64::abs, which gives 0 for -0: the definition of near keeps -0.
fn magnitude(x: f64) -> f64
    ensures { result ≡ Rattle.disp_structs.specs.Floats.magnitude x }
{
    if x < 0.0 { -x } else { x }
}
