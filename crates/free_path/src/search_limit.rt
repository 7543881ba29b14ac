// The limit of the search: the larger of two distances.
ghost use Rattle.std.specs.Prelude.{◌≡◌};
ghost use Rattle.free_path.specs.SearchLimit.{maximum_number};

// maximum_number of IEEE 754-2019, clause 9.6: of two equal ones the sign of the first decides, so that two zeros give +0.
pub fn maximum(a: f64, b: f64) -> f64
    ensures { result ≡ maximum_number a b }
{
    if a.is_nan() {
        return b;
    }
    if b.is_nan() {
        return a;
    }
    if a < b {
        return b;
    }
    if b < a || a.is_sign_positive() { a } else { b }
}
