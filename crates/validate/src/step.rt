// The error of one step of a path (free_path.rs, validate_free_path).
ghost use Rattle.std.specs.Prelude.{◌≡◌};
ghost use Rattle.free_path.specs.Validate.{steps_next, steps_alt, bad_step};

use disp_structs::{DispNode, EstTime, floats};

#[tactic(auto, unfolding(free_path::specs::Validate::steps_next))]
fn steps_next(a: DispNode, b: DispNode, x: EstTime, y: EstTime) -> bool
    ensures { result ≡ steps_next a b x y }
{
    x.idx_next == b.est_idx && (y.idx_prev == a.est_idx || y.idx_prev_alt == a.est_idx)
}

#[tactic(auto, unfolding(free_path::specs::Validate::steps_alt))]
fn steps_alt(a: DispNode, b: DispNode, x: EstTime, y: EstTime) -> bool
    ensures { result ≡ steps_alt a b x y }
{
    x.idx_next_alt == b.est_idx && y.idx_prev == a.est_idx
}

// Has the step from a to b an error? x and y are their est records.
pub fn bad_step(a: DispNode, b: DispNode, x: EstTime, y: EstTime) -> bool
    ensures { result ≡ bad_step a b x y }
{
    if steps_next(a, b, x, y) {
        return !floats::near(x.dist_to_next.0, b.offset.0 - a.offset.0);
    }
    if steps_alt(a, b, x, y) {
        return !floats::near(a.offset.0, b.offset.0);
    }
    true
}
