// The train's front and back on the new path (free_path.rs 721-745).
ghost use Rattle.std.specs.Prelude.{◌≡◌, cond, ◌+◌, ◌^◌, ◌<◌, ◌≤◌, leb, IfOk};
ghost use Rattle.image.specs.Image.{node_at};
ghost use Rattle.free_path.specs.Base.{ok};
ghost use Rattle.free_path.specs.Halts.{answered, answered_by};
ghost use Rattle.disp_structs.specs.Listed.{listed};
ghost use Rattle.update_definition.specs.Join.{match_new, match_at, move_ends, new_ends};
ghost use Rattle.splice.specs.Answers.{ends_of, Small};

use disp_structs::{LinkEvent, events};
use free_path::halt::Halt;
use image::codec;

// *idx_min and *idx_max.
#[derive(Clone, Copy)]
pub struct Ends {
    pub low: u32,
    pub high: u32,
}

// From i on the first of the k nodes of the new path that has the event.
fn match_new(fresh: &[u8], k: u32, i: u32, e: LinkEvent) -> Result<u32, Halt>
    ensures { (answered result ≡ match_new (listed k (node_at fresh.now)) i e) × IfOk result (λ j. j ≤ k) }
{
    (i..k)
        .find(|j| events::same_event(codec::node_link_event(fresh, *j), e))
        .ok_or(Halt::Panic)
}

// The same with the event of node i of the old path.
fn match_at(img: &[u8], n: u32, fresh: &[u8], k: u32, from: u32, i: u32) -> Result<u32, Halt>
    ensures { (answered result ≡ match_at (listed n (node_at img.now)) (listed k (node_at fresh.now)) from i) × IfOk result (λ j. j ≤ k) }
{
    if n <= i {
        return Err(Halt::Panic);
    }
    let e = codec::node_link_event(img, i);
    match_new(fresh, k, from, e)
}

// The lower end, where it has passed the split.
fn match_low(img: &[u8], n: u32, fresh: &[u8], k: u32, split: u32, low: u32) -> Result<u32, Halt>
    ensures { (answered result ≡ cond (leb split low) (match_at (listed n (node_at img.now)) (listed k (node_at fresh.now)) 0 low) (ok 0)) × IfOk result (λ j. j ≤ k) }
{
    if low < split {
        return Ok(0);
    }
    match_at(img, n, fresh, k, 0, low)
}

fn low_end(split: u32, low: u32, i: u32) -> u32
    requires { (split + i < 2 ^ 16) × (low < 2 ^ 16) }
    ensures { (result ≡ cond (leb split low) (split + i) low) × (result < 2 ^ 16) }
{
    if low < split { low } else { split + i }
}

fn move_ends(
    img: &[u8],
    n: u32,
    fresh: &[u8],
    k: u32,
    split: u32,
    low: u32,
    high: u32,
) -> Result<Ends, Halt>
    requires { (split + k < 2 ^ 16) × (low < 2 ^ 16) × (high < 2 ^ 16) }
    ensures { (answered_by ends_of result ≡ move_ends (listed n (node_at img.now)) (listed k (node_at fresh.now)) split low high) × IfOk result Small }
{
    let a = match_low(img, n, fresh, k, split, low)?;
    let b = match_at(img, n, fresh, k, a, high)?;
    Ok(Ends {
        low: low_end(split, low, a),
        high: split + b,
    })
}

// The train must be before the join, and is moved where it has passed the split.
pub(crate) fn new_ends(
    img: &[u8],
    n: u32,
    fresh: &[u8],
    k: u32,
    split: u32,
    base: u32,
    low: u32,
    high: u32,
) -> Result<Ends, Halt>
    requires { (split + k < 2 ^ 16) × (low < 2 ^ 16) × (high < 2 ^ 16) }
    ensures { (answered_by ends_of result ≡ new_ends (listed n (node_at img.now)) (listed k (node_at fresh.now)) split base low high) × IfOk result Small }
{
    if base <= high {
        return Err(Halt::Panic);
    }
    if high < split {
        return Ok(Ends { low, high });
    }
    move_ends(img, n, fresh, k, split, low, high)
}
