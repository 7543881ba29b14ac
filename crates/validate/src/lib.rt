// The number of errors of validate_free_path (free_path.rs 748-820), over the bytes of an image.
// Every function here is proved, the crate assumes nothing of its own, and no public function has a `requires`.
#![tactic(auto)]

pub mod step;

ghost use Rattle.std.specs.Prelude.{◌≡◌, ◌<◌, ◌^◌, drop, IfOk};
ghost use Rattle.free_path.specs.Base.{count};
ghost use Rattle.free_path.specs.Halts.{answered};
ghost use Rattle.free_path.specs.Validate.{bad_path, in_conflict, validate_free_path};
ghost use Rattle.image.specs.Image.{est_count, node_at, ests_of, path_of};

use disp_structs::{DispNode, EstIdx, Metres, Seconds, events, floats};
use free_path::columns;
use free_path::halt::Halt;
use image::codec;
use link_rules::octets;

// The errors of the steps of the path, the first n nodes of the image, and the occupancy conflicts at or after free.
pub fn validate_free_path(img: &[u8], n: u32, occ: &[u32], free: u32) -> Result<u64, Halt>
    ensures { answered result ≡ validate_free_path occ.now (ests_of img.now (est_count img.now)) free (path_of img.now n) }
{
    let steps = step_errors(img, n)?;
    if n < free {
        return Err(Halt::Panic);
    }
    Ok(steps + conflicts(img, n, occ, free))
}

// Node i of an image with e est records. As codec::node_at, but called at one place and inlined there: fields that bad_step does not read are not computed.
fn path_node(img: &[u8], e: u32, i: u32) -> DispNode
    requires { e ≡ est_count img.now }
    ensures { result ≡ node_at img.now i }
{
    let at = codec::node_place(e, i);
    if img.len() < at + 32 {
        return codec::node_at(img, i);
    }
    DispNode {
        offset: Metres(floats::real_of(octets::u64_at(img, at))),
        time_pass: Seconds(floats::real_of(octets::u64_at(img, at + 8))),
        link_event: codec::node_link_event(img, i),
        est_idx: EstIdx(octets::u32_at(img, at + 20)),
        disp_auth_idx_entry: octets::u16_at(img, at + 24),
    }
}

// An est number past the records is 13. a and x are the node before i and its est record.
fn step_errors(img: &[u8], n: u32) -> Result<u64, Halt>
    ensures { (answered result ≡ bad_path (ests_of img.now (est_count img.now)) (path_of img.now n)) × IfOk result (λ k. k < 2 ^ 32) }
{
    let e = codec::est_count(img);
    let mut a = codec::node_at(img, 0);
    let mut x = codec::est_at(img, a.est_idx.0);
    let mut k: u64 = 0;
    for i in 1..n {
        let b = path_node(img, e, i);
        if e <= a.est_idx.0 || e <= b.est_idx.0 {
            return Err(Halt::Panic);
        }
        let y = codec::est_at(img, b.est_idx.0);
        k += u64::from(step::bad_step(a, b, x, y));
        a = b;
        x = y;
    }
    Ok(k)
}

#[tactic(auto, unfolding(free_path::specs::Validate::in_conflict))]
fn in_conflict(img: &[u8], occ: &[u32], i: u32) -> bool
    ensures { result ≡ in_conflict occ.now (node_at img.now i) }
{
    let e = codec::node_link_event(img, i);
    events::is_arrive(e.est_type) && columns::is_occupied(occ, e.link_idx)
}

// A loop: filter and count were measured slower.
fn conflicts(img: &[u8], n: u32, occ: &[u32], free: u32) -> u64
    ensures { (result ≡ count (in_conflict occ.now) (drop free (path_of img.now n))) × (result < 2 ^ 32) }
{
    let mut k: u64 = 0;
    for i in free..n {
        k += u64::from(in_conflict(img, occ, i));
    }
    k
}
