// Path nodes in bytes: the join on the old path, its offsets, the splice, and the free path's begin (free_path.rs 578-628, 714-718).
ghost use Rattle.std.specs.Prelude.{◌≡◌, cond, ◌≤◌, ◌<◌, length, IfOk};
ghost use Rattle.disp_structs.specs.Values.{same_est, near, zero_metres, is_never};
ghost use Rattle.image.specs.Image.{est_count, node_place, node_at};
ghost use Rattle.free_path.specs.Base.{ok, walk_from};
ghost use Rattle.free_path.specs.Halts.{answered, answered_by};
ghost use Rattle.disp_structs.specs.Listed.{listed};
ghost use Rattle.update_definition.specs.Join.{shift_offsets, free_is_correct};
ghost use Rattle.splice.specs.Read.{Kept};
ghost use Rattle.splice.specs.Parts.{from_on, put_offset};
ghost use Rattle.splice.specs.Answers.{PathRoom, PathSpliced};

use crate::moves;
use crate::moves::Stretch;
use disp_structs::{EstIdx, Metres, Seconds, floats};
use free_path::halt::Halt;
use image::codec;
use link_rules::octets;

// From i on the first of n nodes that has the est.
pub(crate) fn join_base(img: &[u8], n: u32, i: u32, next: EstIdx) -> Result<u32, Halt>
    ensures { answered result ≡ walk_from (λ x. same_est next x.est_idx) (listed n (node_at img.now)) i }
{
    (i..n)
        .find(|k| next.0 == codec::node_est_idx(img, *k).0)
        .ok_or(Halt::Panic)
}

// x.offset += change, from node i on; 11 where one passes 1e12.
fn shift_offsets(img: &mut [u8], n: u32, i: u32, change: Metres) -> Result<(), Halt>
    requires { node_place (est_count img.old) n ≤ length img.old }
    ensures { (answered_by (λ _. listed n (node_at img.new)) result ≡ from_on (shift_offsets change) i (listed n (node_at img.old))) × Kept img.new img.old }
{
    for k in i..n {
        let x = codec::node_at(img, k);
        let o = x.offset.0 + change.0;
        if !floats::in_reach(o) {
            return Err(Halt::NoRoom);
        }
        put_offset(img, k, o);
    }
    Ok(())
}

fn put_offset(img: &mut [u8], i: u32, o: f64)
    ensures { img.new ≡ put_offset o i img.old }
{
    let e = codec::est_count(img);
    let at = codec::node_place(e, i);
    octets::put_u64(img, at, floats::bits_of(o));
}

// The offsets of a path's rest, unless they change by almost nothing.
pub(crate) fn update_offsets(img: &mut [u8], n: u32, i: u32, change: Metres) -> Result<(), Halt>
    requires { node_place (est_count img.old) n ≤ length img.old }
    ensures { (answered_by (λ _. listed n (node_at img.new)) result ≡ from_on (λ xs. cond (near change zero_metres) (ok xs) (shift_offsets change xs)) i (listed n (node_at img.old))) × Kept img.new img.old }
{
    if floats::near(change.0, 0.0) {
        return Ok(());
    }
    shift_offsets(img, n, i, change)
}

// disp_path.splice(split..base, the k nodes of the new path): the old path from base on goes to its new place, unless it stands there, and the new
// path comes before it; the answer counts the nodes that moved.
pub(crate) fn splice_path(
    img: &mut [u8],
    fresh: &[u8],
    n: u32,
    split: u32,
    base: u32,
    k: u32,
) -> usize
    requires { PathRoom img.old fresh.now n split base k }
    ensures { PathSpliced img.old fresh.now n split base k result img.new }
{
    let e = codec::est_count(img);
    let f = codec::est_count(fresh);
    let w = Stretch {
        path: codec::node_place(e, 0),
        split: split as usize,
        base: base as usize,
        rest: (n - base) as usize,
        new: codec::node_place(f, 0),
        count: k as usize,
    };
    moves::splice_nodes(img, fresh, w)
}

// time_pass == f64::INFINITY
fn is_never(t: Seconds) -> bool
    ensures { result ≡ is_never t }
{
    t.0 == floats::real_of(0x7ff0_0000_0000_0000)
}

// disp_node_idx_free is correct.
pub(crate) fn free_is_correct(img: &[u8], n: u32, free: u32) -> Result<(), Halt>
    ensures { (answered result ≡ free_is_correct (listed n (node_at img.now)) free) × IfOk result (λ _. free < n) }
{
    if n <= free {
        return Err(Halt::Panic);
    }
    let x = codec::node_at(img, free);
    if !is_never(x.time_pass) {
        return Err(Halt::Panic);
    }
    if free == 0 {
        return Ok(());
    }
    let y = codec::node_at(img, free - 1);
    if y.offset.0 == 0.0 || !is_never(y.time_pass) {
        return Ok(());
    }
    Err(Halt::Panic)
}
