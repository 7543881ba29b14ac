// The change of diverge nodes where the old path is found at a split node (free_path.rs 502-532).
ghost use Rattle.std.specs.Prelude.{◌≡◌, List, ℕ, ◌<◌, take, IfOk};
ghost use Rattle.free_path.specs.Columns.{trains};
ghost use Rattle.free_path.specs.Halts.{answered};
ghost use Rattle.update_definition.specs.Moves.{trains_of};
ghost use Rattle.splice.specs.Read.{ChangeFits, at_split, base_end, change_at};
ghost use Rattle.update_definition.specs.ImageTrain.{train_of};
ghost use Rattle.splice.specs.Answers.{again_in, changed_to, ChangesTo};

use crate::{Again, Reached, diverge};
use disp_structs::{EstIdx, TrainIdxsView};
use free_path::columns;
use free_path::halt::Halt;
use image::codec;
use image::codec::PathHeader;

// The asserts before the change (503-507).
fn at_split(img: &[u8], n: u32, r: Reached, alt: EstIdx, dn: &[u32], m: usize) -> bool
    ensures { result ≡ at_split img.now n r alt dn.now m }
{
    // Test by test: as one `&&` of all seven, the proof does not close.
    if r.new_count != 0 {
        return false;
    }
    if r.div_count != 1 {
        return false;
    }
    if r.join != r.split {
        return false;
    }
    if n <= r.split {
        return false;
    }
    let e = codec::node_est_idx(img, r.split);
    if alt.0 != e.0 {
        return false;
    }
    if m <= r.div_split {
        return false;
    }
    r.split == columns::u32_of(dn, r.div_split)
}

// Where the old diverge nodes of the split node end, after the asserts.
fn base_end(
    img: &[u8],
    n: u32,
    r: Reached,
    alt: EstIdx,
    dn: &[u32],
    m: usize,
) -> Result<usize, Halt>
    requires { r.div_split < m }
    ensures { (ts : List ℕ) → answered result ≡ base_end img.now n r alt ts dn.now m }
{
    if !at_split(img, n, r, alt, dn, m) {
        return Err(Halt::Panic);
    }
    diverge::walk_past(dn, m, r.div_split + 1, r.split)
}

// A header with total diverge nodes, and the next idx_split and div_idx_split.
fn changed(h: PathHeader, total: u32, split: u32, div_split: usize) -> Again
    ensures { result ≡ changed_to h total split div_split }
{
    Again {
        header: PathHeader {
            diverge_count: total,
            free: h.fixed,
            ..h
        },
        split,
        div_split,
        moves: 0,
    }
}

// The view's trains take the place of the diverge nodes up to k (518-531).
fn change_at(
    img: &[u8],
    h: PathHeader,
    r: Reached,
    v: TrainIdxsView,
    pool: &[u32],
    count: usize,
    dt: &mut [u32],
    dn: &mut [u32],
    nt: &mut [u32],
    nn: &mut [u32],
    k: usize,
) -> Result<Again, Halt>
    requires { ChangeFits img.now dt.old dn.old nt.old nn.old pool.now count h r × (r.div_split < k) × (k < h.diverge_count) }
    ensures { (again_in result img.now dt.new dn.new ≡ change_at (train_of img.now dt.old dn.old h) r (trains_of (take count (trains pool.now)) v) k)
        × IfOk result (λ a. a.moves ≡ 0) }
{
    let m = h.diverge_count as usize;
    let b = v.idx_begin as usize;
    let e = v.idx_end as usize;
    if e < b || count < e {
        return Err(Halt::Panic);
    }
    let room = codec::diverge_room(img) as usize;
    let total = r.div_split + (e - b) + (m - k);
    if room < total {
        return Err(Halt::NoRoom);
    }
    nt[1..1 + (e - b)].copy_from_slice(&pool[b..e]);
    nn[1..1 + (e - b)].fill(r.split);
    diverge::splice_divs(dt, dn, nt, nn, e - b, r.div_split, k, m);
    Ok(changed(h, total as u32, r.split, r.div_split + (e - b)))
}

// The diverge nodes of the split node become those of the view's trains.
pub fn change_diverge(
    img: &[u8],
    h: PathHeader,
    r: Reached,
    alt: EstIdx,
    v: TrainIdxsView,
    pool: &[u32],
    count: usize,
    dt: &mut [u32],
    dn: &mut [u32],
    nt: &mut [u32],
    nn: &mut [u32],
) -> Result<Again, Halt>
    requires { ChangeFits img.now dt.old dn.old nt.old nn.old pool.now count h r }
    ensures { ChangesTo img.now dt.old dn.old h r alt v pool.now count result dt.new dn.new }
{
    let m = h.diverge_count as usize;
    let k = base_end(img, h.path_count, r, alt, dn, m)?;
    change_at(img, h, r, v, pool, count, dt, dn, nt, nn, k)
}
