// A turn of the search up to its move (free_path.rs 345-417).
ghost use Rattle.std.specs.Prelude.{◌≡◌, List, ℕ, ◌+◌, ◌<◌, ◌≤◌, ◌^◌, ◌++◌, ◌||◌, length, take, IfOk};
ghost use Rattle.link_rules.specs.LinkIdx.{same_train};
ghost use Rattle.disp_structs.specs.Values.{same_est, no_est};
ghost use Rattle.update_definition.specs.State.{blocked};
ghost use Rattle.image.specs.Image.{est_place};
ghost use Rattle.free_path.specs.Base.{need};
ghost use Rattle.free_path.specs.Columns.{tr, trains};
ghost use Rattle.free_path.specs.Halts.{answered, answered_by};
ghost use Rattle.update_definition.specs.Look.{block_by, stored_from, take_stored, stored_trains, blocked_move};
ghost use Rattle.search.specs.Read.{divs_of, views_of, trains_from, stored_of, rising, node_before, Looks, Steps, Small, Lent, arrays, on_flag, BlocksStored, StepsStored, Settles, MeetsAt, StepsNext, Chooses};

use crate::{Place, Round, views};
use disp_structs::{DispNode, EstIdx, EstTime, TrainIdxsView, events};
use free_path::columns;
use free_path::halt::Halt;
use image::codec;
use link_rules::link_idx::TrainIdx;
use update_definition::Move;

// idx_join_new, disp_node_curr, est_curr, and the est record of its idx_next.
#[derive(Clone, Copy)]
pub struct Here {
    pub idx_join_new: usize,
    pub disp_node_curr: DispNode,
    pub est_curr: EstTime,
    pub est_next: EstTime,
}

// The div_idx_split that the walk over stored trains leaves, and whether it met the moved train.
#[derive(Clone, Copy)]
pub struct Stored {
    pub div_idx_split: usize,
    pub met: bool,
}

// There are diverge nodes before and at i, the one before at a lower node.
fn between_divs(dn: &[u32], m: usize, i: usize) -> bool
    ensures { (t : List ℕ) → need result ≡ rising (divs_of m t dn.now) i }
{
    if i == 0 || m <= i {
        return false;
    }
    columns::u32_of(dn, i - 1) < columns::u32_of(dn, i)
}

// The est records lie within the image.
pub(crate) fn look_here(
    img: &[u8],
    r: Round,
    p: Place,
    curr: DispNode,
    ends: &[u32],
    dn: &[u32],
) -> Result<Here, Halt>
    requires { Small p × (est_place r.est_count ≤ length img.now) }
    ensures { Looks result img.now r p curr ends.now dn.now }
{
    let n = r.est_count;
    if n <= curr.est_idx.0 as usize || views::is_blocked(ends, n, curr.est_idx) {
        return Err(Halt::Panic);
    }
    let est = codec::whole_est(img, curr.est_idx.0);
    if est.idx_next.0 == 0 || n <= est.idx_next.0 as usize {
        return Err(Halt::Panic);
    }
    if !between_divs(dn, r.diverge_count, p.div_idx_split) {
        return Err(Halt::Panic);
    }
    Ok(Here {
        idx_join_new: p.idx_split + p.new_count,
        disp_node_curr: curr,
        est_curr: est,
        est_next: codec::whole_est(img, est.idx_next.0),
    })
}

// ---- an est is blocked by trains

// The k trains of a column from a on go to the end of the pool, at most 2,048 in all. No copy of slices: past the column's end stands 0.
fn push_trains(col: &[u32], a: usize, k: usize, pool: &mut [u32], len: usize)
    requires { (length pool.old ≡ 2048) × (len + k ≤ 2048) × (a < 2 ^ 32) }
    ensures { take (len + k) (trains pool.new) ≡ take len (trains pool.old) ++ trains_from col.now a k }
{
    for j in 0..k {
        pool[len + j] = columns::u32_of(col, a + j);
    }
}

// The est e of n is blocked by the k trains of a column from a on.
fn block_by(
    col: &[u32],
    a: usize,
    k: usize,
    n: usize,
    e: EstIdx,
    p: Place,
    pool: &mut [u32],
    begins: &mut [u32],
    ends: &mut [u32],
) -> Result<Place, Halt>
    requires { Small p × Lent n (arrays pool.old begins.old ends.old) × (a < 2 ^ 32) × (k < 16384) }
    ensures { Steps n p (arrays pool.old begins.old ends.old) result (arrays pool.new begins.new ends.new) (λ s. block_by s e (trains_from col.now a k)) }
{
    let from = p.pool_count;
    if 2048 < from + k {
        return Err(Halt::NoRoom);
    }
    push_trains(col, a, k, pool, from);
    let v = TrainIdxsView {
        idx_begin: from as u32,
        idx_end: (from + k) as u32,
    };
    views::put_view(begins, ends, n, e, v);
    Ok(Place {
        pool_count: from + k,
        ..p
    })
}

// ---- trains stored in the diverge nodes

// The walk down to the first diverge node before the join.
fn stored_from(
    dt: &[u32],
    dn: &[u32],
    m: usize,
    join: usize,
    moved: TrainIdx,
    from: usize,
) -> Result<Stored, Halt>
    requires { from ≤ m }
    ensures { (answered_by stored_of result ≡ stored_from (divs_of m dt.now dn.now) join moved from) × IfOk result (λ x. x.div_idx_split ≤ from) }
{
    let mut met = false;
    for k in (0..from).rev() {
        if columns::u32_of(dn, k) as usize != join {
            return Ok(Stored {
                div_idx_split: k + 1,
                met,
            });
        }
        met |= columns::u32_of(dt, k) == moved.0;
    }
    Err(Halt::Panic)
}

// The moved train is not among the stored trains from div on: they block the next est.
fn block_stored(
    dt: &[u32],
    r: Round,
    h: Here,
    p: Place,
    div: usize,
    pool: &mut [u32],
    begins: &mut [u32],
    ends: &mut [u32],
) -> Result<Place, Halt>
    requires { Small p × Lent r.est_count (arrays pool.old begins.old ends.old) × (div ≤ p.div_idx_split) × (p.div_idx_split ≤ r.diverge_count) }
    ensures { BlocksStored dt.now r h p div (arrays pool.old begins.old ends.old) result (arrays pool.new begins.new ends.new) }
{
    let est = h.est_curr;
    if !views::is_blocked(ends, r.est_count, est.idx_next_alt) {
        return Err(Halt::Panic);
    }
    let k = p.div_idx_split - div;
    let q = Place {
        div_idx_split: div,
        ..p
    };
    block_by(dt, div, k, r.est_count, est.idx_next, q, pool, begins, ends)
}

fn take_stored(
    dt: &[u32],
    dn: &[u32],
    on: &[u8],
    r: Round,
    h: Here,
    p: Place,
    pool: &mut [u32],
    begins: &mut [u32],
    ends: &mut [u32],
) -> Result<Place, Halt>
    requires { Small p × Lent r.est_count (arrays pool.old begins.old ends.old) }
    ensures { StepsStored take_stored dt.now dn.now on.now r h p (arrays pool.old begins.old ends.old) result
        (arrays pool.new begins.new ends.new) }
{
    let est = h.est_curr;
    if est.idx_next_alt.0 == 0 || !views::is_on_path(on, est.idx_next_alt) {
        return Err(Halt::Panic);
    }
    if views::is_blocked(ends, r.est_count, est.idx_next) || r.diverge_count < p.div_idx_split {
        return Err(Halt::Panic);
    }
    let x = stored_from(
        dt,
        dn,
        r.diverge_count,
        h.idx_join_new,
        r.train_idx_moved,
        p.div_idx_split,
    )?;
    if x.met {
        return Ok(Place {
            div_idx_split: x.div_idx_split,
            ..p
        });
    }
    block_stored(dt, r, h, p, x.div_idx_split, pool, begins, ends)
}

// disp_node_idx of div_nodes[i - 1].
fn node_before(dn: &[u32], m: usize, i: usize) -> Result<usize, Halt>
    ensures { (t : List ℕ) → answered result ≡ node_before (divs_of m t dn.now) i }
{
    if i == 0 || m < i {
        return Err(Halt::Panic);
    }
    Ok(columns::u32_of(dn, i - 1) as usize)
}

// The diverge node before the place that is left stands before the join.
fn settle(dn: &[u32], m: usize, join: usize, q: Place) -> Result<Place, Halt>
    ensures { Settles dn.now m join q result }
{
    let b = node_before(dn, m, q.div_idx_split)?;
    if join <= b {
        return Err(Halt::Panic);
    }
    Ok(q)
}

pub(crate) fn stored_trains(
    dt: &[u32],
    dn: &[u32],
    on: &[u8],
    r: Round,
    h: Here,
    p: Place,
    pool: &mut [u32],
    begins: &mut [u32],
    ends: &mut [u32],
) -> Result<Place, Halt>
    requires { Small p × Lent r.est_count (arrays pool.old begins.old ends.old) }
    ensures { StepsStored stored_trains dt.now dn.now on.now r h p (arrays pool.old begins.old ends.old) result
        (arrays pool.new begins.new ends.new) }
{
    let m = r.diverge_count;
    let join = h.idx_join_new;
    let d = node_before(dn, m, p.div_idx_split)?;
    if d != join {
        return settle(dn, m, join, p);
    }
    let q = take_stored(dt, dn, on, r, h, p, pool, begins, ends)?;
    settle(dn, m, join, q)
}

// ---- the next est is occupied

fn meets_train(occ: &[u32], n: usize, h: Here, free: usize, ends: &[u32]) -> bool
    ensures { MeetsAt occ.now n h free ends.now result }
{
    let ahead = h.est_next;
    let event = ahead.link_event;
    !views::is_blocked(ends, n, h.est_curr.idx_next)
        && free <= h.idx_join_new
        && events::is_arrive(event.est_type)
        && columns::is_occupied(occ, event.link_idx)
}

pub(crate) fn occupied_next(
    occ: &[u32],
    r: Round,
    h: Here,
    p: Place,
    pool: &mut [u32],
    begins: &mut [u32],
    ends: &mut [u32],
) -> Result<Place, Halt>
    requires { Small p × Lent r.est_count (arrays pool.old begins.old ends.old) }
    ensures { StepsNext occ.now r h p (arrays pool.old begins.old ends.old) result (arrays pool.new begins.new ends.new) }
{
    let n = r.est_count;
    if !meets_train(occ, n, h, p.disp_node_idx_free, ends) {
        return Ok(p);
    }
    let est = h.est_curr;
    let ahead = h.est_next;
    let l = ahead.link_event.link_idx.0 as usize;
    block_by(occ, l, 1, n, est.idx_next, p, pool, begins, ends)
}

// ---- which move

fn blocked_move(on: &[u8], n: usize, alt: EstIdx, ends: &[u32]) -> Move
    ensures { (b : List ℕ) → result ≡ blocked_move (same_est alt no_est || blocked (views_of n b ends.now) alt) (on_flag on.now alt) }
{
    if alt.0 == 0 || views::is_blocked(ends, n, alt) {
        return Move::Rewind;
    }
    if views::is_on_path(on, alt) {
        return Move::ChangeDiverge;
    }
    Move::Alternate
}

pub(crate) fn move_of(
    img: &[u8],
    on: &[u8],
    r: Round,
    h: Here,
    p: Place,
    ends: &[u32],
) -> Result<Move, Halt>
    requires { Small p }
    ensures { Chooses img.now on.now r h p ends.now result }
{
    let est = h.est_curr;
    if views::is_blocked(ends, r.est_count, est.idx_next) {
        return Ok(blocked_move(on, r.est_count, est.idx_next_alt, ends));
    }
    if views::is_on_path(on, est.idx_next) {
        return Ok(Move::Join);
    }
    if r.disp_node_idx_fixed <= p.idx_save {
        return Ok(Move::Advance);
    }
    if r.path_count <= p.idx_save {
        return Err(Halt::Panic);
    }
    let ahead = h.est_next;
    let saved = codec::node_link_event(img, p.idx_save as u32);
    if events::same_event(ahead.link_event, saved) {
        return Ok(Move::PushSaved);
    }
    Ok(Move::BlockEmpty)
}
