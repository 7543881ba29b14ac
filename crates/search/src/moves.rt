// The moves of the search, all but ChangeDiverge and Join (free_path.rs 419-573).
ghost use Rattle.std.specs.Prelude.{◌≡◌, List, ◌++◌, ℕ, ◌+◌, ◌-◌, ◌<◌, ◌≤◌, length, take, IfOk};
ghost use Rattle.disp_structs.specs.Train.{Train};
ghost use Rattle.free_path.specs.Columns.{trains};
ghost use Rattle.free_path.specs.Halts.{answered_by};
ghost use Rattle.update_definition.specs.State.{diverging};
ghost use Rattle.update_definition.specs.State as State;
ghost use Rattle.update_definition.specs.Moves as Moves;
ghost use Rattle.update_definition.specs.Moves.{alternate_free, alternate_node, saved_node, push_saved};
ghost use Rattle.search.specs.Read.{divs_of, trains_from, round_of, arrays, Small};
ghost use Rattle.search.specs.Effects.{Sized, moved_of, push_turn, deposit, MoveIs, Keeping, Keeps, BlocksEmpty, Alternates};

use crate::look::Here;
use crate::{Effect, Moved, Place, Round, fakes, views};
use disp_structs::{DispNode, EstIdx, EstType, LinkEvent, Metres, Seconds, TrainIdxsView, floats};
use free_path::halt::Halt;
use image::codec;
use link_rules::link_idx::LinkIdx;

// A node goes to the new path, its offset in reach.
fn pushed(n: DispNode, p: Place) -> Result<Moved, Halt>
    ensures { IfOk result (λ x. x.place ≡ p) × ((r : State.Round) (standing : Place → State.Search) → moved_of r standing result ≡ push_turn (standing p) n) }
{
    if !floats::in_reach(n.offset.0) {
        return Err(Halt::NoRoom);
    }
    Ok(Moved {
        effect: Effect::Push(n),
        place: p,
    })
}

// ---- Advance

pub(crate) fn advance(r: Round, h: Here, p: Place) -> Result<Moved, Halt>
    requires { Small p × (h.idx_join_new ≤ p.idx_split + p.new_count) }
    ensures { Keeping r p result ((t : Train) (occ img dt dn : List ℕ) → MoveIs (λ _. Moves.advance) (round_of t occ img dt dn r) h p result) }
{
    let est = h.est_curr;
    let ahead = h.est_next;
    let cur = h.disp_node_curr;
    let n = DispNode {
        offset: Metres(cur.offset.0 + est.dist_to_next.0),
        time_pass: Seconds(f64::INFINITY),
        link_event: ahead.link_event,
        est_idx: est.idx_next,
        disp_auth_idx_entry: 0,
    };
    let q = Place {
        disp_node_idx_free: p.disp_node_idx_free.min(h.idx_join_new),
        ..p
    };
    pushed(n, q)
}

// ---- the saved disp path must be used

// disp_node_idx_free
fn saved_free(fixed: usize, save: usize, join: usize) -> usize
    requires { (fixed ≤ 512) × (join < 32768) }
    ensures { result ≡ fixed - save + join }
{
    fixed.saturating_sub(save) + join
}

pub(crate) fn block_empty(
    r: Round,
    h: Here,
    p: Place,
    begins: &mut [u32],
    ends: &mut [u32],
) -> Moved
    requires { Small p × Sized r × (h.idx_join_new ≤ p.idx_split + p.new_count) × (r.est_count ≤ length begins.old) × (r.est_count ≤ length ends.old) }
    ensures { BlocksEmpty r h p begins.old ends.old result begins.new ends.new × Keeps r p result }
{
    let est = h.est_curr;
    let v = TrainIdxsView {
        idx_begin: 1,
        idx_end: 1,
    };
    views::put_view(begins, ends, r.est_count, est.idx_next, v);
    Moved {
        effect: Effect::Stay,
        place: Place {
            disp_node_idx_free: saved_free(r.disp_node_idx_fixed, p.idx_save, h.idx_join_new),
            ..p
        },
    }
}

pub(crate) fn push_saved(img: &[u8], r: Round, h: Here, p: Place) -> Result<Moved, Halt>
    requires { Small p × Sized r × (h.idx_join_new ≤ p.idx_split + p.new_count) }
    ensures { Keeping r p result ((t : Train) (occ dt dn : List ℕ) → MoveIs push_saved (round_of t occ img.now dt dn r) h p result) }
{
    if r.path_count <= p.idx_save {
        return Err(Halt::Panic);
    }
    let n = codec::node_at(img, p.idx_save as u32);
    let est = h.est_curr;
    let cur = h.disp_node_curr;
    if !floats::near(n.offset.0, cur.offset.0 + est.dist_to_next.0) {
        return Err(Halt::Panic);
    }
    if !floats::in_reach(n.offset.0) {
        return Err(Halt::NoRoom);
    }
    let k = fakes::walk_fakes(img, r.path_count as u32, p.idx_save + 1)?;
    Ok(Moved {
        effect: Effect::Push(DispNode {
            est_idx: est.idx_next,
            ..n
        }),
        place: Place {
            disp_node_idx_free: saved_free(r.disp_node_idx_fixed, p.idx_save, h.idx_join_new),
            idx_save: k,
            ..p
        },
    })
}

// ---- Alternate

fn alternate_node(n: DispNode, e: EstIdx) -> DispNode
    ensures { result ≡ alternate_node n e }
{
    DispNode {
        link_event: LinkEvent {
            link_idx: LinkIdx(0),
            est_type: EstType::Fake,
        },
        est_idx: e,
        disp_auth_idx_entry: 0,
        ..n
    }
}

fn alternate_free(join: usize, free: usize) -> usize
    requires { free < 16384 }
    ensures { (result ≡ alternate_free join free) × (result ≤ free + 1) }
{
    if join <= free { free + 1 } else { free }
}

// The k trains of the pool from b on go behind the count diverge nodes, at a node.
// k is mostly 1 to 3, for which copies of slices take 1 ns more than the loop.
fn store_divs(
    pool: &[u32],
    b: usize,
    k: usize,
    node: usize,
    nt: &mut [u32],
    nn: &mut [u32],
    count: usize,
)
    requires { (b + k ≤ length pool.now) × (count + k ≤ length nt.old) × (count + k ≤ length nn.old) × (node < 65536) × (length pool.now ≡ 2048) × (count + k < 65536) }
    ensures { divs_of (count + k) nt.new nn.new ≡ divs_of count nt.old nn.old ++ diverging node (trains_from pool.now b k) }
{
    for j in 0..k {
        nt[count + j] = pool[b + j];
        nn[count + j] = node as u32;
    }
}

// The trains of a view go to the new diverge nodes, at most room in all.
fn push_divs(
    pool: &[u32],
    len: usize,
    v: TrainIdxsView,
    node: usize,
    room: usize,
    nt: &mut [u32],
    nn: &mut [u32],
    count: usize,
) -> Result<usize, Halt>
    requires { (length pool.now ≡ 2048) × (len ≤ 2048) × (node < 65536) × (room ≤ 1024) × (count ≤ 1024) × (room ≤ length nt.old) × (room ≤ length nn.old) }
    ensures { (answered_by (λ n. divs_of n nt.new nn.new) result ≡ deposit (take len (trains pool.now)) v room (divs_of count nt.old nn.old) node) × IfOk result (λ n. n ≤ 1024) }
{
    let b = v.idx_begin as usize;
    let e = v.idx_end as usize;
    if e < b || len < e {
        return Err(Halt::Panic);
    }
    let k = e - b;
    if room < count + k {
        return Err(Halt::NoRoom);
    }
    store_divs(pool, b, k, node, nt, nn, count);
    Ok(count + k)
}

pub(crate) fn alternate(
    r: Round,
    h: Here,
    p: Place,
    pool: &[u32],
    begins: &[u32],
    ends: &[u32],
    nt: &mut [u32],
    nn: &mut [u32],
) -> Result<Moved, Halt>
    requires { Small p × Sized r × (h.idx_join_new ≤ p.idx_split + p.new_count) × (length pool.now ≡ 2048) × (r.diverge_room ≤ length nt.old) × (r.diverge_room ≤ length nn.old) }
    ensures { Alternates r h p (arrays pool.now begins.now ends.now) nt.old nn.old result nt.new nn.new }
{
    let est = h.est_curr;
    let v = views::view_at(begins, ends, r.est_count, est.idx_next);
    let d = push_divs(
        pool,
        p.pool_count,
        v,
        h.idx_join_new,
        r.diverge_room,
        nt,
        nn,
        p.div_count,
    )?;
    let q = Place {
        div_count: d,
        disp_node_idx_free: alternate_free(h.idx_join_new, p.disp_node_idx_free),
        ..p
    };
    let n = alternate_node(h.disp_node_curr, est.idx_next_alt);
    pushed(n, q)
}
