// Rewind: both ways are blocked, and the search goes one dispatch node back (free_path.rs 419-473).
ghost use Rattle.std.specs.Prelude.{◌≡◌, List, ℕ, ◌+◌, ◌≤◌, length, take, IfOk};
ghost use Rattle.disp_structs.specs.Train.{Train};
ghost use Rattle.free_path.specs.Base.{walk_back};
ghost use Rattle.free_path.specs.Columns.{trains};
ghost use Rattle.free_path.specs.Halts.{answered, answered_by};
ghost use Rattle.update_definition.specs.Moves.{not_fake, shift_save, holder_of, rewind_divs, one_back};
ghost use Rattle.search.specs.Read.{divs_of, views_of, round_of, arrays, Small, Lent};
ghost use Rattle.image.specs.Image.{path_of};
ghost use Rattle.search.specs.Effects.{Sized, SavesAt, RewindsView, GivesUp, Keeping, CountedMoveIs, Rewinds};

use crate::look::Here;
use crate::{Effect, Moved, Place, Round, views};
use disp_structs::{EstTime, LinkEvent, TrainIdxsView, events};
use free_path::halt::Halt;
use free_path::train_idxs_view::Union;
use free_path::{columns, train_idxs_view};
use image::codec;
use link_rules::link_idx::TrainIdx;

// ---- the save node

// Back from `from` to the last node before it that is no Fake.
fn walk_back(img: &[u8], n: usize, from: usize) -> Result<usize, Halt>
    requires { n ≤ 512 }
    ensures { (answered result ≡ walk_back not_fake (path_of img.now n) from) × IfOk result (λ k. k ≤ 512) }
{
    if n < from {
        return Err(Halt::Panic);
    }
    for k in (0..from).rev() {
        let e = codec::node_link_event(img, k as u32);
        if !events::is_fake(e.est_type) {
            return Ok(k);
        }
    }
    Err(Halt::Panic)
}

fn shift_save(
    img: &[u8],
    n: usize,
    fixed: usize,
    event: LinkEvent,
    save: usize,
) -> Result<usize, Halt>
    requires { n ≤ 512 }
    ensures { (answered result ≡ shift_save (path_of img.now n) fixed event save) × IfOk result (λ k. k ≤ 512) }
{
    let k = walk_back(img, n, save)?;
    if fixed <= k || n <= k {
        return Err(Halt::Panic);
    }
    if !events::same_event(event, codec::node_link_event(img, k as u32)) {
        return Err(Halt::Panic);
    }
    Ok(k)
}

// idx_save after the shift, if there is one.
fn save_of(img: &[u8], r: Round, h: Here, p: Place) -> Result<usize, Halt>
    requires { Small p × Sized r }
    ensures { SavesAt img.now r h p result }
{
    let cur = h.disp_node_curr;
    let event = cur.link_event;
    if p.disp_node_idx_free < h.idx_join_new || events::is_fake(event.est_type) {
        return Ok(p.idx_save);
    }
    shift_save(img, r.path_count, r.disp_node_idx_fixed, event, p.idx_save)
}

// ---- the view of the current est

fn rewind_view(
    est: EstTime,
    n: usize,
    begins: &[u32],
    ends: &[u32],
    pool: &mut [u32],
    len: usize,
) -> Result<Union, Halt>
    requires { (length pool.old ≡ 2048) × (len ≤ 2048) }
    ensures { RewindsView est (views_of n begins.now ends.now) pool.old len result pool.new }
{
    let v = views::view_at(begins, ends, n, est.idx_next);
    if est.idx_next_alt.0 == 0 {
        return Ok(Union { view: v, len });
    }
    let w = views::view_at(begins, ends, n, est.idx_next_alt);
    train_idxs_view::concat_train_idx_views(pool, len, v, w)
}

// The first train of a view over the first len trains of the pool, 0 where there is none.
fn holder_of(pool: &[u32], len: usize, v: TrainIdxsView) -> TrainIdx
    ensures { result ≡ holder_of (record { pool = take len (trains pool.entry.now); made = v }) }
{
    let i = v.idx_begin as usize;
    if v.idx_end <= v.idx_begin || len <= i {
        return TrainIdx(0);
    }
    TrainIdx(columns::u32_of(pool, i))
}

// ---- the new diverge nodes

// Those at the join go: how many are left.
fn rewind_divs(nn: &[u32], count: usize, join: usize) -> Result<usize, Halt>
    ensures { ((nt : List ℕ) → answered_by (λ k. divs_of k nt nn.now) result ≡ rewind_divs join (divs_of count nt nn.now)) × IfOk result (λ k. k ≤ count) }
{
    for k in (0..count).rev() {
        let d = columns::u32_of(nn, k) as usize;
        if d < join {
            return Ok(k + 1);
        }
        if join < d {
            return Err(Halt::Panic);
        }
    }
    Err(Halt::Panic)
}

// ---- one dispatch node back

fn give_up(h: Here, holder: TrainIdx, p: Place) -> Result<Moved, Halt>
    ensures { GivesUp h holder p result }
{
    if p.div_count != 1 || h.idx_join_new != p.idx_split {
        return Err(Halt::Panic);
    }
    Ok(Moved {
        effect: Effect::GiveUp(holder),
        place: p,
    })
}

// The holder is that of the view v, which was made over the first len trains of the pool.
fn one_back(
    r: Round,
    h: Here,
    pool: &[u32],
    len: usize,
    v: TrainIdxsView,
    p: Place,
) -> Result<Moved, Halt>
    requires { Small p }
    ensures { Keeping r p result ((t : Train) (occ img dt dn : List ℕ) → CountedMoveIs (λ R H s. one_back R H (holder_of (record { pool = take len (trains pool.entry.now); made = v })) s) (round_of t occ img dt dn r) h p result) }
{
    if p.new_count != 0 {
        return Ok(Moved {
            effect: Effect::Pop,
            place: p,
        });
    }
    let cur = h.disp_node_curr;
    if 1 < p.idx_split && r.offset_cancel.0 < cur.offset.0 {
        return Ok(Moved {
            effect: Effect::Stay,
            place: Place {
                idx_split: p.idx_split - 1,
                ..p
            },
        });
    }
    give_up(h, holder_of(pool, len, v), p)
}

pub(crate) fn rewind(
    img: &[u8],
    r: Round,
    h: Here,
    p: Place,
    pool: &mut [u32],
    begins: &mut [u32],
    ends: &mut [u32],
    nn: &[u32],
) -> Result<Moved, Halt>
    requires { Small p × Sized r × Lent r.est_count (arrays pool.old begins.old ends.old) × (h.idx_join_new ≤ p.idx_split + p.new_count) }
    ensures { Rewinds img.now r h p (arrays pool.old begins.old ends.old) nn.now result (arrays pool.new begins.new ends.new) }
{
    let save = save_of(img, r, h, p)?;
    let est = h.est_curr;
    let u = rewind_view(est, r.est_count, begins, ends, pool, p.pool_count)?;
    let k = rewind_divs(nn, p.div_count, h.idx_join_new)?;
    let cur = h.disp_node_curr;
    views::put_view(begins, ends, r.est_count, cur.est_idx, u.view);
    let q = Place {
        idx_save: save,
        pool_count: u.len,
        div_count: k,
        ..p
    };
    one_back(r, h, pool, u.len, u.view, q)
}
