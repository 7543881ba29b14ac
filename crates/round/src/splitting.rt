// A round up to its search (free_path.rs 278-343).
ghost use Rattle.std.specs.Prelude.{◌≡◌, true, false, ◌^◌, ◌≤◌, ◌<◌, length};
ghost use Rattle.disp_structs.specs.Listed.{listed};
ghost use Rattle.image.specs.Image.{diverge_room, path_of};
ghost use Rattle.free_path.specs.Columns.{link_at};
ghost use Rattle.free_path.specs.LinkOptType.{link_idx_path};
ghost use Rattle.link_rules.specs.LinkIdx.{no_train};
ghost use Rattle.update_definition.specs.Update.{round_of, round_steps, round_met};
ghost use Rattle.splice.specs.Read.{Kept};
ghost use Rattle.update_definition.specs.ImageTrain.{train_of};
ghost use Rattle.round.specs.Rounds.{Held, round_from, steps_by, start_at, end_refused, is_at_end};
ghost use Rattle.round.specs.Ends.{RoundAt, EndsAs, StepsAs, MetAs};

use crate::{End, Given, RoundEnd, ending, searching};
use free_path::halt::Halt;
use free_path::link_opt_type;
use free_path::link_opt_type::IdxSentinels;
use image::codec;
use image::codec::PathHeader;
use round_start::{diverge, limit, path, split};
use search::{Place, Round};

// Before the search.
fn refused(halt: Halt, h: PathHeader) -> RoundEnd
    ensures { result ≡ record { end = End.Refused halt; header = h; split = 0; div_split = 0; steps = 0; met = no_train } }
{
    ending::ended(End::Refused(halt), h, 0)
}

// What the search from the split point does not change.
fn round_of(img: &[u8], g: Given, h: PathHeader, split: usize) -> Round
    requires { split < 2 ^ 32 }
    ensures { RoundAt img.now g h split result }
{
    let node = codec::node_at(img, split as u32);
    let o = node.offset;
    let low = g.offset_lowest;
    let far = codec::dist_disp_path_search(img);
    let m = limit::offset_cancel(g.is_local, low, o, far);
    let t = g.train_idx_moved;
    Round {
        est_count: codec::est_count(img) as usize,
        path_count: h.path_count as usize,
        diverge_count: h.diverge_count as usize,
        diverge_room: codec::diverge_room(img) as usize,
        disp_node_idx_fixed: h.fixed as usize,
        train_idx_moved: t,
        offset_cancel: m,
        idx_split_save: split,
    }
}

fn place_of(h: PathHeader, split: usize, div_split: usize, save: usize) -> Place
    ensures { result ≡ start_at h split div_split save }
{
    Place {
        idx_split: split,
        div_idx_split: div_split,
        idx_save: save,
        disp_node_idx_free: h.free as usize,
        new_count: 0,
        div_count: 1,
        pool_count: 1,
    }
}

// The search from the split point.
fn search_at(
    img: &mut [u8],
    occ: &[u32],
    on: &[u8],
    g: Given,
    h: PathHeader,
    split: usize,
    div_split: usize,
    z: IdxSentinels,
    dt: &mut [u32],
    dn: &mut [u32],
) -> RoundEnd
    requires { Held occ.now img.old on.now dt.old dn.old h × (diverge_room img.old ≤ length dt.old) × (diverge_room img.old ≤ length dn.old) × (1 ≤ split) × (split < h.path_count) }
    ensures { EndsAs (λ G t. round_from G t split div_split (record { node = z.node; divs = z.divs })) occ.now img.old dt.old dn.old g h result
        img.new dt.new dn.new
        × (end_refused result.end ≡ false → Kept img.new img.old)
        × (is_at_end result.end ≡ false)
        × StepsAs (λ G t. steps_by G t split div_split (record { node = z.node; divs = z.divs })) occ.now img.old dt.old dn.old g h result }
{
    let m = h.diverge_count as usize;
    let d = match diverge::div_at(dn, m, split, div_split, z.node, z.divs) {
        Ok(d) => d,
        Err(halt) => return refused(halt, h),
    };
    let save = match path::save_point(img, h.path_count, h.fixed as usize, split) {
        Ok(save) => save,
        Err(halt) => return refused(halt, h),
    };
    let r = round_of(img, g, h, split);
    let p = place_of(h, split, d, save);
    searching::search(img, occ, on, h, r, p, dt, dn)
}

// One round; col is link_idx_path, on the flags of the path.
pub fn round(
    img: &mut [u8],
    occ: &[u32],
    col: &[u32],
    on: &[u8],
    g: Given,
    h: PathHeader,
    split: usize,
    div_split: usize,
    dt: &mut [u32],
    dn: &mut [u32],
) -> RoundEnd
    requires { Held occ.now img.old on.now dt.old dn.old h × (diverge_room img.old ≤ length dt.old) × (diverge_room img.old ≤ length dn.old)
        × (listed h.path_count (link_at col.now) ≡ link_idx_path (path_of img.old h.path_count))
        × (1 ≤ split)
        × (1 ≤ div_split) }
    ensures { EndsAs (λ G t. round_of G t split div_split) occ.now img.old dt.old dn.old g h result
        img.new dt.new dn.new
        × (end_refused result.end ≡ false → Kept img.new img.old)
        × (is_at_end result.end ≡ true → train_of img.new dt.new dn.new result.header ≡ train_of img.old dt.old dn.old h)
        × StepsAs (λ G t. round_steps G t split div_split) occ.now img.old dt.old dn.old g h result
        × MetAs (λ G t. round_met G t split div_split) occ.now img.old dt.old dn.old g h result }
{
    let n = h.path_count;
    let m = h.diverge_count as usize;
    let z = match link_opt_type::calc_idx_sentinels(div_split, g.train_idx_moved, dt, dn, m) {
        Ok(z) => z,
        Err(halt) => return refused(halt, h),
    };
    let class = g.link_opt_type;
    let free = h.free as usize;
    let i = match split::split_point(class, img, n, col, occ, free, split, z.node) {
        Ok(i) => i,
        Err(halt) => return refused(halt, h),
    };
    if n as usize <= i.index {
        let end = ending::ended(End::AtEnd, h, 0);
        return RoundEnd { met: i.met, ..end };
    }
    let end = search_at(img, occ, on, g, h, i.index, div_split, z, dt, dn);
    RoundEnd { met: i.met, ..end }
}
