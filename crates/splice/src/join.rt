// The join (free_path.rs 576-631), and update_free_path_helpers (690-746).
ghost use Rattle.std.specs.Prelude.{◌≡◌, ◌+◌, ◌^◌, ◌<◌};
ghost use Rattle.disp_structs.specs.Values.{plus, minus};
ghost use Rattle.image.specs.Image.{diverge_room, node_at};
ghost use Rattle.free_path.specs.Base.{ok};
ghost use Rattle.update_definition.specs.Join as Joined;
ghost use Rattle.update_definition.specs.Join.{splice_at};
ghost use Rattle.splice.specs.Read.{JoinFits, PathFits};
ghost use Rattle.splice.specs.Parts.{DivsFit};
ghost use Rattle.splice.specs.Answers.{DivsUpdated, SidesMoved, HelpersFit, HelpersDone, FinishesAt, join_base, JoinsTo};

use crate::diverge::Divs;
use crate::{Again, Reached, diverge, ends, links, path};
use disp_structs::{DispNode, EstTime, Metres};
use free_path::halt::Halt;
use image::codec;
use image::codec::PathHeader;

// disp_node_idx_front and disp_node_idx_back.
#[derive(Clone, Copy)]
pub struct Sides {
    pub front: u16,
    pub back: u16,
}

// The front and the back on the new path: the back is the lower end where it is before the front.
fn front_back(
    img: &[u8],
    n: u32,
    fresh: &[u8],
    k: u32,
    split: u32,
    base: u32,
    front: u16,
    back: u16,
) -> Result<Sides, Halt>
    requires { split + k < 2 ^ 16 }
    ensures { SidesMoved img.now n fresh.now k split base front back result }
{
    if back < front {
        let x = ends::new_ends(img, n, fresh, k, split, base, back as u32, front as u32)?;
        return Ok(Sides {
            front: x.high as u16,
            back: x.low as u16,
        });
    }
    let y = ends::new_ends(img, n, fresh, k, split, base, front as u32, back as u32)?;
    Ok(Sides {
        front: y.low as u16,
        back: y.high as u16,
    })
}

// The links on the path, the offsets from base on, the front and the back.
fn update_free_path_helpers(
    img: &mut [u8],
    fresh: &[u8],
    h: PathHeader,
    r: Reached,
    base: u32,
    change: Metres,
) -> Result<Sides, Halt>
    requires { HelpersFit img.old fresh.now h r }
    ensures { HelpersDone img.old fresh.now h r base change result img.new }
{
    let n = h.path_count;
    let k = r.new_count;
    links::exchange_links(img, n, r.split, base, fresh, k)?;
    path::update_offsets(img, n, base, change)?;
    front_back(img, n, fresh, k, r.split, base, h.front, h.back)
}

// offset_change (592-593)
fn offset_change(img: &[u8], base: u32, curr: DispNode, est: EstTime) -> Metres
    ensures { result ≡ minus (plus curr.offset est.dist_to_next) (node_at img.now base).offset }
{
    let at = codec::node_at(img, base);
    Metres(curr.offset.0 + est.dist_to_next.0 - at.offset.0)
}

// update_div_nodes with the room of the image.
fn divs_at(
    img: &[u8],
    h: PathHeader,
    r: Reached,
    base: u32,
    dt: &mut [u32],
    dn: &mut [u32],
    nt: &mut [u32],
    nn: &mut [u32],
) -> Result<Divs, Halt>
    requires { DivsFit dt.old dn.old nt.old nn.old h.diverge_count r.div_count (diverge_room img.now) r.div_split r.join }
    ensures { DivsUpdated dt.old dn.old nt.old nn.old h.diverge_count r.div_count (diverge_room img.now) r.div_split base r.join result
        dt.new dn.new }
{
    let m = h.diverge_count as usize;
    let room = codec::diverge_room(img) as usize;
    diverge::update_div_nodes(
        dt,
        dn,
        m,
        nt,
        nn,
        r.div_count,
        room,
        r.div_split,
        base,
        r.join,
    )
}

// The path is spliced at base, and disp_node_idx_fixed becomes disp_node_idx_free (600-631); h has the numbers of the train before that.
fn finish_at(
    img: &mut [u8],
    fresh: &[u8],
    h: PathHeader,
    r: Reached,
    base: u32,
    div_split: usize,
) -> Result<Again, Halt>
    requires { PathFits img.old fresh.now h r base }
    ensures { FinishesAt img.old fresh.now h r base div_split result img.new }
{
    let n = h.path_count;
    let total = r.split + r.new_count + (n - base);
    let moved = path::splice_path(img, fresh, n, r.split, base, r.new_count);
    path::free_is_correct(img, total, r.free)?;
    Ok(Again {
        header: PathHeader {
            path_count: total,
            fixed: r.free as u16,
            free: r.free as u16,
            ..h
        },
        split: r.join,
        div_split,
        moves: moved,
    })
}

// The join at base, where the old path has the next est (589-631).
fn splice_at(
    img: &mut [u8],
    fresh: &[u8],
    h: PathHeader,
    r: Reached,
    curr: DispNode,
    est: EstTime,
    base: u32,
    dt: &mut [u32],
    dn: &mut [u32],
    nt: &mut [u32],
    nn: &mut [u32],
) -> Result<Again, Halt>
    requires { JoinFits img.old fresh.now dt.old dn.old nt.old nn.old h r est.idx_next × (join_base img.old h r est ≡ ok base) }
    ensures { JoinsTo (λ R H S. splice_at R H S base) (ok base) h r curr est img.old fresh.now dt.old dn.old nt.old nn.old result
        img.new dt.new dn.new }
{
    let change = offset_change(img, base, curr, est);
    let x = update_free_path_helpers(img, fresh, h, r, base, change)?;
    let d = divs_at(img, h, r, base, dt, dn, nt, nn)?;
    let left = PathHeader {
        diverge_count: d.count as u32,
        front: x.front,
        back: x.back,
        ..h
    };
    finish_at(img, fresh, left, r, base, d.split)
}

// The new path and the new diverge nodes join the old ones where the old path has the next est.
pub fn join(
    img: &mut [u8],
    fresh: &[u8],
    h: PathHeader,
    r: Reached,
    curr: DispNode,
    est: EstTime,
    dt: &mut [u32],
    dn: &mut [u32],
    nt: &mut [u32],
    nn: &mut [u32],
) -> Result<Again, Halt>
    requires { JoinFits img.old fresh.now dt.old dn.old nt.old nn.old h r est.idx_next }
    ensures { JoinsTo Joined.join (join_base img.old h r est) h r curr est img.old fresh.now dt.old dn.old nt.old nn.old result
        img.new dt.new dn.new }
{
    let base = path::join_base(img, h.path_count, r.split_save, est.idx_next)?;
    splice_at(img, fresh, h, r, curr, est, base, dt, dn, nt, nn)
}
