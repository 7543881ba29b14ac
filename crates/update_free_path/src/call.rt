// The parts of an update's call around its loop over rounds: refusals 2 to 9 and 22, and what the first round finds (free_path.rs 252-275).
// Of its functions call_fault, which a check asks too, and given_fault and update_fault, which a game asks, are public.
ghost use Rattle.std.specs.Prelude.{◌≡◌, not, ◌&&◌, ◌||◌, List, ℕ, ◌^◌, ◌≤◌, ◌<◌, leb, eqb, length};
ghost use Rattle.disp_structs.specs.Listed.{listed};
ghost use Rattle.disp_structs.specs.Values.{minus};
ghost use Rattle.free_path.specs.Columns.{div_at};
ghost use Rattle.image.specs.Image.{largest_train, diverge_at, node_at, dist_fixed_max_of};
ghost use Rattle.link_rules.specs.Refusals.{raised};
ghost use Rattle.update_definition.specs.Update.{adjust_sentinel};
ghost use Rattle.update_definition.specs.UpdateImage.{links_below, call_fault, entries_up_to, given_fault, update_fault_in};
ghost use Rattle.image_fault.specs.declared.Widths.TheVariants.{Either};

use crate::start::Args;
use disp_structs::Metres;
use image::codec;
use image_fault::Widths;
use link_rules::link_idx::TrainIdx;
use link_rules::refusal::{Refusal, refuse_unless};

// ---- refusals before the first round

fn length_fits(l: usize) -> bool
    ensures { result ≡ (leb 2 l && leb l 4000) }
{
    2 <= l && l <= 4000
}

// All are asked, so that the compiler can take several at once.
fn links_below(blocking: &[u32], l: usize) -> bool
    requires { l < 2 ^ 32 }
    ensures { result ≡ links_below l blocking.now }
{
    let links = l as u32;
    let mut below = true;
    for x in blocking {
        below &= *x < links;
    }
    below
}

fn blocking_fits(blocking: &[u32], l: usize) -> bool
    requires { l < 2 ^ 32 }
    ensures { result ≡ (leb (length blocking.now) 4000 && links_below l blocking.now) }
{
    blocking.len() <= 4000 && links_below(blocking, l)
}

// The moved train and the round limit.
fn order_fits(moved: TrainIdx, limit: u16) -> bool
    ensures { result ≡ not (eqb moved.0 0 || eqb limit 0) }
{
    moved.0 != 0 && limit != 0
}

// 2 occupancy length; 4 blocking links; 5 moved train or limit 0. Of the occupancy only the length is asked.
pub fn call_fault(l: usize, blocking: &[u32], moved: TrainIdx, limit: u16) -> Result<(), Refusal>
    ensures { (occ : List ℕ) → length occ ≡ l → result ≡ raised (call_fault occ blocking.now moved.0 limit) }
{
    refuse_unless(length_fits(l), 2)?;
    refuse_unless(blocking_fits(blocking, l), 4)?;
    refuse_unless(order_fits(moved, limit), 5)
}

// The greatest of the entries and of moved. All are read, so that the compiler can take many at once.
fn greatest_train(occ: &[u32], moved: u32) -> u32
    ensures { (top : ℕ) → leb result top ≡ (entries_up_to top occ.now && leb moved top) }
{
    let mut t = moved;
    for x in occ {
        t = t.max(*x);
    }
    t
}

fn largest_train(image: &[u8]) -> u32
    ensures { result ≡ largest_train image.now }
{
    if codec::is_wide(image) {
        return 999999;
    }
    65535
}

// 22: an entry of the occupancy or the moved train that the image cannot hold, in a call that takes images of either width.
pub fn given_fault(image: &[u8], occ: &[u32], moved: TrainIdx) -> Result<(), Refusal>
    ensures { result ≡ raised (given_fault Either image.now occ.now moved.0) }
{
    let t = greatest_train(occ, moved.0);
    refuse_unless(t <= largest_train(image), 22)
}

// Those of the call, else those of the image; own is the 22 of the call.
pub fn update_fault(
    image: &[u8],
    l: usize,
    blocking: &[u32],
    o: Args,
    w: Widths,
    own: Result<(), Refusal>,
) -> Result<(), Refusal>
    ensures { (occ : List ℕ) → length occ ≡ l → own ≡ raised (given_fault w image.now occ o.moved.0) → result ≡ raised (update_fault_in w image.now occ blocking.now o.moved.0 o.limit) }
{
    call_fault(l, blocking, o.moved, o.limit)?;
    image_fault::fault_with(image, l as u32, w, own)
}

// ---- what the first round finds

// The first m diverge nodes of the image, into two columns.
pub(crate) fn take_diverges(img: &[u8], m: usize, dt: &mut [u32], dn: &mut [u32])
    requires { (m ≤ length dt.old) × (m ≤ length dn.old) × (m < 2 ^ 32) }
    ensures { listed m (div_at dt.new dn.new) ≡ listed m (diverge_at img.now) }
{
    let wide = codec::is_wide(img);
    let e = codec::est_count(img);
    for i in 0..m {
        let d = codec::diverge_with(img, wide, e, i as u32);
        dt[i] = d.train_idx.0;
        dn[i] = d.disp_node_idx;
    }
}

// The last of m diverge nodes takes the moved train (275).
pub(crate) fn adjust_sentinel(dt: &mut [u32], m: usize, moved: TrainIdx)
    requires { (1 ≤ m) × (m ≤ length dt.old) }
    ensures { (ns : List ℕ) → listed m (div_at dt.new ns) ≡ adjust_sentinel moved (listed m (div_at dt.old ns)) }
{
    dt[m - 1] = moved.0;
}

// offset_lowest (270-271), free being the index of the first node of the free path.
pub(crate) fn offset_lowest(img: &[u8], free: u32) -> Metres
    ensures { result ≡ minus (node_at img.now free).offset (dist_fixed_max_of img.now) }
{
    let n = codec::node_at(img, free);
    let d = codec::dist_fixed_max(img);
    Metres(n.offset.0 - d.0)
}
