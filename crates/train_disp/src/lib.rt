// Laying out a new train: TrainDisp::new (train_disp/mod.rs 105-215).
// Every function here is proved, the crate assumes nothing of its own, and no public function has a `requires`.
#![tactic(auto)]

ghost use Rattle.std.specs.Prelude.{◌≡◌, true, false, ◌+◌, ◌≤◌, length};
ghost use Rattle.disp_structs.specs.Values;
ghost use Rattle.disp_structs.specs.Values.{zero_metres};
ghost use Rattle.image.specs.Image.{est_count, node_place};
ghost use Rattle.link_rules.specs.Refusals.{raised};
ghost use Rattle.image_fault.specs.ImageFault.{image_fault};
ghost use Rattle.train_disp.specs.TrainDisp.{new_node, offset_behind, walk_next, new_path, setting_bits, with_header, with_est, put_nodes, with_ends, laid_image, sizes_fit, all_within, lay_out_fault, laid, laid_out};
ghost use Rattle.train_disp.specs.CodeFacts.{Sized};

use disp_structs::{DispNode, EstIdx, EstTime, Metres, Seconds, floats};
use image::codec;
use link_rules::link_idx::NarrowTrainIdx;
use link_rules::octets;
use link_rules::refusal::{Refusal, refuse_unless};

// What a layout is told besides the est records: the train, the two distance settings, and document 01's Q and L.
#[derive(Clone, Copy)]
pub struct Settings {
    pub train_idx: NarrowTrainIdx,
    pub dist_disp_path_search: Metres,
    pub dist_fixed_max: Metres,
    pub diverge_room: u32,
    pub links: u32,
}

// Writes the image of a new train, its path along next from est 0. Refused by 5 to 9 and 11: then nothing is changed.
pub fn lay_out(est: &[u8], settings: Settings, image: &mut [u8]) -> Result<(), Refusal>
    ensures { laid result image.new ≡ laid_out est.now settings image.old }
{
    lay_out_fault(est, settings, image.len())?;
    build(image, est, settings, true);
    Ok(())
}

// The first refusal, in document 01's order. The records are judged once train and sizes are good.
pub fn lay_out_fault(est: &[u8], settings: Settings, size: usize) -> Result<(), Refusal>
    ensures { result ≡ raised (lay_out_fault est.now settings size) }
{
    refuse_unless(settings.train_idx.0 != 0, 5)?;
    refuse_unless(sizes_fit(est.len(), settings, size), 6)?;
    judge(est, settings, size)?;
    refuse_unless(offsets_fit(est), 11)
}

#[tactic(auto, unfolding(crate::specs::TrainDisp::sizes_fit))]
fn sizes_fit(n: usize, settings: Settings, size: usize) -> bool
    ensures { result ≡ sizes_fit n settings size }
{
    let e = n / 32;
    let q = settings.diverge_room as usize;
    let links = settings.links;
    n % 32 == 0
        && 1 <= e
        && e <= 512
        && 2 <= q
        && q <= 1024
        && 2 <= links
        && links <= 4000
        && size == 64 + 64 * e + 4 * q
}

// 6 to 9 of the image with all offsets 0. A small image is judged in a small buffer, which takes less time to clear.
fn judge(est: &[u8], settings: Settings, size: usize) -> Result<(), Refusal>
    requires { Sized (length est.now) settings size }
    ensures { result ≡ raised (image_fault (laid_image false est.now settings size) settings.links) }
{
    if size <= 4096 {
        return judge_in::<4096>(est, settings, size);
    }
    judge_in::<36928>(est, settings, size)
}

// In a buffer of N bytes.
fn judge_in<const N: usize>(est: &[u8], settings: Settings, size: usize) -> Result<(), Refusal>
    requires sized { Sized (length est.now) settings size }
    requires room { size ≤ N }
    requires few { N ≤ 36928 }
    ensures { result ≡ raised (image_fault (laid_image false est.now settings size) settings.links) }
{
    let mut room = [0u8; N];
    let img = &mut room[..size];
    build(img, est, settings, false);
    image_fault::image_fault(img, settings.links)
}

fn build(img: &mut [u8], est: &[u8], settings: Settings, sums: bool)
    requires { Sized (length est.now) settings (length img.old) }
    ensures { img.new ≡ laid_image sums est.now settings (length img.old) }
{
    let e = (est.len() / 32) as u32;
    codec::zero_all(img);
    put_header(img, e, settings);
    put_est(img, est);
    let n = put_path(img, est, e, sums);
    put_ends(img, e, n);
}

fn setting_bits(x: f64) -> u64
    ensures { result ≡ setting_bits x }
{
    if x != x {
        return 0x7ff8_0000_0000_0000;
    }
    floats::bits_of(x)
}

fn put_header(img: &mut [u8], e: u32, settings: Settings)
    requires { (e ≤ 512) × (settings.diverge_room ≤ 1024) }
    ensures { img.new ≡ with_header e settings img.old }
{
    let q = settings.diverge_room;
    octets::put_u32(img, 0, 64 + 64 * e + 4 * q);
    octets::put_u32(img, 12, 2);
    octets::put_u32(img, 16, q);
    octets::put_u32(img, 20, 64);
    octets::put_u32(img, 24, 64 + 32 * e);
    octets::put_u32(img, 28, 64 + 64 * e);
    octets::put_u16(img, 32, settings.train_idx.0);
    octets::put_u64(img, 48, setting_bits(settings.dist_disp_path_search.0));
    octets::put_u64(img, 56, setting_bits(settings.dist_fixed_max.0));
    octets::put_u32(img, 4, e);
}

fn put_est(img: &mut [u8], est: &[u8])
    requires { 64 + length est.now ≤ length img.old }
    ensures { img.new ≡ with_est est.now img.old }
{
    img[64..64 + est.len()].copy_from_slice(est);
}

fn never() -> Seconds
    ensures { result ≡ Values.never }
{
    Seconds(floats::real_of(0x7ff0_0000_0000_0000))
}

fn new_node(x: EstTime, e: u32, o: Metres) -> DispNode
    ensures { result ≡ new_node x e o }
{
    let event = x.link_event;
    DispNode {
        offset: o,
        time_pass: never(),
        link_event: event,
        est_idx: EstIdx(e),
        disp_auth_idx_entry: 0,
    }
}

fn offset_behind(sums: bool, o: Metres, x: EstTime) -> Metres
    ensures { result ≡ offset_behind sums o x }
{
    if sums {
        return Metres(o.0 + x.dist_to_next.0);
    }
    o
}

// Writes the path along next, and tells how many nodes it has.
fn put_path(img: &mut [u8], est: &[u8], e: u32, sums: bool) -> u32
    requires { (e ≤ 512) × (est_count img.old ≡ e) }
    ensures { (result ≡ length (walk_next sums est.now e 0 zero_metres))
        × (img.new ≡ put_nodes (walk_next sums est.now e 0 zero_metres) (node_place e 0) img.old) }
{
    let mut at: u32 = 0;
    let mut o = Metres(0.0);
    for i in 0..e {
        let x = codec::est_in(est, at);
        codec::put_node(img, i, new_node(x, at, o));
        if x.idx_next.0 == 0 {
            return i + 1;
        }
        at = x.idx_next.0;
        o = offset_behind(sums, o, x);
    }
    e
}

fn put_ends(img: &mut [u8], e: u32, n: u32)
    requires { (e ≤ 512) × (n ≤ 512) }
    ensures { img.new ≡ with_ends e n img.old }
{
    octets::put_u32(img, 8, n);
    octets::put_u16(img, codec::diverge_place(false, e, 1) + 2, n as u16);
}

// No stored offset is beyond 1e12 in magnitude.
fn offsets_fit(est: &[u8]) -> bool
    requires { length est.now ≤ 16384 }
    ensures { result ≡ all_within (new_path true est.now) }
{
    let mut at: u32 = 0;
    let mut o = Metres(0.0);
    for _i in 0..est.len() / 32 {
        if !floats::in_reach(o.0) {
            return false;
        }
        let x = codec::est_in(est, at);
        if x.idx_next.0 == 0 {
            return true;
        }
        at = x.idx_next.0;
        o = offset_behind(true, o, x);
    }
    true
}
