// update_free_path (free_path.rs 252-638) on the bytes of one image, proved equal to updated_image and updated_image_wide of update_definition.
// Every function here is proved, the crate assumes nothing of its own, and no public function has a `requires`.
#![tactic(auto)]

pub mod answer;
pub mod call;
mod path;
pub mod rounds;
pub mod start;

ghost use Rattle.std.specs.Prelude.{◌≡◌, List, ℕ, ◌≤◌, length};
ghost use Rattle.image.specs.Image.{est_count, diverge_room};
ghost use Rattle.link_rules.specs.Refusals.{raised};
ghost use Rattle.update_definition.specs.UpdateImage.{stored_answer, given_fault, updated_image, updated_image_wide};
ghost use Rattle.update_free_path.specs.Updates.{updated_of, update_of, UpdateBegins, Space, Judged};

use answer::Updated;
use free_path::columns;
use image::codec;
use image::codec::PathHeader;
use image_fault::Widths;
use link_rules::link_idx::{NarrowTrainIdx, TrainIdx};
use link_rules::octets;
use link_rules::refusal::Refusal;
use start::Args;

// The update runs on a copy of the image; only one that is not refused changes the image.
fn update_in(
    image: &mut [u8],
    scratch: &mut [u8],
    occ: &[u32],
    blocking: &[u32],
    o: Args,
    h: PathHeader,
    col: &mut [u32],
    on: &mut [u8],
    flags: &mut [u8],
    known: &mut [u8],
    dt: &mut [u32],
    dn: &mut [u32],
) -> Updated
    requires { UpdateBegins image.old occ.now h × (length scratch.old ≡ length image.old) × Space image.old occ.now col.old on.old flags.old known.old dt.old dn.old }
    ensures { updated_of result image.new ≡ stored_answer (update_of image.old occ.now blocking.now o) image.old }
{
    octets::put_bytes(scratch, 0, image);
    let r = start::run(scratch, occ, blocking, o, h, col, on, flags, known, dt, dn);
    answer::answered(image, scratch, occ, r, dt, dn)
}

// An update in room for so many bytes, est records, links and diverge nodes.
fn update_in_room<const BYTES: usize, const ESTS: usize, const LINKS: usize, const DIVERGES: usize>(
    image: &mut [u8],
    occ: &[u32],
    blocking: &[u32],
    o: Args,
    h: PathHeader,
) -> Updated
    requires begins { UpdateBegins image.old occ.now h }
    requires few { (BYTES ≤ 41024) × (ESTS ≤ 512) × (LINKS ≤ 4000) × (DIVERGES ≤ 1024) }
    requires bytes { length image.old ≤ BYTES }
    requires ests { est_count image.old ≤ ESTS }
    requires links { length occ.now ≤ LINKS }
    requires diverges { diverge_room image.old ≤ DIVERGES }
    ensures { updated_of result image.new ≡ stored_answer (update_of image.old occ.now blocking.now o) image.old }
{
    let mut scratch = [0u8; BYTES];
    let mut col = [0u32; ESTS];
    let mut on = [0u8; ESTS];
    let mut flags = [0u8; LINKS];
    let mut known = [0u8; LINKS];
    let mut dt = [0u32; DIVERGES];
    let mut dn = [0u32; DIVERGES];
    let n = image.len();
    update_in(
        image,
        &mut scratch[..n],
        occ,
        blocking,
        o,
        h,
        &mut col,
        &mut on,
        &mut flags,
        &mut known,
        &mut dt,
        &mut dn,
    )
}

// A short image of at most 64 est records over at most 512 links, in room by its diverge nodes, which takes less time to clear. 4,416 bytes has the largest
// narrow image of at most 64 diverge nodes of that kind, and a wide one may be as long; 8,256 has that of every number of them.
fn update_short(image: &mut [u8], occ: &[u32], blocking: &[u32], o: Args, h: PathHeader) -> Updated
    requires { UpdateBegins image.old occ.now h × (est_count image.old ≤ 64) × (length occ.now ≤ 512) × (length image.old ≤ 8256) }
    ensures { updated_of result image.new ≡ stored_answer (update_of image.old occ.now blocking.now o) image.old }
{
    if codec::diverge_room(image) <= 64 && image.len() <= 4416 {
        return update_in_room::<4416, 64, 512, 64>(image, occ, blocking, o, h);
    }
    update_in_room::<8256, 64, 512, 1024>(image, occ, blocking, o, h)
}

// A long one, or one over many links: every number of est records and links. 33,088 bytes has the largest narrow image of at most 64 diverge nodes.
fn update_long(image: &mut [u8], occ: &[u32], blocking: &[u32], o: Args, h: PathHeader) -> Updated
    requires { UpdateBegins image.old occ.now h }
    ensures { updated_of result image.new ≡ stored_answer (update_of image.old occ.now blocking.now o) image.old }
{
    if codec::diverge_room(image) <= 64 && image.len() <= 33088 {
        return update_in_room::<33088, 512, 4000, 64>(image, occ, blocking, o, h);
    }
    update_in_room::<41024, 512, 4000, 1024>(image, occ, blocking, o, h)
}

// The update in room by its size. Each room is asked for in one place, so that the compiler lays them over one another on the stack.
fn update_begun(image: &mut [u8], occ: &[u32], blocking: &[u32], o: Args, h: PathHeader) -> Updated
    requires { UpdateBegins image.old occ.now h }
    ensures { updated_of result image.new ≡ stored_answer (update_of image.old occ.now blocking.now o) image.old }
{
    if codec::est_count(image) <= 64 && occ.len() <= 512 && image.len() <= 8256 {
        return update_short(image, occ, blocking, o, h);
    }
    update_long(image, occ, blocking, o, h)
}

// The occupancy goes into room of its length.
fn update_widened(
    image: &mut [u8],
    occ: &[u16],
    wide: &mut [u32],
    blocking: &[u32],
    o: Args,
    h: PathHeader,
) -> Updated
    requires { UpdateBegins image.old occ.now h × (length wide.old ≡ length occ.now) }
    ensures { updated_of result image.new ≡ stored_answer (update_of image.old occ.now blocking.now o) image.old }
{
    columns::widen(occ, wide);
    update_begun(image, wide, blocking, o, h)
}

// An occupancy of at most LINKS entries is widened in room for so many.
fn widen_in_room<const LINKS: usize>(
    image: &mut [u8],
    occ: &[u16],
    blocking: &[u32],
    o: Args,
    h: PathHeader,
) -> Updated
    requires begins { UpdateBegins image.old occ.now h }
    requires few { LINKS ≤ 4000 }
    requires links { length occ.now ≤ LINKS }
    ensures { updated_of result image.new ≡ stored_answer (update_of image.old occ.now blocking.now o) image.old }
{
    let mut wide = [0u32; LINKS];
    let n = occ.len();
    update_widened(image, occ, &mut wide[..n], blocking, o, h)
}

// Refusals 2, 4 to 10 and 22 over l links, else the numbers of the image's header; own is the 22 of the call.
fn start_fault(
    image: &[u8],
    l: usize,
    blocking: &[u32],
    o: Args,
    w: Widths,
    own: Result<(), Refusal>,
) -> Result<PathHeader, Refusal>
    ensures { (occ : List ℕ) → length occ ≡ l → own ≡ raised (given_fault w image.now occ o.moved.0) → Judged w result image.now occ blocking.now o }
{
    call::update_fault(image, l, blocking, o, w, own)?;
    let h = codec::path_header(image);
    if h.path_count <= h.free as u32 {
        return Err(Refusal::new(10));
    }
    Ok(h)
}

// Updates the train of a narrow image over an occupancy of any trains. Refused by 2 and 4 to 13: then nothing is changed.
pub fn update_over(
    image: &mut [u8],
    occ: &[u32],
    blocking: &[u32],
    moved: TrainIdx,
    local: bool,
    limit: u16,
) -> Updated
    ensures { updated_of result image.new ≡ updated_image image.old occ.now blocking.now moved.0 local limit }
{
    let o = Args {
        moved,
        local,
        limit,
    };
    match start_fault(image, occ.len(), blocking, o, Widths::Narrow, Ok(())) {
        Ok(h) => update_begun(image, occ, blocking, o, h),
        Err(f) => answer::refused(f),
    }
}

// Updates the train of an image of either width (document 02, Q-6). Refused by 2, 4 to 13 and 22: then nothing is changed.
pub fn update_wide(
    image: &mut [u8],
    occ: &[u32],
    blocking: &[u32],
    moved: TrainIdx,
    local: bool,
    limit: u16,
) -> Updated
    ensures { updated_of result image.new ≡ updated_image_wide image.old occ.now blocking.now moved.0 local limit }
{
    let o = Args {
        moved,
        local,
        limit,
    };
    let own = call::given_fault(image, occ, moved);
    match start_fault(image, occ.len(), blocking, o, Widths::Either, own) {
        Ok(h) => update_begun(image, occ, blocking, o, h),
        Err(f) => answer::refused(f),
    }
}

// Updates the train of a narrow image over an occupancy of u16 entries, which is judged by its length and then widened once.
pub fn update_free_path(
    image: &mut [u8],
    occ: &[u16],
    blocking: &[u32],
    moved: NarrowTrainIdx,
    local: bool,
    limit: u16,
) -> Updated
    ensures { updated_of result image.new ≡ updated_image image.old occ.now blocking.now moved.0 local limit }
{
    let o = Args {
        moved: TrainIdx(moved.0 as u32),
        local,
        limit,
    };
    match start_fault(image, occ.len(), blocking, o, Widths::Narrow, Ok(())) {
        Ok(h) => {
            if occ.len() <= 512 {
                return widen_in_room::<512>(image, occ, blocking, o, h);
            }
            widen_in_room::<4000>(image, occ, blocking, o, h)
        }
        Err(f) => answer::refused(f),
    }
}
