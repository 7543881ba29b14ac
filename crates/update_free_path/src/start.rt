// The first round of an update: what it finds, and the loop from there (free_path.rs 265-277).
ghost use Rattle.std.specs.Prelude.{◌≡◌, ◌≤◌, length};
ghost use Rattle.disp_structs.specs.Listed.{listed};
ghost use Rattle.image.specs.Image.{diverge_at};
ghost use Rattle.free_path.specs.Columns.{div_at};
ghost use Rattle.update_definition.specs.Update.{adjust_sentinel};
ghost use Rattle.update_free_path.specs.Updates.{start_at, given_at, UpdateBegins, Space, Finished};

use crate::rounds::{Between, Ran};
use crate::{call, rounds};
use free_path::columns;
use free_path::link_opt_type::LinkOptType;
use image::codec::PathHeader;
use link_rules::link_idx::TrainIdx;
use round::Given;
use tally;

// The arguments of an update besides the image and the lists.
#[derive(Clone, Copy)]
pub struct Args {
    pub moved: TrainIdx,
    pub local: bool,
    pub limit: u16,
}

// The m diverge nodes of the image, the last with the moved train.
fn start_diverges(img: &[u8], m: u32, moved: TrainIdx, dt: &mut [u32], dn: &mut [u32])
    requires { (1 ≤ m) × (m ≤ length dt.old) × (m ≤ length dn.old) }
    ensures { listed m (div_at dt.new dn.new) ≡ adjust_sentinel moved (listed m (diverge_at img.now)) }
{
    let n = m as usize;
    call::take_diverges(img, n, dt, dn);
    call::adjust_sentinel(dt, n, moved);
}

fn given_of(img: &[u8], blocking: &[u32], flags: &[u8], o: Args, free: u16) -> Given
    ensures { result ≡ given_at img.now blocking.now flags.now o free }
{
    let moved = o.moved;
    Given {
        train_idx_moved: moved,
        is_local: o.local,
        link_opt_type: LinkOptType::new(blocking, flags),
        offset_lowest: call::offset_lowest(img, free as u32),
    }
}

fn start_of(h: PathHeader, strays: usize) -> Between
    ensures { result ≡ start_at h strays }
{
    Between {
        header: h,
        split: 1,
        div_split: 1,
        tally: tally::started(strays as u64),
        met: TrainIdx(0),
    }
}

// The rounds of an update of the train of an image, which is a copy. col and on are for the path, flags and known for links.
pub(crate) fn run(
    img: &mut [u8],
    occ: &[u32],
    blocking: &[u32],
    o: Args,
    h: PathHeader,
    col: &mut [u32],
    on: &mut [u8],
    flags: &mut [u8],
    known: &mut [u8],
    dt: &mut [u32],
    dn: &mut [u32],
) -> Ran
    requires { UpdateBegins img.old occ.now h × Space img.old occ.now col.old on.old flags.old known.old dt.old dn.old }
    ensures { Finished img.old occ.now blocking.now o img.new dt.new dn.new result }
{
    let moved = o.moved;
    start_diverges(img, h.diverge_count, moved, dt, dn);
    rounds::derive(img, h.path_count, col, on);
    columns::flag_links(flags, col, h.path_count as usize);
    columns::flag_known(known, blocking, flags);
    let g = given_of(img, blocking, flags, o, h.free);
    let w = start_of(h, rounds::strays_of(col, h, occ, known));
    rounds::rounds(img, occ, known, g, w, o.limit, col, on, dt, dn)
}
