// The split point: where the round's search begins (free_path.rs 283-305).
ghost use Rattle.std.specs.Prelude.{◌≡◌};
ghost use Rattle.disp_structs.specs.Listed.{listed};
ghost use Rattle.free_path.specs.Columns.{link_at};
ghost use Rattle.update_definition.specs.Update as Update;
ghost use Rattle.update_definition.specs.Update.{search_begin};
ghost use Rattle.image.specs.Image.{path_of};
ghost use Rattle.round_start.specs.Start.{split_at, Splits};

use crate::path;
use free_path::halt::Halt;
use free_path::link_opt_type;
use free_path::link_opt_type::LinkOptType;
use link_rules::link_idx::TrainIdx;

// idx_split, and the train met there.
#[derive(Clone, Copy)]
pub struct Split {
    pub index: usize,
    pub met: TrainIdx,
}

// Where the intersection search begins.
fn search_begin(split: usize, free: usize, sentinel: usize) -> usize
    ensures { result ≡ search_begin split free sentinel }
{
    if split < free {
        free.min(sentinel)
    } else {
        split
    }
}

// The first intersection, with link_idx_path as n links of a column.
fn meeting(
    class: LinkOptType,
    col: &[u32],
    n: usize,
    occ: &[u32],
    free: usize,
    split: usize,
    sentinel: usize,
) -> Result<Split, Halt>
    ensures { Splits result sentinel (listed n (link_at col.now)) occ.now (Update.meeting class occ.now (listed n (link_at col.now)) free split sentinel) }
{
    if sentinel < split {
        return Err(Halt::Panic);
    }
    let begin = search_begin(split, free, sentinel);
    if n <= begin {
        return Err(Halt::Panic);
    }
    let x = link_opt_type::find_train_intersect(begin, sentinel, class, col, n, occ)?;
    Ok(Split {
        index: x.idx,
        met: x.met,
    })
}

// idx_split after the intersection search.
pub fn split_point(
    class: LinkOptType,
    img: &[u8],
    n: u32,
    col: &[u32],
    occ: &[u32],
    free: usize,
    split: usize,
    sentinel: usize,
) -> Result<Split, Halt>
    ensures { Splits result sentinel (listed n (link_at col.now)) occ.now
        (split_at class (path_of img.now n) (listed n (link_at col.now)) occ.now free split sentinel) }
{
    if path::is_apart(class, img, n) {
        return Ok(Split {
            index: sentinel,
            met: TrainIdx(0),
        });
    }
    meeting(class, col, n as usize, occ, free, split, sentinel)
}
