// The strays of a path, over link_idx_path.
ghost use Rattle.std.specs.Prelude.{◌≡◌, drop};
ghost use Rattle.free_path.specs.Base.{count};
ghost use Rattle.free_path.specs.Validate.{stray_link};
ghost use Rattle.free_path.specs.Columns.{link_at, flagged};
ghost use Rattle.disp_structs.specs.Listed.{listed};

use crate::columns;
use link_rules::link_idx::LinkIdx;

// An entry of link_idx_path that is an occupied link and not known.
fn is_stray(occ: &[u32], known: &[u8], l: LinkIdx) -> bool
    ensures { result ≡ stray_link occ.now (flagged known.now) l }
{
    l.0 != 0 && columns::is_occupied(occ, l) && !columns::is_flagged(known, l)
}

// The strays at or after free of a path of n nodes. A loop: filter and count were measured slower.
pub fn strays(col: &[u32], n: usize, free: usize, occ: &[u32], known: &[u8]) -> usize
    ensures { result ≡ count (stray_link occ.now (flagged known.now)) (drop free (listed n (link_at col.now))) }
{
    let mut k = 0;
    for i in free..n {
        k += usize::from(is_stray(occ, known, columns::link_of(col, i)));
    }
    k
}
