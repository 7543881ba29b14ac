// Readers over arrays of numbers that a caller lends. What stands past an array's end reads as 0.
ghost use Rattle.std.specs.Prelude.{◌≡◌, length, slice_index};
ghost use Rattle.link_rules.specs.LinkIdx.{occupied};
ghost use Rattle.free_path.specs.Columns.{links, link_at, flagged, flag_link, flag_links, kept};
ghost use Rattle.disp_structs.specs.Listed.{listed};

use link_rules::link_idx::LinkIdx;

pub fn u32_of(col: &[u32], i: usize) -> u32
    ensures { result ≡ slice_index col.now i }
{
    if i < col.len() { col[i] } else { 0 }
}

pub(crate) fn link_of(col: &[u32], i: usize) -> LinkIdx
    ensures { result ≡ link_at col.now i }
{
    LinkIdx(u32_of(col, i))
}

// The entries of a column of u16 go into one of u32 that has as many.
pub fn widen(from: &[u16], to: &mut [u32])
    ensures { length to.old ≡ length from.now → to.new ≡ from.now }
{
    if to.len() != from.len() {
        return;
    }
    for (i, x) in from.iter().enumerate() {
        to[i] = u32::from(*x);
    }
}

// Is the link held by a train?
pub fn is_occupied(occ: &[u32], l: LinkIdx) -> bool
    ensures { result ≡ occupied occ.now l }
{
    u32_of(occ, l.0 as usize) != 0
}

// Is the link in the set?
pub(crate) fn is_flagged(flags: &[u8], l: LinkIdx) -> bool
    ensures { result ≡ flagged flags.now l }
{
    let i = l.0 as usize;
    i < flags.len() && flags[i] != 0
}

// The link goes into the set.
fn flag_link(flags: &mut [u8], l: LinkIdx)
    ensures { flags.new ≡ flag_link l flags.old }
{
    let i = l.0 as usize;
    if i != 0 && i < flags.len() {
        flags[i] = 1;
    }
}

// The n links of a column go into the set: links_on_path from link_idx_path.
pub fn flag_links(flags: &mut [u8], col: &[u32], n: usize)
    ensures { flags.new ≡ flag_links (listed n (link_at col.now)) flags.old }
{
    for i in 0..n {
        flag_link(flags, link_of(col, i));
    }
}

// The links of a list that are in the other set go into the set: the blocking links on the starting path.
pub fn flag_known(flags: &mut [u8], blocking: &[u32], on: &[u8])
    ensures { flags.new ≡ flag_links (kept (flagged on.now) (links blocking.now)) flags.old }
{
    for x in blocking {
        let l = LinkIdx(*x);
        if is_flagged(on, l) {
            flag_link(flags, l);
        }
    }
}
