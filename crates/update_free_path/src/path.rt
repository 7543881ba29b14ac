// link_idx_path of a path in a column, and is_on_path in flags: the image has neither.
ghost use Rattle.std.specs.Prelude.{◌≡◌, ℕ, ◌<◌, ◌≤◌, length};
ghost use Rattle.disp_structs.specs.Listed.{listed};
ghost use Rattle.disp_structs.specs.Values.{arriving};
ghost use Rattle.image.specs.Image.{est_count, node_at, path_of};
ghost use Rattle.free_path.specs.Columns.{link_at};
ghost use Rattle.free_path.specs.LinkOptType.{link_idx_path};
ghost use Rattle.search.specs.Read.{Marked};

use disp_structs::{EstIdx, events};
use image::codec;
use link_rules::link_idx::LinkIdx;
use link_rules::octets;

// ---- link_idx_path

// An entry of link_idx_path whose node ends past the image.
fn arrive_past(img: &[u8], i: u32) -> LinkIdx
    ensures { result ≡ arriving (node_at img.now i) }
{
    let e = codec::node_link_event(img, i);
    let t = e.est_type;
    if events::is_arrive(t) {
        return e.link_idx;
    }
    LinkIdx(0)
}

// An entry of link_idx_path, of an image with e est records. The caller has read the count once: after a store to the column it would be read again.
fn arrive_link(img: &[u8], e: u32, i: u32) -> LinkIdx
    requires { e ≡ est_count img.now }
    ensures { result ≡ arriving (node_at img.now i) }
{
    let at = codec::node_place(e, i);
    if img.len() < at + 32 {
        return arrive_past(img, i);
    }
    if img[at + 26] == 0 {
        return LinkIdx(octets::u32_at(img, at + 16));
    }
    LinkIdx(0)
}

// link_idx_path of the n nodes of the path, without its ending sentinel.
pub(crate) fn link_path(img: &[u8], n: u32, col: &mut [u32])
    requires { n ≤ length col.old }
    ensures { listed n (link_at col.new) ≡ link_idx_path (path_of img.now n) }
{
    let e = codec::est_count(img);
    for i in 0..n {
        let l = arrive_link(img, e, i);
        col[i as usize] = l.0;
    }
}

// ---- is_on_path

// The est index of node i, of an image with e est records.
fn est_of(img: &[u8], e: u32, i: u32) -> EstIdx
    requires { e ≡ est_count img.now }
    ensures { result ≡ (node_at img.now i).est_idx }
{
    let at = codec::node_place(e, i);
    if img.len() < at + 32 {
        return codec::node_est_idx(img, i);
    }
    EstIdx(octets::u32_at(img, at + 20))
}

// is_on_path of the n nodes of the path, whatever the flags were.
pub(crate) fn mark_path(img: &[u8], n: u32, on: &mut [u8])
    requires { (i : ℕ) → i < n → (node_at img.now i).est_idx.0 < length on.old }
    ensures { Marked on.new (path_of img.now n) }
{
    codec::zero_all(on);
    let e = codec::est_count(img);
    for i in 0..n {
        let x = est_of(img, e, i);
        on[x.0 as usize] = 1;
    }
}
