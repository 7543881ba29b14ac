// The path of an image: links_on_path asked for one link, and the save node.
ghost use Rattle.std.specs.Prelude.{◌≡◌, ◌&&◌, ◌≤◌, IfOk};
ghost use Rattle.link_rules.specs.LinkIdx.{same_link};
ghost use Rattle.disp_structs.specs.Values.{is_arrive};
ghost use Rattle.image.specs.Image.{node_at, path_of};
ghost use Rattle.free_path.specs.Halts.{answered};
ghost use Rattle.free_path.specs.LinkOptType.{links_on_path, contains};
ghost use Rattle.update_definition.specs.Update.{apart, save_point};

use disp_structs::events;
use free_path::halt::Halt;
use free_path::link_opt_type::LinkOptType;
use image::codec;
use link_rules::link_idx::LinkIdx;
use search::fakes;

// ---- links_on_path

// Is node i an Arrive node of the link?
fn arrives_at(img: &[u8], i: u32, l: LinkIdx) -> bool
    ensures { result ≡ (is_arrive (node_at img.now i).link_event.est_type && same_link l (node_at img.now i).link_event.link_idx) }
{
    let e = codec::node_link_event(img, i);
    events::is_arrive(e.est_type) && l == e.link_idx
}

// links_on_path.contains(l)
fn on_path(img: &[u8], n: u32, l: LinkIdx) -> bool
    ensures { result ≡ contains (links_on_path (path_of img.now n)) l }
{
    (0..n).any(|i| arrives_at(img, i, l))
}

// The train cannot intersect with the moved train.
pub(crate) fn is_apart(class: LinkOptType, img: &[u8], n: u32) -> bool
    ensures { result ≡ apart class (contains (links_on_path (path_of img.now n))) }
{
    match class {
        LinkOptType::None => true,
        LinkOptType::Single(l) => !on_path(img, n, l),
        _ => false,
    }
}

// ---- the save node

// idx_save
pub fn save_point(img: &[u8], n: u32, fixed: usize, split: usize) -> Result<usize, Halt>
    ensures { (answered result ≡ save_point (path_of img.now n) fixed split) × IfOk result (λ k. n ≤ 512 → fixed ≤ 512 → k ≤ 512) }
{
    if fixed <= split {
        return Ok(fixed);
    }
    fakes::walk_fakes(img, n, split)
}
