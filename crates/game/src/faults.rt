// The refusals of a game before it is judged: the update's own up to 10, with no blocking list, then 28.
ghost use Rattle.std.specs.Prelude.{◌≡◌, ◌&&◌, leb, length, drop};
ghost use Rattle.link_rules.specs.Refusals.{raised};
ghost use Rattle.game.specs.Game.{is_listed, links_fit, start_fault, game_fault};
ghost use Rattle.game.specs.Sets.{game_of};

use image::codec;
use image_fault::Widths;
use link_rules::refusal::{Refusal, refuse_unless};
use update_free_path::call;
use update_free_path::start::Args;

pub(crate) fn index_of(link: u32) -> usize
    ensures { result ≡ link }
{
    link as usize
}

// Is x among the links from an index on?
fn is_listed(links: &[u32], from: usize, x: u32) -> bool
    ensures { result ≡ is_listed (drop from links.now) x }
{
    for i in from..links.len() {
        if links[i] == x {
            return true;
        }
    }
    false
}

// No repeat, no link 0, none at least l.
fn links_fit(links: &[u32], l: usize) -> bool
    ensures { result ≡ links_fit l links.now }
{
    for i in 0..links.len() {
        let x = links[i];
        if x == 0 {
            return false;
        }
        if l <= index_of(x) {
            return false;
        }
        if is_listed(links, i + 1, x) {
            return false;
        }
    }
    true
}

// At most 8 links and 6 turns, and a list that fits.
fn list_fits(l: usize, links: &[u32], turns: u32) -> bool
    ensures { result ≡ (leb (length links.now) 8 && (leb turns 6 && links_fit l links.now)) }
{
    if 8 < links.len() {
        return false;
    }
    if 6 < turns {
        return false;
    }
    links_fit(links, l)
}

// 2, 5 to 10 and 22.
fn start_fault(image: &[u8], occ: &[u32], o: Args) -> Result<(), Refusal>
    ensures { result ≡ raised (start_fault image.now occ.now o.moved.0 o.limit) }
{
    let none = [0u32; 1];
    let own = call::given_fault(image, occ, o.moved);
    call::update_fault(image, occ.len(), &none[..0], o, Widths::Either, own)?;
    let h = codec::path_header(image);
    refuse_unless((h.free as u32) < h.path_count, 10)
}

// The update's own, then 28.
pub(crate) fn game_fault(
    image: &[u8],
    occ: &[u32],
    o: Args,
    links: &[u32],
    turns: u32,
) -> Result<(), Refusal>
    ensures { result ≡ raised (game_fault (game_of image.now occ.now o links.now) turns) }
{
    start_fault(image, occ, o)?;
    refuse_unless(list_fits(occ.len(), links, turns), 28)
}
