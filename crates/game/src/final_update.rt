// The final update of a game with the links of a set closed, in copies of the image and the occupancy.
ghost use Rattle.std.specs.Prelude.{◌≡◌, ◌≤◌, length, take};
ghost use Rattle.update_free_path.specs.Updates.{status_of};
ghost use Rattle.game.specs.Game.{is_blocked};
ghost use Rattle.game.specs.Sets.{Entries, Placed, Accepted, wins_with, game_of};

use crate::faults;
use link_rules::octets;
use update_free_path;
use update_free_path::answer::Status;
use update_free_path::start::Args;

// The closed links of the set c go to `blocking`, and the moved train to their entries: how many links they are.
fn place(links: &[u32], c: usize, moved: u32, occ: &mut [u32], blocking: &mut [u32; 8]) -> usize
    requires { (length links.now ≤ 8) × (length blocking.old ≡ 8) × Entries links.now occ.old }
    ensures { Placed links.now c moved occ.old occ.new (take result blocking.new) × (result ≤ 8) × (length blocking.new ≡ 8) }
{
    let mut rest = c;
    let mut n = 0;
    for i in 0..links.len() {
        let closed = rest % 2;
        rest = rest / 2;
        if closed == 0 {
            continue;
        }
        let link = links[i];
        let l = faults::index_of(link);
        occ[l] = moved;
        blocking[n] = link;
        n += 1;
    }
    n
}

fn is_blocked(s: Status) -> bool
    ensures { result ≡ is_blocked (status_of s) }
{
    matches!(s, Status::Blocked(_))
}

// Does the closer win with the set c? The update runs in the lent copies.
pub(crate) fn wins_with(
    image: &[u8],
    occ: &[u32],
    o: Args,
    links: &[u32],
    c: usize,
    img: &mut [u8],
    held: &mut [u32],
) -> bool
    requires accepted { Accepted (game_of image.now occ.now o links.now) }
    requires img_len { (length img.old ≡ length image.now) × (length held.old ≡ length occ.now) }
    ensures { result ≡ wins_with (game_of image.now occ.now o links.now) c }
{
    let mut blocking = [0u32; 8];
    octets::put_bytes(img, 0, image);
    held.copy_from_slice(occ);
    let moved = o.moved;
    let count = place(links, c, moved.0, held, &mut blocking);
    let x = update_free_path::update_wide(img, held, &blocking[..count], moved, o.local, o.limit);
    let s = x.status;
    is_blocked(s)
}
