// Closer against dispatcher (change request Q-12): whether the closer can force the final update of a train to end Blocked.
// Every function here is proved, the crate assumes nothing of its own, and no public function has a `requires`.
#![tactic(auto)]

mod faults;
mod final_update;
mod sets;
mod tables;

ghost use Rattle.std.specs.Prelude.{◌≡◌, ◌^◌, length};
ghost use Rattle.game.specs.Game.{all_open, closer_wins, judged, verdict_of, TellsGame};
ghost use Rattle.game.specs.Sets.{Verdicts, Accepted, game_of, wins_with};

use link_rules::link_idx::TrainIdx;
use link_rules::refusal::Refusal;
use update_free_path::start::Args;
use yard_check::bytes;

// A function makes it, so that no proof holds its entries; rooms differ in type and length.
fn occupancy_room() -> [u32; 4000]
    ensures { 4000 ≡ length result }
{
    [0u32; 4000]
}

// The verdicts on the last positions, one final update for each set of closed links.
fn last_verdicts(
    image: &[u8],
    occ: &[u32],
    o: Args,
    links: &[u32],
    img: &mut [u8],
    held: &mut [u32],
) -> [u8; 256]
    requires accepted { Accepted (game_of image.now occ.now o links.now) }
    requires img_len { (length img.old ≡ length image.now) × (length held.old ≡ length occ.now) }
    ensures { Verdicts (2 ^ length links.now) (wins_with (game_of image.now occ.now o links.now)) result }
{
    let mut out = [0u8; 256];
    let n = sets::power(links.len());
    for c in 0..n {
        let win = final_update::wins_with(image, occ, o, links, c, img, held);
        out[c] = tables::mark(win);
    }
    out
}

// The judgement of the start, from that of the last positions.
fn can_force(image: &[u8], occ: &[u32], o: Args, links: &[u32], turns: u32) -> bool
    requires { Accepted (game_of image.now occ.now o links.now) }
    ensures { result ≡ judged links.now (closer_wins (game_of image.now occ.now o links.now)) turns all_open }
{
    let n = image.len();
    let m = occ.len();
    let mut img = bytes::image_room();
    let mut held = occupancy_room();
    let last = last_verdicts(image, occ, o, links, &mut img[..n], &mut held[..m]);
    let t = tables::judge(links.len(), last, turns);
    t[0] != 0
}

// Whether the closer, who may close up to two of the links at each turn, can force the final update of the image, of either width, to end Blocked.
// Refused by 2, 5 to 10 and 22, then 28.
pub fn closer_can_force(
    image: &[u8],
    occ: &[u32],
    moved: TrainIdx,
    local: bool,
    limit: u16,
    links: &[u32],
    turns: u32,
) -> Result<bool, Refusal>
    ensures { TellsGame (verdict_of (game_of image.now occ.now (record { moved = moved; local = local; limit = limit }) links.now) turns) result }
{
    let o = Args {
        moved,
        local,
        limit,
    };
    faults::game_fault(image, occ, o, links, turns)?;
    Ok(can_force(image, occ, o, links, turns))
}
