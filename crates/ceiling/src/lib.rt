// The ceiling of search steps before a run (change request Q-9): of a round from the image alone, of a yard with its round limit.
// Every function here is proved, the crate assumes nothing of its own, and no public function has a `requires`.
#![tactic(auto)]

ghost use Rattle.std.specs.Prelude.{◌≡◌, ◌*◌, ◌≤◌};
ghost use Rattle.link_rules.specs.Refusals.{raised, raised_with};
ghost use Rattle.yard_check.specs.Yard.{part_of};
ghost use Rattle.ceiling.specs.Ceiling.{round_ceiling, ceiling_of, slots_ceiling, ceiling_fault, yard_ceiling_of};

use image::codec;
use image_fault;
use image_fault::Widths;
use link_rules::link_idx::TrainIdx;
use link_rules::refusal::{Refusal, refuse_unless};
use yard_check::yard;

// 3E + 1.
fn round_ceiling(image: &[u8]) -> u64
    ensures { result ≡ round_ceiling image.now }
{
    3 * (codec::est_count(image) as u64) + 1
}

// What no round of an update of the image, of either width, can exceed; refused by 6 to 9 and 22 over 4,000 links.
pub fn ceiling(image: &[u8]) -> Result<u64, Refusal>
    ensures { result ≡ raised_with (ceiling_of image.now).fault (ceiling_of image.now).steps }
{
    image_fault::fault_with(image, 4000, Widths::Either, Ok(()))?;
    Ok(round_ceiling(image))
}

// The image of slot t, with the round limit.
fn slot_ceiling(yard: &[u8], t: u32, limit: u16) -> u64
    ensures { result ≡ (ceiling_of (part_of yard.now t)).steps * limit }
{
    match ceiling(yard::part(yard, TrainIdx(t))) {
        Ok(steps) => steps * (limit as u64),
        Err(_) => 0,
    }
}

// The sum over so many slots.
fn slots_ceiling(yard: &[u8], slots: u32, limit: u16) -> u64
    requires { slots ≤ 63 }
    ensures { result ≡ slots_ceiling yard.now limit slots }
{
    let mut sum: u64 = 0;
    for t in 0..slots {
        sum += slot_ceiling(yard, t + 1, limit);
    }
    sum
}

// 5, then 14.
fn yard_fault(yard: &[u8], limit: u16) -> Result<(), Refusal>
    ensures { result ≡ raised (ceiling_fault yard.now limit) }
{
    refuse_unless(limit != 0, 5)?;
    refuse_unless(yard::yard_fits(yard), 14)
}

// What no check of the yard with this round limit can exceed.
pub fn yard_ceiling(yard: &[u8], limit: u16) -> Result<u64, Refusal>
    ensures { result ≡ raised_with (yard_ceiling_of yard.now limit).fault (yard_ceiling_of yard.now limit).steps }
{
    yard_fault(yard, limit)?;
    Ok(slots_ceiling(yard, yard::slot_count(yard), limit))
}
