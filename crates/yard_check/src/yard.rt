// The yard (document 01, Layouts): refusal 14, and the part of a slot. What lies past the end reads as 0, so that each function is total.
ghost use Rattle.std.specs.Prelude.{◌≡◌, ◌+◌};
ghost use Rattle.link_rules.specs.Network.{all_below};
ghost use Rattle.yard_check.specs.Yard.{slot_count, part_begin, part_end, part_from, part_until, part_of, image_in, part_fits, yard_fits};

use link_rules::link_idx::TrainIdx;
use link_rules::octets;

// S, how many slots the yard has.
pub fn slot_count(yard: &[u8]) -> u32
    ensures { result ≡ slot_count yard.now }
{
    octets::u32_at(yard, 4)
}

// ---- where the part of slot t lies

fn part_begin(yard: &[u8], t: u32) -> u32
    ensures { result ≡ part_begin yard.now t }
{
    octets::u32_at(yard, 4 + 4 * (t as usize))
}

fn part_end(yard: &[u8], t: u32) -> usize
    ensures { result ≡ part_end yard.now t }
{
    if t < slot_count(yard) {
        part_begin(yard, t + 1) as usize
    } else {
        yard.len()
    }
}

// Within the yard, whatever the offsets are.
pub(crate) fn part_from(yard: &[u8], t: u32) -> usize
    ensures { result ≡ part_from yard.now t }
{
    (part_begin(yard, t) as usize).min(yard.len())
}

pub(crate) fn part_until(yard: &[u8], t: u32) -> usize
    ensures { result ≡ part_until yard.now t }
{
    part_from(yard, t).max(part_end(yard, t).min(yard.len()))
}

// ---- the slot's own part of the yard

pub fn part(yard: &[u8], t: TrainIdx) -> &[u8]
    ensures { result.now ≡ part_of yard.now t.0 }
{
    let slot = t.0;
    let a = part_from(yard, slot);
    let e = part_until(yard, slot);
    &yard[a..e]
}

// Empty where the yard has no such slot, and no Option: its definition, which theorems name, is total.
pub fn image_in(yard: &[u8], slot: TrainIdx) -> &[u8]
    ensures { result.now ≡ image_in yard.now slot.0 }
{
    if slot.0 < 1 || slot_count(yard) < slot.0 {
        return &yard[..0];
    }
    part(yard, slot)
}

// ---- 14: bad yard header, a part below 64 bytes, or wrong slot train

fn part_fits(yard: &[u8], t: u32) -> bool
    ensures { result ≡ part_fits yard.now t }
{
    let b = part_begin(yard, t) as usize;
    b + 64 <= part_end(yard, t) && octets::u16_at(yard, b + 32) as u32 == t
}

fn parts_fit(yard: &[u8], slots: u32) -> bool
    ensures { result ≡ all_below slots (λ i. part_fits yard.now (i + 1)) }
{
    (0..slots).all(|i| part_fits(yard, i + 1))
}

// Whether the yard is as document 01 lays it out; where it is not, it is refused by 14.
pub fn yard_fits(yard: &[u8]) -> bool
    ensures { result ≡ yard_fits yard.now }
{
    let slots = slot_count(yard);
    octets::u32_at(yard, 0) as usize == yard.len()
        && 1 <= slots
        && slots <= 63
        && part_begin(yard, 1) == 8 + 4 * slots
        && parts_fit(yard, slots)
}
