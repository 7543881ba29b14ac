// Carrying a sitting over (document 02, Q-7): a step carries the next image into a second yard of the all-wide size. The image is written by
// conversion::widen, of which only the promise is used.
// Every function here is proved, the crate assumes nothing of its own, and no public function has a `requires`.
#![tactic(auto)]

pub mod half;

ghost use Rattle.std.specs.Prelude.{◌≡◌, suc, ◌+◌, ◌*◌, ◌-◌, ◌≤◌, ◌<◌, length, get_or};
ghost use Rattle.link_rules.specs.Octets.{put_le};
ghost use Rattle.link_rules.specs.Network.{all_below};
ghost use Rattle.link_rules.specs.Refusals.{raised};
ghost use Rattle.image_fault.specs.ImageFault.{image_fault};
ghost use Rattle.yard_check.specs.Yard.{slot_count, part_of};
ghost use Rattle.carry.specs.Carry.{wide_length, wide_end, wide_size, occupancies_fault, images_fault, offset_fits, second_header_fits, carried_fits, zero_from, begun_fits, second_fits, rest_fault, carry_fault, with_offsets, begun, begun_by, occupancy_by, with_widened, carrying, carried};

use conversion;
use free_path::columns;
use image::codec;
use image_fault;
use link_rules::link_idx::TrainIdx;
use link_rules::octets;
use link_rules::refusal::{Refusal, refuse_unless};
use yard_check::yard;

// ---- where the parts of the second yard lie

fn wide_length(yard: &[u8], t: u32) -> usize
    requires { length yard.now < 4294967296 }
    ensures { (result ≡ wide_length yard.now t) × (result < 21474836480) }
{
    let image = yard::part(yard, TrainIdx(t));
    image.len() + 4 * (codec::diverge_room(image) as usize)
}

// Where parts 1 to n end.
fn wide_end(yard: &[u8], n: u32) -> usize
    requires { (length yard.now < 4294967296) × (slot_count yard.now ≤ 63) × (n ≤ slot_count yard.now) }
    ensures { (result ≡ wide_end yard.now n) × (result ≤ 260 + 21474836480 * n) }
{
    let mut end = 8 + 4 * (yard::slot_count(yard) as usize);
    for i in 0..n {
        end += wide_length(yard, i + 1);
    }
    end
}

// ---- 6 to 9

// Of the slots behind the first count, lowest first.
fn images_fault(yard: &[u8], l: u32, count: u32) -> Result<(), Refusal>
    ensures { result ≡ raised (images_fault yard.now l (slot_count yard.now - count) count) }
{
    let slots = yard::slot_count(yard);
    for t in count..slots {
        image_fault::image_fault(yard::part(yard, TrainIdx(t + 1)), l)?;
    }
    Ok(())
}

// ---- 24

fn offset_fits(yard: &[u8], wide: &[u8], i: u32) -> bool
    requires { (length yard.now < 4294967296) × (slot_count yard.now ≤ 63) × (i ≤ slot_count yard.now) }
    ensures { result ≡ offset_fits yard.now wide.now i }
{
    let end = wide_end(yard, i);
    octets::u32_at(wide, 4 + 4 * (i as usize + 1)) as usize == end
}

fn offsets_fit(yard: &[u8], wide: &[u8]) -> bool
    requires { (length yard.now < 4294967296) × (slot_count yard.now ≤ 63) }
    ensures { result ≡ all_below (slot_count yard.now) (offset_fits yard.now wide.now) }
{
    let slots = yard::slot_count(yard);
    for i in 0..slots {
        if !offset_fits(yard, wide, i) {
            return false;
        }
    }
    true
}

fn header_fits(yard: &[u8], wide: &[u8]) -> bool
    requires { (length yard.now < 4294967296) × (slot_count yard.now ≤ 63) }
    ensures { result ≡ second_header_fits yard.now wide.now }
{
    let slots = yard::slot_count(yard);
    let size = wide_end(yard, slots);
    if octets::u32_at(wide, 0) as usize != size {
        return false;
    }
    if yard::slot_count(wide) != slots {
        return false;
    }
    offsets_fit(yard, wide)
}

fn octet_at(bs: &[u8], at: usize) -> u8
    ensures { result ≡ get_or bs.now at 0 }
{
    if bs.len() <= at {
        return 0;
    }
    bs[at]
}

fn carried_fits(yard: &[u8], wide: &[u8], i: u32) -> bool
    requires { (length yard.now < 4294967296) × (slot_count yard.now ≤ 63) × (i ≤ slot_count yard.now) }
    ensures { result ≡ carried_fits yard.now wide.now i }
{
    let begin = wide_end(yard, i);
    if octets::u16_at(wide, begin + 32) as u32 != i + 1 {
        return false;
    }
    octet_at(wide, begin + 42) == 1
}

fn all_carried(yard: &[u8], wide: &[u8], count: u32) -> bool
    requires { (length yard.now < 4294967296) × (slot_count yard.now ≤ 63) × (count ≤ slot_count yard.now) }
    ensures { result ≡ all_below count (carried_fits yard.now wide.now) }
{
    for i in 0..count {
        if !carried_fits(yard, wide, i) {
            return false;
        }
    }
    true
}

fn zero_from(a: usize, bs: &[u8]) -> bool
    requires { a ≤ length bs.now }
    ensures { result ≡ zero_from a bs.now }
{
    let left = bs.len() - a;
    for i in 0..left {
        if bs[a + i] != 0 {
            return false;
        }
    }
    true
}

// Of a second yard of the all-wide size, once begun.
fn begun_fits(yard: &[u8], count: u32, wide: &[u8]) -> bool
    requires { (length yard.now < 4294967296) × (slot_count yard.now ≤ 63) × (count ≤ slot_count yard.now) × (length wide.now ≡ wide_size yard.now) }
    ensures { result ≡ begun_fits yard.now count wide.now }
{
    if !header_fits(yard, wide) {
        return false;
    }
    all_carried(yard, wide, count) && zero_from(wide_end(yard, count), wide)
}

pub(crate) fn second_fits(yard: &[u8], count: u32, wide: &[u8]) -> bool
    requires { (length yard.now < 4294967296) × (slot_count yard.now ≤ 63) }
    ensures { result ≡ second_fits yard.now count wide.now }
{
    let slots = yard::slot_count(yard);
    if slots <= count {
        return false;
    }
    if wide.len() != wide_end(yard, slots) {
        return false;
    }
    if count == 0 {
        return true;
    }
    begun_fits(yard, count, wide)
}

// ---- all in order

fn lengths_fault(l: usize, m: usize) -> Result<(), Refusal>
    ensures { result ≡ raised (occupancies_fault l m) }
{
    refuse_unless(2 <= l, 2)?;
    refuse_unless(l <= 4000, 2)?;
    refuse_unless(m == l, 2)
}

// Behind 2 and 14.
fn slots_fault(yard: &[u8], l: u32, count: u32, wide: &[u8]) -> Result<(), Refusal>
    requires { (length yard.now < 4294967296) × (slot_count yard.now ≤ 63) }
    ensures { result ≡ raised (rest_fault yard.now l count wide.now) }
{
    images_fault(yard, l, count)?;
    refuse_unless(second_fits(yard, count, wide), 24)
}

// l and m are the lengths of the two occupancies.
fn carry_fault(yard: &[u8], l: usize, count: u32, wide: &[u8], m: usize) -> Result<(), Refusal>
    ensures { result ≡ raised (carry_fault yard.now l count wide.now m) }
{
    lengths_fault(l, m)?;
    refuse_unless(yard::yard_fits(yard), 14)?;
    slots_fault(yard, l as u32, count, wide)
}

// ---- a step that is not refused

fn put_offset(yard: &[u8], i: u32, wide: &mut [u8])
    requires { (length yard.now < 4294967296) × (slot_count yard.now ≤ 63) × (i ≤ slot_count yard.now) }
    ensures { wide.new ≡ put_le 4 (wide_end yard.now i) (4 + 4 * suc i) wide.old }
{
    let end = wide_end(yard, i);
    octets::put_u32(wide, 8 + 4 * (i as usize), (end % 4294967296) as u32)
}

fn put_offsets(yard: &[u8], wide: &mut [u8])
    requires { (length yard.now < 4294967296) × (slot_count yard.now ≤ 63) }
    ensures { wide.new ≡ with_offsets yard.now (slot_count yard.now) wide.old }
{
    let slots = yard::slot_count(yard);
    for i in 0..slots {
        put_offset(yard, i, wide);
    }
}

// Every byte of wide is written.
fn begin(yard: &[u8], wide: &mut [u8])
    requires { (length yard.now < 4294967296) × (slot_count yard.now ≤ 63) × (length wide.old ≡ wide_size yard.now) }
    ensures { wide.new ≡ begun yard.now }
{
    let slots = yard::slot_count(yard);
    let size = wide_end(yard, slots);
    codec::zero_all(wide);
    octets::put_u32(wide, 0, (size % 4294967296) as u32);
    octets::put_u32(wide, 4, slots);
    put_offsets(yard, wide)
}

fn begin_by(yard: &[u8], count: u32, wide: &mut [u8])
    requires { (length yard.now < 4294967296) × (slot_count yard.now ≤ 63) × (length wide.old ≡ wide_size yard.now) }
    ensures { wide.new ≡ begun_by count yard.now wide.old }
{
    if count == 0 {
        begin(yard, wide);
    }
}

fn carry_occupancy(occupancy: &[u16], count: u32, to: &mut [u32])
    requires { length to.old ≡ length occupancy.now }
    ensures { to.new ≡ occupancy_by count occupancy.now to.old }
{
    if count == 0 {
        columns::widen(occupancy, to);
    }
}

// Slot n + 1, of an accepted image; only its part is written.
fn carry_image(yard: &[u8], n: u32, wide: &mut [u8])
    requires { (length yard.now < 4294967296) × (slot_count yard.now ≤ 63) × (n < slot_count yard.now) × (length wide.old ≡ wide_size yard.now)
        × ((image_fault (part_of yard.now (suc n)) 4000).number ≡ 0) }
    ensures { wide.new ≡ with_widened yard.now n wide.old }
{
    let a = wide_end(yard, n);
    let e = wide_end(yard, n + 1);
    // It is not refused.
    let _ = conversion::widen(yard::part(yard, TrainIdx(n + 1)), &mut wide[a..e]);
}

// Carries slot count + 1; with count 0 all of the second yard and the occupancy are written, else that slot's part alone. Refused by 2, 14, 6 to 9 of an
// image still to carry and 24: then nothing is changed.
pub fn carry(
    yard: &[u8],
    occupancy: &[u16],
    count: u32,
    wide_yard: &mut [u8],
    wide_occupancy: &mut [u32],
) -> Result<(), Refusal>
    ensures { carrying result wide_yard.new wide_occupancy.new
        ≡ carried yard.now occupancy.now count wide_yard.old wide_occupancy.old }
{
    carry_fault(
        yard,
        occupancy.len(),
        count,
        wide_yard,
        wide_occupancy.len(),
    )?;
    begin_by(yard, count, wide_yard);
    carry_occupancy(occupancy, count, wide_occupancy);
    carry_image(yard, count, wide_yard);
    Ok(())
}
