// The bits of a slot in every entry of an index.
ghost use Rattle.std.specs.Prelude.{◌≡◌, true, cond, ◌<◌, ◌≤◌, length};
ghost use Rattle.image.specs.Image.{path_count_of};
ghost use Rattle.link_index.specs.Bits.{bit_of, number_of, with_bit};
ghost use Rattle.link_index.specs.LinkIndex.{built, changed, refreshed};
ghost use Rattle.link_index.specs.Slots.{slot_cleared, bit_added, arrival_added, arrivals_added, slot_built, slot_rebuilt, slots_done};

use crate::bits;
use disp_structs::{LinkEvent, events};
use image::codec;
use image_fault;
use link_rules::link_idx::TrainIdx;
use yard_check::{bytes, yard};

// ---- all slots

// Those of the set are as in an index built afresh, and all others stay.
pub(crate) fn rebuild_slots(yard: &[u8], set: u64, index: &mut [u64])
    requires { length index.old ≤ 4000 }
    ensures { index.new ≡ slots_done (bit_of set) yard.now 64 index.old }
{
    for t in 0..64 {
        rebuild_slot(yard, set, t, index);
    }
}

// Bit 0 and those of slots that the yard has not become 0.
pub(crate) fn build_slots(yard: &[u8], index: &mut [u64])
    requires { length index.old ≤ 4000 }
    ensures { index.new ≡ built yard.now (length index.old) }
{
    rebuild_slots(yard, 0xffff_ffff_ffff_ffff, index)
}

// From an old yard to a new one.
pub(crate) fn refresh_slots(old: &[u8], new: &[u8], index: &mut [u64])
    requires { length index.old ≤ 4000 }
    ensures { index.new ≡ refreshed old.now new.now index.old }
{
    let set = changed_slots(old, new);
    rebuild_slots(new, set, index)
}

// The set of the slots whose image changed.
fn changed_slots(old: &[u8], new: &[u8]) -> u64
    ensures { result ≡ number_of (changed old.now new.now) 64 }
{
    let mut set: u64 = 0;
    for t in 0..64 {
        set = with_changed(old, new, t, set);
    }
    set
}

// ---- one slot

fn with_changed(old: &[u8], new: &[u8], t: u32, set: u64) -> u64
    requires { t < 64 }
    ensures { result ≡ cond (changed old.now new.now t) (with_bit set t true) set }
{
    if bytes::same_bytes(
        yard::image_in(old, TrainIdx(t)),
        yard::image_in(new, TrainIdx(t)),
    ) {
        return set;
    }
    bits::with_bit(set, t)
}

fn rebuild_slot(yard: &[u8], set: u64, t: u32, index: &mut [u64])
    requires { (t < 64) × (length index.old ≤ 4000) }
    ensures { index.new ≡ slot_rebuilt (bit_of set t) yard.now t index.old }
{
    if bits::has_bit(set, t) {
        build_slot(yard::image_in(yard, TrainIdx(t)), t, index);
        return;
    }
}

// Clears the slot's bit in every entry, then sets it at the Arrive links of the path. A refused image's path is not walked.
pub(crate) fn build_slot(image: &[u8], t: u32, index: &mut [u64])
    requires { (t < 64) × (length index.old ≤ 4000) }
    ensures { index.new ≡ slot_built image.now t index.old }
{
    let links = index.len() as u32;
    clear_slot(t, index);
    if image_fault::is_accepted(image, links) {
        add_arrivals(image, t, index);
        return;
    }
}

fn clear_slot(t: u32, index: &mut [u64])
    requires { t < 64 }
    ensures { index.new ≡ slot_cleared t index.old }
{
    for l in 0..index.len() {
        index[l] = bits::without_bit(index[l], t);
    }
}

fn add_arrivals(image: &[u8], t: u32, index: &mut [u64])
    requires { t < 64 }
    ensures { index.new ≡ arrivals_added image.now (path_count_of image.now) t index.old }
{
    let n = codec::path_count(image);
    for i in 0..n {
        add_arrival(codec::node_link_event(image, i), t, index);
    }
}

// An Arrive on a link that the index has.
fn add_arrival(event: LinkEvent, t: u32, index: &mut [u64])
    requires { t < 64 }
    ensures { index.new ≡ arrival_added event t index.old }
{
    let kind = event.est_type;
    if events::is_arrive(kind) {
        add_bit(event.link_idx.0 as usize, t, index);
        return;
    }
}

fn add_bit(l: usize, t: u32, index: &mut [u64])
    requires { t < 64 }
    ensures { index.new ≡ bit_added l t index.old }
{
    if index.len() <= l {
        return;
    }
    index[l] = bits::with_bit(index[l], t);
}
