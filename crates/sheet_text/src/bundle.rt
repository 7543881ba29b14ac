// The bundle that the sheet is made of (document 01, Program sheet): refusal 17, and the parts read from its bytes.
ghost use Rattle.std.specs.Prelude.{◌≡◌, ◌+◌, ◌*◌, length, drop};
ghost use Rattle.link_rules.specs.Octets.{le_at};
ghost use Rattle.disp_structs.specs.Listed.{listed};
ghost use Rattle.sheet_text.specs.Sheet.{blocking_offset, bundle_fits, parts_fit, report_slots};

use link_rules::octets;
use yard_check::yard;

// ---- 17: a bad bundle

// The parts follow each other without gaps.
fn parts_fit(bundle: &[u8]) -> bool
    ensures { result ≡ parts_fit bundle.now }
{
    let occupancy = octets::u32_at(bundle, 4) as usize;
    let blocking = octets::u32_at(bundle, 12) as usize;
    let yard = octets::u32_at(bundle, 20) as usize;
    occupancy == 32
        && blocking == 32 + 2 * (octets::u32_at(bundle, 8) as usize)
        && yard == blocking + 4 * (octets::u32_at(bundle, 16) as usize)
        && yard <= bundle.len()
}

pub fn bundle_fits(bundle: &[u8]) -> bool
    ensures { result ≡ bundle_fits bundle.now }
{
    bundle.len() <= 65536
        && octets::u32_at(bundle, 0) as usize == bundle.len()
        && octets::u16_at(bundle, 30) <= 1
        && parts_fit(bundle)
}

// ---- the parts

// The entries of the occupancy, as many as there is room for.
pub fn read_occupancy(occ: &mut [u16], bundle: &[u8])
    ensures { occ.new ≡ listed (length occ.old) (λ i. le_at 2 bundle.now (32 + 2 * i)) }
{
    for (i, x) in occ.iter_mut().enumerate() {
        *x = octets::u16_at(bundle, 32 + 2 * i);
    }
}

pub fn read_blocking(blocking: &mut [u32], bundle: &[u8])
    ensures { blocking.new ≡ listed (length blocking.old) (λ i. le_at 4 bundle.now (blocking_offset bundle.now + 4 * i)) }
{
    let offset = octets::u32_at(bundle, 12) as usize;
    for (i, x) in blocking.iter_mut().enumerate() {
        *x = octets::u32_at(bundle, offset + 4 * i);
    }
}

// Bytes from a place on, into a buffer of their length.
pub(crate) fn copy_from(to: &mut [u8], from: &[u8], at: usize)
    requires { at + length to.old ≡ length from.now }
    ensures { to.new ≡ drop at from.now }
{
    octets::put_bytes(to, 0, &from[at..])
}

// As many slots as the report needs; a yard that 14 refuses needs none.
pub fn report_slots(yard: &[u8]) -> u32
    ensures { result ≡ report_slots yard.now }
{
    if yard::yard_fits(yard) {
        yard::slot_count(yard)
    } else {
        0
    }
}

// ---- room for the parts: as many as a bundle of 65,536 bytes can have behind its header

// Each room has a function of its own, which has its type and its size, and makes it so that no proof holds its elements.

pub fn occupancy_room() -> [u16; 32752]
    ensures { 32752 ≡ length result }
{
    [0u16; 32752]
}

pub fn blocking_room() -> [u32; 16376]
    ensures { 16376 ≡ length result }
{
    [0u32; 16376]
}
