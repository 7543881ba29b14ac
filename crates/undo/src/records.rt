// The undo record (document 02, Q-5): refusal 20, how it is filled, and what an undo asks of it. For checks over every kind of occupancy.
ghost use Rattle.std.specs.Prelude.{◌≡◌, ◌&&◌, ◌+◌, ◌≤◌, ◌<◌, ltb, leb, eqb, length};
ghost use Rattle.link_rules.specs.Refusals.{raised};
ghost use Rattle.yard_check.specs.Yard.{slot_count, yard_fits};
ghost use Rattle.undo.specs.Undo.{filled_bytes, with_numbers, with_old, with_written, room_fault, numbers_fit, old_fits, was_written, undo_fits};

use link_rules::octets;
use link_rules::refusal::{Refusal, refuse_unless};
use yard_check::{bytes, yard};

// ---- 20

// Whether a buffer of so many bytes has room for the record of a yard of y bytes. From 2,147,483,640 bytes on a yard's record cannot say how many bytes are filled.
fn has_room(y: usize, room: usize) -> bool
    ensures { result ≡ (leb (filled_bytes y) room && ltb (filled_bytes y) 4294967296) }
{
    y <= 2147483639 && 16 + 2 * y <= room
}

pub fn room_fault(y: usize, room: usize) -> Result<(), Refusal>
    ensures { result ≡ raised (room_fault y room) }
{
    refuse_unless(has_room(y, room), 20)
}

// ---- filled

fn put_numbers(to: &mut [u8], y: usize, slots: u32)
    requires { filled_bytes y < 4294967296 }
    ensures { to.new ≡ with_numbers y slots to.old }
{
    octets::put_u32(to, 0, (16 + 2 * y) as u32);
    octets::put_u32(to, 4, slots);
    octets::put_u32(to, 8, 16);
    octets::put_u32(to, 12, (16 + y) as u32)
}

// Before the check: the numbers and the old yard.
pub(crate) fn put_old(to: &mut [u8], old: &[u8])
    requires { (filled_bytes (length old.now) ≤ length to.old) × (filled_bytes (length old.now) < 4294967296) }
    ensures { to.new ≡ with_old old.now to.old }
{
    put_numbers(to, old.len(), yard::slot_count(old));
    octets::put_bytes(to, 16, old)
}

// After the check: the yard that it wrote.
pub(crate) fn put_written(to: &mut [u8], written: &[u8])
    requires { filled_bytes (length written.now) ≤ length to.old }
    ensures { to.new ≡ with_written written.now to.old }
{
    octets::put_bytes(to, 16 + written.len(), written)
}

// ---- read

// y is the length of the present yard.
fn numbers_fit(y: usize, undo_record: &[u8]) -> bool
    ensures { result ≡ numbers_fit y undo_record.now }
{
    let filled = octets::u32_at(undo_record, 0) as usize;
    has_room(y, undo_record.len())
        && filled == 16 + 2 * y
        && octets::u32_at(undo_record, 8) == 16
        && octets::u32_at(undo_record, 12) as usize == 16 + y
}

// An old yard past 14, of so many slots.
fn fits_with(old: &[u8], slots: u32) -> bool
    ensures { result ≡ (yard_fits old.now && eqb slots (slot_count old.now)) }
{
    yard::yard_fits(old) && slots == yard::slot_count(old)
}

fn old_fits(y: usize, undo_record: &[u8]) -> bool
    requires { filled_bytes y ≤ length undo_record.now }
    ensures { result ≡ old_fits y undo_record.now }
{
    let e = 16 + y;
    let slots = octets::u32_at(undo_record, 4);
    fits_with(&undo_record[16..e], slots)
}

fn was_written(yard: &[u8], undo_record: &[u8]) -> bool
    requires { filled_bytes (length yard.now) ≤ length undo_record.now }
    ensures { result ≡ was_written yard.now undo_record.now }
{
    let at = 16 + yard.len();
    let e = at + yard.len();
    bytes::same_bytes(&undo_record[at..e], yard)
}

// Whether the record undoes to this yard; where it does not, it is refused by 21.
pub fn undo_fits(yard: &[u8], undo_record: &[u8]) -> bool
    ensures { result ≡ undo_fits yard.now undo_record.now }
{
    let y = yard.len();
    numbers_fit(y, undo_record) && old_fits(y, undo_record) && was_written(yard, undo_record)
}
