// Undo beside an index (document 02, Q-10).
ghost use Rattle.std.specs.Prelude.{◌≡◌, ◌≤◌, length};
ghost use Rattle.undo.specs.Undo.{filled_bytes, old_yard};
ghost use Rattle.link_index.specs.LinkIndex.{refreshed};
ghost use Rattle.link_index.specs.Indexed.{undone_beside, undoing};

use crate::slots;
use link_rules::refusal::{Refusal, refuse_unless};
use undo;
use undo::records;

// From the yard to the old one of the record.
fn refresh_to(yard: &[u8], undo_record: &[u8], index: &mut [u64])
    requires { (filled_bytes (length yard.now) ≤ length undo_record.now) × (length index.old ≤ 4000) }
    ensures { index.new ≡ refreshed yard.now (old_yard (length yard.now) undo_record.now) index.old }
{
    let e = 16 + yard.len();
    slots::refresh_slots(yard, &undo_record[16..e], index)
}

// undo beside an index. A slot that only one of the two yards has, has changed. Refused by 25, 21: then nothing is changed.
pub fn undo_indexed(yard: &mut [u8], undo_record: &[u8], index: &mut [u64]) -> Result<(), Refusal>
    ensures { undoing result yard.new index.new ≡ undone_beside yard.old undo_record.now index.old }
{
    refuse_unless(crate::length_fits(index.len()), 25)?;
    refuse_unless(records::undo_fits(yard, undo_record), 21)?;
    refresh_to(yard, undo_record, index);
    undo::undo(yard, undo_record)
}
