// Checks beside an index (document 02, Q-10): check_deadlock and check_wide, with and without an undo record. The check tells which slots changed.
ghost use Rattle.std.specs.Prelude.{◌≡◌, ◌≤◌, length};
ghost use Rattle.link_rules.specs.Refusals.{raised};
ghost use Rattle.image_fault.specs.declared.Widths.TheVariants.{Narrow, Either};
ghost use Rattle.yard_check.specs.Checks.{args_of};
ghost use Rattle.undo.specs.Undo.{filled_bytes, old_yard};
ghost use Rattle.link_index.specs.LinkIndex.{refreshed};
ghost use Rattle.link_index.specs.Indexed.{lengths_fault, checked_beside, checked_of, is_refused, given_of, recorded_fault, recorded_beside, recorded_of};

use crate::slots;
use link_rules::link_idx::{NarrowTrainIdx, TrainIdx};
use link_rules::refusal::{Refusal, refuse_unless};
use undo;
use undo::records;
use yard_check::check::{Answer, Args};
use yard_check::{bytes, check};

// 2, 25; l and m are the lengths of the occupancy and of the index.
fn lengths_fault(l: usize, m: usize) -> Result<(), Refusal>
    ensures { result ≡ raised (lengths_fault l m) }
{
    refuse_unless(crate::length_fits(l), 2)?;
    refuse_unless(m == l, 25)
}

// Past 2 and 25, with room for the largest image. It stands twice, over u16 and over u32 entries, as the checks that it calls do; a closure for the check
// would ask for a clause as long as the function.
fn check_within(
    yard: &mut [u8],
    occ: &[u16],
    blocking: &[u32],
    a: Args,
    report: &mut [u8],
    index: &mut [u64],
    room: &mut [u8],
) -> Answer
    requires { ((lengths_fault (length occ.now) (length index.old)).number ≡ 0) × (length room.old ≡ 41024) }
    ensures { checked_of result yard.new report.new index.new
        ≡ checked_beside yard.old occ.now (args_of Narrow blocking.now a) report.old index.old }
{
    let x = check::check_watched(yard, occ, blocking, a, report, room);
    slots::rebuild_slots(yard, x.changed, index);
    x.answer
}

// check_deadlock beside an index: the bits of slots whose image changed are as in an index built afresh, and all others stay.
// Refused by 2, 25, 4, 5, 14, 15 and 16: then nothing is changed.
pub fn check_indexed(
    yard: &mut [u8],
    occ: &[u16],
    blocking: &[u32],
    a: Args,
    report: &mut [u8],
    index: &mut [u64],
) -> Answer
    ensures { checked_of result yard.new report.new index.new
        ≡ checked_beside yard.old occ.now (args_of Narrow blocking.now a) report.old index.old }
{
    match lengths_fault(occ.len(), index.len()) {
        Ok(()) => {
            let mut room = bytes::image_room();
            check_within(yard, occ, blocking, a, report, index, &mut room[..41024])
        }
        Err(f) => Answer::Refused(f),
    }
}

// The same over u32 entries.
fn check_wide_within(
    yard: &mut [u8],
    occ: &[u32],
    blocking: &[u32],
    a: Args,
    report: &mut [u8],
    index: &mut [u64],
    room: &mut [u8],
) -> Answer
    requires { ((lengths_fault (length occ.now) (length index.old)).number ≡ 0) × (length room.old ≡ 41024) }
    ensures { checked_of result yard.new report.new index.new
        ≡ checked_beside yard.old occ.now (args_of Either blocking.now a) report.old index.old }
{
    let x = check::check_wide_watched(yard, occ, blocking, a, report, room);
    slots::rebuild_slots(yard, x.changed, index);
    x.answer
}

// check_wide beside an index. Refused by 2, 25, 4, 5, 14, 22, 15 and 16.
pub fn check_wide_indexed(
    yard: &mut [u8],
    occ: &[u32],
    blocking: &[u32],
    a: Args,
    report: &mut [u8],
    index: &mut [u64],
) -> Answer
    ensures { checked_of result yard.new report.new index.new
        ≡ checked_beside yard.old occ.now (args_of Either blocking.now a) report.old index.old }
{
    match lengths_fault(occ.len(), index.len()) {
        Ok(()) => {
            let mut room = bytes::image_room();
            check_wide_within(yard, occ, blocking, a, report, index, &mut room[..41024])
        }
        Err(f) => Answer::Refused(f),
    }
}

// ---- with an undo record

// 20, 2, 25; y and room are the lengths of the yard and of the record.
fn recorded_fault(y: usize, room: usize, l: usize, m: usize) -> Result<(), Refusal>
    ensures { result ≡ raised (recorded_fault y room l m) }
{
    records::room_fault(y, room)?;
    lengths_fault(l, m)
}

fn is_refused(x: Answer) -> bool
    ensures { result ≡ is_refused x }
{
    matches!(x, Answer::Refused(_))
}

// From the old yard of a filled record to the one written.
fn refresh_from(undo_record: &[u8], yard: &[u8], index: &mut [u64])
    requires { (filled_bytes (length yard.now) ≤ length undo_record.now) × (length index.old ≤ 4000) }
    ensures { index.new ≡ refreshed (old_yard (length yard.now) undo_record.now) yard.now index.old }
{
    let e = 16 + yard.len();
    slots::refresh_slots(&undo_record[16..e], yard, index)
}

// undo::check_recorded beside an index. Refused by 20, 2, 25, 4, 5, 14, 15 and 16.
pub fn check_recorded_indexed(
    yard: &mut [u8],
    occ: &[u16],
    blocking: &[u32],
    moved: NarrowTrainIdx,
    begin: u16,
    local: bool,
    limit: u16,
    report: &mut [u8],
    undo_record: &mut [u8],
    index: &mut [u64],
) -> Answer
    ensures { recorded_of result yard.new report.new undo_record.new index.new
        ≡ recorded_beside yard.old occ.now (given_of Narrow blocking.now moved.0 begin local limit) report.old undo_record.old index.old }
{
    match recorded_fault(yard.len(), undo_record.len(), occ.len(), index.len()) {
        Ok(()) => {
            let x = undo::check_recorded(
                yard,
                occ,
                blocking,
                moved,
                begin,
                local,
                limit,
                report,
                undo_record,
            );
            if is_refused(x) {
                return x;
            }
            refresh_from(undo_record, yard, index);
            x
        }
        Err(f) => Answer::Refused(f),
    }
}

// undo::check_recorded_wide beside an index. Refused by 20, 2, 25, 4, 5, 14, 22, 15 and 16.
pub fn check_recorded_wide_indexed(
    yard: &mut [u8],
    occ: &[u32],
    blocking: &[u32],
    moved: TrainIdx,
    begin: u16,
    local: bool,
    limit: u16,
    report: &mut [u8],
    undo_record: &mut [u8],
    index: &mut [u64],
) -> Answer
    ensures { recorded_of result yard.new report.new undo_record.new index.new
        ≡ recorded_beside yard.old occ.now (given_of Either blocking.now moved.0 begin local limit) report.old undo_record.old index.old }
{
    match recorded_fault(yard.len(), undo_record.len(), occ.len(), index.len()) {
        Ok(()) => {
            let x = undo::check_recorded_wide(
                yard,
                occ,
                blocking,
                moved,
                begin,
                local,
                limit,
                report,
                undo_record,
            );
            if is_refused(x) {
                return x;
            }
            refresh_from(undo_record, yard, index);
            x
        }
        Err(f) => Answer::Refused(f),
    }
}
