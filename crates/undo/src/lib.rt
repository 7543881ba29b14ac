// Taking a check back (change request Q-5): a check that fills an undo record, and the undo from one. The check is check_deadlock or check_wide, of which
// only the promise is used: copy, check, copy. Assumes nothing; no public function has a `requires`.
#![tactic(auto)]

pub mod records;

ghost use Rattle.std.specs.Prelude.{◌≡◌, ◌≤◌, ◌<◌, length};
ghost use Rattle.link_rules.specs.Refusals.{or_else, raised};
ghost use Rattle.undo.specs.Undo.{filled_bytes, filled, room_fault, recorded, recorded_wide, recorded_of, undoing, undone};

use link_rules::link_idx::{NarrowTrainIdx, TrainIdx};
use link_rules::octets;
use link_rules::refusal::Refusal;
use yard_check::check;
use yard_check::check::{Answer, Args};

// 20, then the check's own refusals; y, room are the lengths of the yard and of the record.
fn recorded_fault(y: usize, room: usize, own: Result<(), Refusal>) -> Result<(), Refusal>
    ensures { (f : Refusal) → own ≡ raised f → result ≡ raised (or_else (room_fault y room) f) }
{
    records::room_fault(y, room)?;
    own
}

// A check with the copies around it: the record gets the old yard, then the one that the check wrote.
fn recorded<F: FnOnce(&mut [u8], &mut [u8]) -> Answer>(
    yard: &mut [u8],
    report: &mut [u8],
    undo_record: &mut [u8],
    check: F,
) -> Answer
    requires room { (filled_bytes (length yard.old) ≤ length undo_record.old) × (filled_bytes (length yard.old) < 4294967296) }
    requires check { F.IsAlwaysCallable check }
    ensures copies { undo_record.new ≡ filled yard.old yard.new undo_record.old }
    ensures checked { (y : _) × (r : _) × (y' : _) × (r' : _) × F.post check y r result y' r' × (y.now ≡ yard.old) × (r.now ≡ report.old) × (y'.now ≡ yard.new) × (r'.now ≡ report.new) }
{
    records::put_old(undo_record, yard);
    let x = check(yard, report);
    records::put_written(undo_record, yard);
    x
}

// Checks the yard as check_deadlock does, and fills the undo record with the old yard and the one written. Refused by 20 first: then, and by the
// check's own refusals, nothing is changed. Buffer bytes beyond the record stay.
pub fn check_recorded(
    yard: &mut [u8],
    occ: &[u16],
    blocking: &[u32],
    moved: NarrowTrainIdx,
    begin: u16,
    local: bool,
    limit: u16,
    report: &mut [u8],
    undo_record: &mut [u8],
) -> Answer
    ensures { recorded_of result yard.new report.new undo_record.new ≡ recorded yard.old occ.now blocking.now
        moved.0 begin local limit report.old undo_record.old }
{
    let a = Args {
        moved: TrainIdx(moved.0 as u32),
        begin,
        local,
        limit,
    };
    let own = check::check_fault(yard, occ.len(), blocking, a, report.len());
    if let Err(f) = recorded_fault(yard.len(), undo_record.len(), own) {
        return Answer::Refused(f);
    }
    recorded(yard, report, undo_record, |y, r| {
        check::check_deadlock(y, occ, blocking, moved, begin, local, limit, r)
    })
}

// The same over u32 entries, of images of either width (document 02, Q-6): the check is check_wide.
pub fn check_recorded_wide(
    yard: &mut [u8],
    occ: &[u32],
    blocking: &[u32],
    moved: TrainIdx,
    begin: u16,
    local: bool,
    limit: u16,
    report: &mut [u8],
    undo_record: &mut [u8],
) -> Answer
    ensures { recorded_of result yard.new report.new undo_record.new ≡ recorded_wide yard.old occ.now blocking.now
        moved.0 begin local limit report.old undo_record.old }
{
    let a = Args {
        moved,
        begin,
        local,
        limit,
    };
    let own = check::check_wide_fault(yard, occ, blocking, a, report.len());
    if let Err(f) = recorded_fault(yard.len(), undo_record.len(), own) {
        return Answer::Refused(f);
    }
    recorded(yard, report, undo_record, |y, r| {
        check::check_wide(y, occ, blocking, moved, begin, local, limit, r)
    })
}

// Gives the old yard of the record back, where the yard still is what its check wrote. Refused by 21: then nothing is changed. Neither the occupancy nor
// the report is rewound; bytes beyond the record go unread.
pub fn undo(yard: &mut [u8], undo_record: &[u8]) -> Result<(), Refusal>
    ensures { undoing result yard.new ≡ undone yard.old undo_record.now }
{
    if !records::undo_fits(yard, undo_record) {
        return Err(Refusal::new(21));
    }
    let e = 16 + yard.len();
    octets::put_bytes(yard, 0, &undo_record[16..e]);
    Ok(())
}
