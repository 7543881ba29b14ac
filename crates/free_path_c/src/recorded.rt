// The calls for C and Rust that fill an undo record and take a check back (document 02, Q-5), as those beside them.
ghost use Rattle.std.specs.Prelude.{◌≡◌};
ghost use Rattle.undo.specs.Undo.{recorded, recorded_wide, undone};
ghost use Rattle.free_path_c.specs.Words.{answer_word, flag_of, ToldRecorded};

use link_rules::link_idx::{NarrowTrainIdx, TrainIdx};
use undo;

// Checks a yard as lavtoeu_check does, and fills `undo_record`: 16 bytes, the old yard and the one written. Refused by 20 where it is shorter than 16 bytes plus twice the yard,
// before the check's own refusals; a refused check changes nothing. Bytes beyond the record stay.
#[unsafe(no_mangle)]
pub extern "C" fn lavtoeu_check_recorded(
    yard: &mut [u8],
    occupancy: &[u16],
    blocking: &[u32],
    moved: u16,
    begin: u16,
    local: u32,
    limit: u16,
    report: &mut [u8],
    undo_record: &mut [u8],
    answer: &mut [u64],
) -> u32
    ensures { ToldRecorded (recorded yard.old occupancy.now blocking.now moved begin (flag_of local) limit report.old undo_record.old)
        result yard.new report.new undo_record.new answer.old answer.new }
{
    let x = undo::check_recorded(
        yard,
        occupancy,
        blocking,
        NarrowTrainIdx(moved),
        begin,
        crate::flag_of(local),
        limit,
        report,
        undo_record,
    );
    crate::put_check(answer, x);
    crate::check_word(x)
}

// Checks a yard as lavtoeu_check_wide does, and fills `undo_record` as lavtoeu_check_recorded does.
#[unsafe(no_mangle)]
pub extern "C" fn lavtoeu_check_recorded_wide(
    yard: &mut [u8],
    occupancy: &[u32],
    blocking: &[u32],
    moved: u32,
    begin: u16,
    local: u32,
    limit: u16,
    report: &mut [u8],
    undo_record: &mut [u8],
    answer: &mut [u64],
) -> u32
    ensures { ToldRecorded (recorded_wide yard.old occupancy.now blocking.now moved begin (flag_of local) limit report.old undo_record.old)
        result yard.new report.new undo_record.new answer.old answer.new }
{
    let x = undo::check_recorded_wide(
        yard,
        occupancy,
        blocking,
        TrainIdx(moved),
        begin,
        crate::flag_of(local),
        limit,
        report,
        undo_record,
    );
    crate::put_check(answer, x);
    crate::check_word(x)
}

// Takes a check back from the undo record that it filled, while the yard is what it wrote; else refused by 21, and nothing is changed. Answers as lavtoeu_mark does.
#[unsafe(no_mangle)]
pub extern "C" fn lavtoeu_undo(yard: &mut [u8], undo_record: &[u8]) -> u32
    ensures { (result ≡ answer_word (undone yard.old undo_record.now).answer)
        × (yard.new ≡ (undone yard.old undo_record.now).yard) }
{
    crate::answer_word(undo::undo(yard, undo_record))
}
