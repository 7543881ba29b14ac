// The calls for C and Rust beside an index (document 02, Q-10): slot t of the yard is bit 2^t in the entry of each link that its path has an Arrive on.
ghost use Rattle.std.specs.Prelude.{◌≡◌};
ghost use Rattle.image_fault.specs.declared.Widths.TheVariants.{Narrow, Either};
ghost use Rattle.link_index.specs.LinkIndex.{build_of};
ghost use Rattle.link_index.specs.Indexed.{given_of, checked_beside, recorded_beside, undone_beside, laid_beside};
ghost use Rattle.free_path_c.specs.Words.{fault_word, settings_of, flag_of, ToldIndexed, ToldRecordedIndexed, ToldLaid, ToldUndone};

use disp_structs::Metres;
use link_index;
use link_index::{checks, layout, undoing};
use link_rules::link_idx::{NarrowTrainIdx, TrainIdx};
use train_disp::Settings;
use yard_check::check::Args;

// Builds the index of a yard, of as many links as it has entries; every entry is written. Refused by 25 where there are not 2 to 4,000, then 14: then it
// stays. Answers as lavtoeu_mark does.
#[unsafe(no_mangle)]
pub extern "C" fn lavtoeu_index(yard: &[u8], index: &mut [u64]) -> u32
    ensures { (result ≡ fault_word (build_of yard.now index.old).fault) × (index.new ≡ (build_of yard.now index.old).index) }
{
    crate::answer_word(link_index::build_index(yard, index))
}

// Checks a yard as lavtoeu_check does, and keeps the index: the bits of slots whose image changed are as lavtoeu_index would set them, and all others stay.
// Refused by 25 where the index is not as long as the occupancy, after 2; a refused check changes nothing.
#[unsafe(no_mangle)]
pub extern "C" fn lavtoeu_check_indexed(
    yard: &mut [u8],
    occupancy: &[u16],
    blocking: &[u32],
    moved: u16,
    begin: u16,
    local: u32,
    limit: u16,
    report: &mut [u8],
    index: &mut [u64],
    answer: &mut [u64],
) -> u32
    ensures { ToldIndexed (checked_beside yard.old occupancy.now (given_of Narrow blocking.now moved begin (flag_of local) limit) report.old index.old)
        result yard.new report.new index.new answer.old answer.new }
{
    let a = Args {
        moved: TrainIdx(moved as u32),
        begin: begin,
        local: crate::flag_of(local),
        limit: limit,
    };
    let x = checks::check_indexed(yard, occupancy, blocking, a, report, index);
    crate::put_check(answer, x);
    crate::check_word(x)
}

// Checks a yard as lavtoeu_check_wide does, and keeps the index as lavtoeu_check_indexed does.
#[unsafe(no_mangle)]
pub extern "C" fn lavtoeu_check_indexed_wide(
    yard: &mut [u8],
    occupancy: &[u32],
    blocking: &[u32],
    moved: u32,
    begin: u16,
    local: u32,
    limit: u16,
    report: &mut [u8],
    index: &mut [u64],
    answer: &mut [u64],
) -> u32
    ensures { ToldIndexed (checked_beside yard.old occupancy.now (given_of Either blocking.now moved begin (flag_of local) limit) report.old index.old)
        result yard.new report.new index.new answer.old answer.new }
{
    let a = Args {
        moved: TrainIdx(moved),
        begin: begin,
        local: crate::flag_of(local),
        limit: limit,
    };
    let x = checks::check_wide_indexed(yard, occupancy, blocking, a, report, index);
    crate::put_check(answer, x);
    crate::check_word(x)
}

// Checks a yard as lavtoeu_check_recorded does, and keeps the index: 20, then 2, then 25.
#[unsafe(no_mangle)]
pub extern "C" fn lavtoeu_check_recorded_indexed(
    yard: &mut [u8],
    occupancy: &[u16],
    blocking: &[u32],
    moved: u16,
    begin: u16,
    local: u32,
    limit: u16,
    report: &mut [u8],
    undo_record: &mut [u8],
    index: &mut [u64],
    answer: &mut [u64],
) -> u32
    ensures { ToldRecordedIndexed
        (recorded_beside yard.old occupancy.now (given_of Narrow blocking.now moved begin (flag_of local) limit) report.old undo_record.old index.old)
        result yard.new report.new undo_record.new index.new answer.old answer.new }
{
    let x = checks::check_recorded_indexed(
        yard,
        occupancy,
        blocking,
        NarrowTrainIdx(moved),
        begin,
        crate::flag_of(local),
        limit,
        report,
        undo_record,
        index,
    );
    crate::put_check(answer, x);
    crate::check_word(x)
}

// Checks a yard as lavtoeu_check_recorded_wide does, and keeps the index.
#[unsafe(no_mangle)]
pub extern "C" fn lavtoeu_check_recorded_indexed_wide(
    yard: &mut [u8],
    occupancy: &[u32],
    blocking: &[u32],
    moved: u32,
    begin: u16,
    local: u32,
    limit: u16,
    report: &mut [u8],
    undo_record: &mut [u8],
    index: &mut [u64],
    answer: &mut [u64],
) -> u32
    ensures { ToldRecordedIndexed
        (recorded_beside yard.old occupancy.now (given_of Either blocking.now moved begin (flag_of local) limit) report.old undo_record.old index.old)
        result yard.new report.new undo_record.new index.new answer.old answer.new }
{
    let x = checks::check_recorded_wide_indexed(
        yard,
        occupancy,
        blocking,
        TrainIdx(moved),
        begin,
        crate::flag_of(local),
        limit,
        report,
        undo_record,
        index,
    );
    crate::put_check(answer, x);
    crate::check_word(x)
}

// Lays a train out as lavtoeu_lay_out does, in the image of its slot, and keeps the index. Refused by 5 for train 0 or above 63, 6, 25 where the index has not
// `links` entries, then 7, 8, 9 and 11.
#[unsafe(no_mangle)]
pub extern "C" fn lavtoeu_lay_out_indexed(
    est: &[u8],
    train: u16,
    search: f64,
    fixed: f64,
    room: u32,
    links: u32,
    image: &mut [u8],
    index: &mut [u64],
) -> u32
    ensures { ToldLaid (laid_beside est.now (settings_of train search fixed room links) image.old index.old) result image.new index.new }
{
    let settings = Settings {
        train_idx: NarrowTrainIdx(train),
        dist_disp_path_search: Metres(search),
        dist_fixed_max: Metres(fixed),
        diverge_room: room,
        links: links,
    };
    crate::answer_word(layout::lay_out_indexed(est, settings, image, index))
}

// Takes a check back as lavtoeu_undo does, and keeps the index. Refused by 25 where it has not 2 to 4,000 entries, then 21.
#[unsafe(no_mangle)]
pub extern "C" fn lavtoeu_undo_indexed(
    yard: &mut [u8],
    undo_record: &[u8],
    index: &mut [u64],
) -> u32
    ensures { ToldUndone (undone_beside yard.old undo_record.now index.old) result yard.new index.new }
{
    crate::answer_word(undoing::undo_indexed(yard, undo_record, index))
}
