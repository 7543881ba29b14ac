// The calls for C and Rust over occupancies of u32 entries and wide images (document 02, Q-6), as those beside them.
ghost use Rattle.std.specs.Prelude.{◌≡◌, length};
ghost use Rattle.wide_occupancy.specs.WideOccupancy.{mark_wide_of};
ghost use Rattle.update_definition.specs.UpdateImage.{updated_image_wide};
ghost use Rattle.yard_check.specs.Check.{checked_wide};
ghost use Rattle.conversion.specs.Conversion.{widen_fault, narrow_fault, after_widen, after_narrow};
ghost use Rattle.free_path_c.specs.Words.{answer_word, fault_word, flag_of, Told, ToldCheck};

use conversion;
use link_rules::link_idx::{LinkIdx, TrainIdx};
use update_free_path;
use wide_occupancy::advance_rewind;
use yard_check::check;

// Marks a link for a train of up to six digits, or releases it with train 0. Answers as lavtoeu_mark does, and 22 where the train or an entry is above 999,999.
#[unsafe(no_mangle)]
pub extern "C" fn lavtoeu_mark_wide(
    table: &[u8],
    occupancy: &mut [u32],
    link: u32,
    train: u32,
) -> u32
    ensures { (result ≡ answer_word (mark_wide_of table.now occupancy.old (record { 0 = link }) (record { 0 = train })).answer)
        × (occupancy.new ≡ (mark_wide_of table.now occupancy.old (record { 0 = link }) (record { 0 = train })).occupancy) }
{
    crate::answer_word(advance_rewind::mark_wide(table, occupancy, LinkIdx(link), TrainIdx(train)))
}

// Updates the train of an image of either width. Answers and fills `answer` as lavtoeu_update does; 22 where an entry, the moved train or that of a diverge record is above
// 999,999, the first two above 65,535 where the image is narrow.
#[unsafe(no_mangle)]
pub extern "C" fn lavtoeu_update_wide(
    image: &mut [u8],
    occupancy: &[u32],
    blocking: &[u32],
    moved: u32,
    local: u32,
    limit: u16,
    answer: &mut [u64],
) -> u32
    ensures { Told (updated_image_wide image.old occupancy.now blocking.now moved (flag_of local) limit) result image.new answer.old answer.new }
{
    let x = update_free_path::update_wide(
        image,
        occupancy,
        blocking,
        TrainIdx(moved),
        crate::flag_of(local),
        limit,
    );
    crate::put_update(answer, x)
}

// Checks a yard of images of either width. Answers and fills `answer` as lavtoeu_check does; the report has 24 bytes for each slot where an image is wide; 22 where an entry is
// above 999,999, or above 65,535 where an image is narrow.
#[unsafe(no_mangle)]
pub extern "C" fn lavtoeu_check_wide(
    yard: &mut [u8],
    occupancy: &[u32],
    blocking: &[u32],
    moved: u32,
    begin: u16,
    local: u32,
    limit: u16,
    report: &mut [u8],
    answer: &mut [u64],
) -> u32
    ensures { ToldCheck (checked_wide yard.old occupancy.now blocking.now moved begin (flag_of local) limit report.old)
        result yard.new report.new answer.old answer.new }
{
    let x = check::check_wide(
        yard,
        occupancy,
        blocking,
        TrainIdx(moved),
        begin,
        crate::flag_of(local),
        limit,
        report,
    );
    crate::put_check(answer, x);
    crate::check_word(x)
}

// Writes a narrow image wide into `out`, which has as many bytes as that takes. Answers as lavtoeu_image_fault does over 4,000 links, and 6 where the image is wide or `out` has another length.
#[unsafe(no_mangle)]
pub extern "C" fn lavtoeu_widen(image: &[u8], out: &mut [u8]) -> u32
    ensures { (result ≡ fault_word (widen_fault image.now (length out.old)))
        × (out.new ≡ after_widen image.now out.old) }
{
    crate::answer_word(conversion::widen(image, out))
}

// Writes a wide image narrow into `out`. Answers as lavtoeu_widen does, 6 where the image is narrow, and 23 where a train of it is above 65,535.
#[unsafe(no_mangle)]
pub extern "C" fn lavtoeu_narrow(image: &[u8], out: &mut [u8]) -> u32
    ensures { (result ≡ fault_word (narrow_fault image.now (length out.old)))
        × (out.new ≡ after_narrow image.now out.old) }
{
    crate::answer_word(conversion::narrow(image, out))
}
