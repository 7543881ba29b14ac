// The calls for C and Rust that carry a sitting over to wide images and check it in between (document 02, Q-7), as those beside them.
ghost use Rattle.std.specs.Prelude.{◌≡◌};
ghost use Rattle.carry.specs.Carry.{carried};
ghost use Rattle.carry.specs.HalfCheck.{half_checked, half_args};
ghost use Rattle.free_path_c.specs.Words.{answer_word, flag_of, ToldHalf};

use carry;
use carry::half;
use link_rules::link_idx::TrainIdx;

// Carries the slot behind the first `count` into `wide_yard`; with count 0 all of it and of `wide_occupancy` are written. Answers as lavtoeu_mark does: 2, 14, 6 to 9 of an
// image still to carry, or 24, which change nothing.
#[unsafe(no_mangle)]
pub extern "C" fn lavtoeu_carry(
    yard: &[u8],
    occupancy: &[u16],
    count: u32,
    wide_yard: &mut [u8],
    wide_occupancy: &mut [u32],
) -> u32
    ensures { (result ≡ answer_word (carried yard.now occupancy.now count wide_yard.old wide_occupancy.old).answer)
        × (wide_yard.new ≡ (carried yard.now occupancy.now count wide_yard.old wide_occupancy.old).yard)
        × (wide_occupancy.new ≡ (carried yard.now occupancy.now count wide_yard.old wide_occupancy.old).occupancy) }
{
    crate::answer_word(carry::carry(yard, occupancy, count, wide_yard, wide_occupancy))
}

// Checks a sitting of which `count` slots are carried: those in `wide_yard`, the others in `yard`. Answers and fills `answer` as lavtoeu_check_wide does, and 24; the report has
// 24 bytes for each slot.
#[unsafe(no_mangle)]
pub extern "C" fn lavtoeu_check_half(
    yard: &mut [u8],
    wide_yard: &mut [u8],
    count: u32,
    occupancy: &[u32],
    blocking: &[u32],
    moved: u32,
    begin: u16,
    local: u32,
    limit: u16,
    report: &mut [u8],
    answer: &mut [u64],
) -> u32
    ensures { ToldHalf (half_checked yard.old wide_yard.old count occupancy.now (half_args blocking.now moved begin (flag_of local) limit) report.old)
        result yard.new wide_yard.new report.new answer.old answer.new }
{
    let x = half::check_half(
        yard,
        wide_yard,
        count,
        occupancy,
        blocking,
        TrainIdx(moved),
        begin,
        crate::flag_of(local),
        limit,
        report,
    );
    crate::put_check(answer, x);
    crate::check_word(x)
}
