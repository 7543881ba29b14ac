// The check of a half-carried sitting (document 02, Q-7): slots 1 to count are read and written in the second yard, the others in the first. The check is
// yard_check's over two yards, of which only the promise is used.
ghost use Rattle.std.specs.Prelude.{◌≡◌, Bool, ℕ, ◌≤◌, ◌<◌, length};
ghost use Rattle.link_rules.specs.Refusals.{raised};
ghost use Rattle.yard_check.specs.Yard.{slot_count};
ghost use Rattle.yard_check.specs.Pair.{pair_checked_of};
ghost use Rattle.carry.specs.HalfCheck.{half_fits, early_fault, half_checked, half_args};

use link_rules::link_idx::TrainIdx;
use link_rules::refusal::{Refusal, refuse_unless};
use update_free_path::call;
use yard_check::check::{Answer, Args};
use yard_check::{pair, yard};

// 24, behind 14.
#[tactic(auto, unfolding(crate::specs::HalfCheck::half_fits))]
fn half_fits(yard: &[u8], count: u32, wide: &[u8]) -> bool
    requires { (length yard.now < 4294967296) × (slot_count yard.now ≤ 63) }
    ensures { result ≡ half_fits yard.now count wide.now }
{
    1 <= count && crate::second_fits(yard, count, wide)
}

// 2, 4, 5, 14 and 24, in this order. Of begin and local nothing is asked.
fn early_fault(
    yard: &[u8],
    wide: &[u8],
    count: u32,
    occupancy: &[u32],
    blocking: &[u32],
    moved: TrainIdx,
    limit: u16,
) -> Result<(), Refusal>
    ensures { (begin : ℕ) (local : Bool) → result ≡ raised (early_fault yard.now wide.now count occupancy.now (half_args blocking.now moved.0 begin local limit)) }
{
    call::call_fault(occupancy.len(), blocking, moved, limit)?;
    refuse_unless(yard::yard_fits(yard), 14)?;
    refuse_unless(half_fits(yard, count, wide), 24)
}

// Visits every slot from begin on, each in its yard. Refused by 2, 4, 5, 14, 24, 22, 15 and 16: then nothing is changed.
pub fn check_half(
    yard: &mut [u8],
    wide_yard: &mut [u8],
    count: u32,
    occupancy: &[u32],
    blocking: &[u32],
    moved: TrainIdx,
    begin: u16,
    local: bool,
    limit: u16,
    report: &mut [u8],
) -> Answer
    ensures { pair_checked_of result yard.new wide_yard.new report.new
        ≡ half_checked yard.old wide_yard.old count occupancy.now (half_args blocking.now moved.0 begin local limit) report.old }
{
    let a = Args {
        moved,
        begin,
        local,
        limit,
    };
    match early_fault(yard, wide_yard, count, occupancy, blocking, moved, limit) {
        Ok(()) => pair::check_pair(yard, wide_yard, count, occupancy, blocking, a, report),
        Err(f) => Answer::Refused(f),
    }
}
