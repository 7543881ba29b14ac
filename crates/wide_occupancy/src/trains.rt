// The trains of an occupancy of u32 entries, and refusal 22.
ghost use Rattle.std.specs.Prelude.{◌≡◌};
ghost use Rattle.link_rules.specs.Refusals.{raised};
ghost use Rattle.wide_occupancy.specs.WideOccupancy.{largest, large_train_fault};

use link_rules::link_idx::TrainIdx;
use link_rules::refusal::{Refusal, refuse_unless};

// The largest of the entries, 0 where there is none. It reads them all, so that the loop can run over several at a time.
fn largest(occupancy: &[u32]) -> u32
    ensures { result ≡ largest occupancy.now }
{
    let mut top: u32 = 0;
    for x in occupancy {
        top = top.max(*x);
    }
    top
}

// 22 where the train or one of the occupancy is above top.
pub fn large_train_fault(occupancy: &[u32], train: TrainIdx, top: u32) -> Result<(), Refusal>
    ensures { result ≡ raised (large_train_fault top occupancy.now train) }
{
    refuse_unless(train.0.max(largest(occupancy)) <= top, 22)
}
