// Which trains run over a link (change request Q-10): beside a yard goes an index with one u64 for each link, whose bit t is set exactly if slot t's path has an
// Arrive on it. It is built from a yard; a check, a layout and an undo beside it keep it.
// Every function here is proved, the crate assumes nothing of its own, and no public function has a `requires`.
#![tactic(auto)]

mod bits;
pub mod checks;
pub mod layout;
mod slots;
pub mod undoing;

ghost use Rattle.std.specs.Prelude.{◌≡◌};
ghost use Rattle.link_rules.specs.Refusals.{raised};
ghost use Rattle.link_index.specs.LinkIndex.{leaves_as, length_fits, build_fault, build_of};

use link_rules::refusal::{Refusal, refuse_unless};
use yard_check::yard;

// Builds the index of a yard afresh; L is its length. Refused by 25, 14: then it stays.
pub fn build_index(yard: &[u8], index: &mut [u64]) -> Result<(), Refusal>
    ensures { leaves_as (build_of yard.now index.old) result index.new }
{
    build_fault(yard, index.len())?;
    slots::build_slots(yard, index);
    Ok(())
}

// A length outside 2 to 4,000 is that of no index.
#[tactic(auto, unfolding(crate::specs::LinkIndex::length_fits))]
pub(crate) fn length_fits(links: usize) -> bool
    ensures { result ≡ length_fits links }
{
    2 <= links && links <= 4000
}

// 25, 14.
fn build_fault(yard: &[u8], links: usize) -> Result<(), Refusal>
    ensures { result ≡ raised (build_fault yard.now links) }
{
    refuse_unless(length_fits(links), 25)?;
    refuse_unless(yard::yard_fits(yard), 14)
}
