// Marking and releasing a link over an occupancy of u32 entries, with refusal 22.
ghost use Rattle.std.specs.Prelude.{◌≡◌, get_or};
ghost use Rattle.link_rules.specs.Refusals.{raised};
ghost use Rattle.link_rules.specs.AdvanceRewind.{update_links_blocked, marked};
ghost use Rattle.wide_occupancy.specs.WideOccupancy.{mark_wide_fault, mark_wide_of};

use crate::trains;
use link_rules::link_idx::{LinkIdx, TrainIdx};
use link_rules::refusal::Refusal;
use link_rules::{advance_rewind, network, occupancy};

// Marks a link for a train; train 0 releases it. Refused by 1 (table), 2 (length of the occupancy), 3 (link), 22 (a train above 999,999): then nothing is changed.
pub fn mark_wide(
    table: &[u8],
    occupancy: &mut [u32],
    link: LinkIdx,
    train: TrainIdx,
) -> Result<(), Refusal>
    ensures { marked result occupancy.new ≡ mark_wide_of table.now occupancy.old link train }
{
    mark_fault(table, occupancy, link, train)?;
    update_links_blocked(table, occupancy, link, train);
    Ok(())
}

fn mark_fault(
    table: &[u8],
    occupancy: &[u32],
    link: LinkIdx,
    train: TrainIdx,
) -> Result<(), Refusal>
    ensures { result ≡ raised (mark_wide_fault table.now occupancy.now link train) }
{
    let fits = network::table_fits(table);
    advance_rewind::mark_fault(table, fits, occupancy.len(), link)?;
    trains::large_train_fault(occupancy, train, 999999)
}

// What a mark or a release that is not refused does.
pub fn update_links_blocked(table: &[u8], occupancy: &mut [u32], link: LinkIdx, train: TrainIdx)
    ensures { occupancy.new ≡ update_links_blocked table.now occupancy.old link train }
{
    advance_rewind::update_links_blocked(table, occupancy, link, train.0)
}

// links_blocked[l]; past the end no train.
pub fn train_at(occupancy: &[u32], l: u32) -> u32
    ensures { result ≡ get_or occupancy.now l 0 }
{
    occupancy::train_at(occupancy, l)
}
