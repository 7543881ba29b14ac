// Marking and releasing a link: update_links_blocked and reset_link_train_idx (advance_rewind.rs 549-584).
ghost use Rattle.std.specs.Prelude.{◌≡◌, map};
ghost use Rattle.link_rules.specs.LinkIdx.{wide_train};
ghost use Rattle.link_rules.specs.Network.{link_at};
ghost use Rattle.link_rules.specs.Refusals.{raised};
ghost use Rattle.link_rules.specs.AdvanceRewind.{hold_all, refilled, reset_link_train_idx, reset_all, update_links_blocked, is_link, fault_judged, marked, mark_judged, mark_of};

use crate::link_idx::{LinkIdx, NarrowTrainIdx};
use crate::network;
use crate::occupancy::{Entry, hold, train_at};
use crate::refusal::{Refusal, refuse_unless};

// Marks a link for a train; train 0 releases it. Refused by 1 (table), 2 (length of the occupancy), 3 (link): then nothing is changed.
pub fn mark(
    table: &[u8],
    occupancy: &mut [u16],
    link: LinkIdx,
    train: NarrowTrainIdx,
) -> Result<(), Refusal>
    ensures { marked result occupancy.new ≡ mark_of table.now occupancy.old link (wide_train train) }
{
    mark_judged(table, network::table_fits(table), occupancy, link, train)
}

// As `mark`, over a table that is judged already: `fits` says whether it is accepted. So many marks over one table judge it once.
pub fn mark_judged(
    table: &[u8],
    fits: bool,
    occupancy: &mut [u16],
    link: LinkIdx,
    train: NarrowTrainIdx,
) -> Result<(), Refusal>
    ensures { marked result occupancy.new ≡ mark_judged fits table.now occupancy.old link (wide_train train) }
{
    mark_fault(table, fits, occupancy.len(), link)?;
    update_links_blocked(table, occupancy, link, train.0);
    Ok(())
}

// The first refusal of a mark in an occupancy of n entries.
pub fn mark_fault(table: &[u8], fits: bool, n: usize, link: LinkIdx) -> Result<(), Refusal>
    ensures { result ≡ raised (fault_judged fits table.now n link) }
{
    refuse_unless(fits, 1)?;
    refuse_unless(n == network::link_count(table) as usize, 2)?;
    refuse_unless(is_link(table, link), 3)
}

// Not 0, and one of the table's.
fn is_link(table: &[u8], link: LinkIdx) -> bool
    ensures { result ≡ is_link table.now link }
{
    link.0 != 0 && link.0 < network::link_count(table)
}

// What a mark or a release that is not refused does.
pub fn update_links_blocked<E: Entry>(table: &[u8], occupancy: &mut [E], link: LinkIdx, train: E)
    ensures { map E.number occupancy.new ≡ update_links_blocked table.now (map E.number occupancy.old) link (record { 0 = E.number train }) }
{
    let flip = network::idx_flip(table, link);
    hold(occupancy, flip.0, train);
    hold_lockouts(table, occupancy, link, train);
    if train.is_none() {
        reset_link_train_idx(table, occupancy, flip);
        reset_lockouts(table, occupancy, link);
    }
}

fn hold_lockouts<E: Entry>(table: &[u8], occupancy: &mut [E], link: LinkIdx, train: E)
    ensures { map E.number occupancy.new ≡ hold_all (map E.number occupancy.old) (link_at table.now link).link_idxs_lockout (record { 0 = E.number train }) }
{
    let start = network::start_at(table, link.0) as u64;
    let n = network::count_at(table, link.0) as u64;
    for j in 0..n {
        hold(occupancy, network::lockout_at(table, start + j), train);
    }
}

fn reset_lockouts<E: Entry>(table: &[u8], occupancy: &mut [E], link: LinkIdx)
    ensures { map E.number occupancy.new ≡ reset_all table.now (map E.number occupancy.old) (link_at table.now link).link_idxs_lockout }
{
    let start = network::start_at(table, link.0) as u64;
    let n = network::count_at(table, link.0) as u64;
    for j in 0..n {
        reset_link_train_idx(
            table,
            occupancy,
            LinkIdx(network::lockout_at(table, start + j)),
        );
    }
}

fn reset_link_train_idx<E: Entry>(table: &[u8], occupancy: &mut [E], link: LinkIdx)
    ensures { map E.number occupancy.new ≡ reset_link_train_idx table.now (map E.number occupancy.old) link }
{
    if network::lockout_len(table, link) > 1 {
        refill(table, occupancy, link);
    }
}

// The first lockout that is held passes its train on.
fn refill<E: Entry>(table: &[u8], occupancy: &mut [E], link: LinkIdx)
    ensures { map E.number occupancy.new ≡ refilled (map E.number occupancy.old) link (link_at table.now link).link_idxs_lockout }
{
    let start = network::start_at(table, link.0) as u64;
    let n = network::count_at(table, link.0) as u64;
    for j in 0..n {
        let t = train_at(occupancy, network::lockout_at(table, start + j));
        if !t.is_none() {
            hold(occupancy, link.0, t);
            return;
        }
    }
}
