// The end of a search: its effect, a change of diverge nodes, or a join (free_path.rs 471, 502-532, 576-631).
ghost use Rattle.std.specs.Prelude.{◌≡◌, false, ◌^◌, ◌<◌};
ghost use Rattle.link_rules.specs.LinkIdx.{no_train};
ghost use Rattle.search.specs.Effects.{onward};
ghost use Rattle.search.specs.Read.{arrays};
ghost use Rattle.splice.specs.Read.{JoinFits, ChangeFits};
ghost use Rattle.round.specs.Rounds.{is_join, reached_at, with_free};
ghost use Rattle.round.specs.Ends.{EndsByEffect, EndsBySplice, EndsByJoin, EndsByChange};

use crate::{End, RoundEnd};
use free_path::halt::Halt;
use image::codec::PathHeader;
use link_rules::link_idx::TrainIdx;
use search::look::Here;
use search::run::Searched;
use search::{Effect, Place, Round, views};
use splice::{Again, Reached, change, join};
use update_definition::Move;

// With no next idx_split, and no train met.
pub(crate) fn ended(end: End, h: PathHeader, steps: u64) -> RoundEnd
    ensures { result ≡ record { end = end; header = h; split = 0; div_split = 0; steps = steps; met = no_train } }
{
    RoundEnd {
        end,
        header: h,
        split: 0,
        div_split: 0,
        steps,
        met: TrainIdx(0),
    }
}

// By a train; disp_node_idx_free = disp_node_idx_fixed.
fn blocked(holder: TrainIdx, h: PathHeader, steps: u64) -> RoundEnd
    ensures { result ≡ record { end = End.Blocked holder; header = with_free h; split = 0; div_split = 0; steps = steps; met = no_train } }
{
    ended(
        End::Blocked(holder),
        PathHeader { free: h.fixed, ..h },
        steps,
    )
}

// By an effect after which no search goes on.
pub(crate) fn by_effect(effect: Effect, h: PathHeader, steps: u64) -> RoundEnd
    requires { onward effect ≡ false }
    ensures { EndsByEffect effect h steps result }
{
    match effect {
        Effect::Refused(halt) => ended(End::Refused(halt), h, steps),
        Effect::Push(_) | Effect::Pop | Effect::Stay => ended(End::Refused(Halt::Panic), h, steps),
        Effect::GiveUp(holder) => blocked(holder, h, steps),
    }
}

pub(crate) fn is_join(go: Move) -> bool
    ensures { result ≡ is_join go }
{
    matches!(go, Move::Join)
}

// Where the search of a round ended, as a splice has it.
pub(crate) fn reached(r: Round, s: Searched) -> Reached
    requires { (r.idx_split_save < 2 ^ 32) × (s.place.idx_split < 2 ^ 32) × (s.place.disp_node_idx_free < 2 ^ 32) × (s.here.idx_join_new < 2 ^ 32) × (s.new_count < 2 ^ 32) }
    ensures { result ≡ reached_at r s.place s.here s.new_count }
{
    let p = s.place;
    let here = s.here;
    Reached {
        split_save: r.idx_split_save as u32,
        split: p.idx_split as u32,
        div_split: p.div_idx_split,
        free: p.disp_node_idx_free as u32,
        join: here.idx_join_new as u32,
        new_count: s.new_count as u32,
        div_count: p.div_count,
    }
}

// By a splice of the train with the header h.
fn by_splice(spliced: Result<Again, Halt>, h: PathHeader, steps: u64) -> RoundEnd
    ensures { EndsBySplice spliced steps result }
{
    match spliced {
        Err(halt) => ended(End::Refused(halt), h, steps),
        Ok(again) => RoundEnd {
            end: End::Again,
            header: again.header,
            split: again.split as usize,
            div_split: again.div_split,
            steps,
            met: TrainIdx(0),
        },
    }
}

// The new path joins the old one.
pub(crate) fn joined(
    img: &mut [u8],
    fresh: &mut [u8],
    h: PathHeader,
    q: Reached,
    here: Here,
    dt: &mut [u32],
    dn: &mut [u32],
    nt: &mut [u32],
    nn: &mut [u32],
    steps: u64,
) -> RoundEnd
    requires { JoinFits img.old fresh.old dt.old dn.old nt.old nn.old h q here.est_curr.idx_next }
    ensures { EndsByJoin h q here steps img.old fresh.old dt.old dn.old nt.old nn.old result
        img.new dt.new dn.new }
{
    let n = here.disp_node_curr;
    let e = here.est_curr;
    let spliced = join::join(img, fresh, h, q, n, e, dt, dn, nt, nn);
    by_splice(spliced, h, steps)
}

// The trains that block the next est become those of the split node.
pub(crate) fn changed(
    img: &[u8],
    h: PathHeader,
    q: Reached,
    here: Here,
    p: Place,
    n: usize,
    pool: &[u32],
    begins: &[u32],
    ends: &[u32],
    dt: &mut [u32],
    dn: &mut [u32],
    nt: &mut [u32],
    nn: &mut [u32],
    steps: u64,
) -> RoundEnd
    requires { ChangeFits img.now dt.old dn.old nt.old nn.old pool.now p.pool_count h q }
    ensures { EndsByChange h q here p n steps img.now dt.old dn.old (arrays pool.now begins.now ends.now) result
        dt.new dn.new }
{
    let e = here.est_curr;
    let v = views::view_at(begins, ends, n, e.idx_next);
    let alt = e.idx_next_alt;
    let spliced = change::change_diverge(img, h, q, alt, v, pool, p.pool_count, dt, dn, nt, nn);
    by_splice(spliced, h, steps)
}
