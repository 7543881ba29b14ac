// The loop over rounds (free_path.rs 278-634).
ghost use Rattle.std.specs.Prelude.{◌≡◌, ◌&&◌, ℕ, ◌≤◌, ◌<◌, ltb, length, drop};
ghost use Rattle.disp_structs.specs.Listed.{listed};
ghost use Rattle.image.specs.Image.{est_count, diverge_room, node_at, path_of};
ghost use Rattle.free_path.specs.Base.{count};
ghost use Rattle.free_path.specs.Columns.{link_at, flagged};
ghost use Rattle.free_path.specs.LinkOptType.{link_idx_path};
ghost use Rattle.free_path.specs.Validate.{stray_link};
ghost use Rattle.search.specs.Read.{Marked};
ghost use Rattle.tally.specs.Tally.{counted, stepped};
ghost use Rattle.update_free_path.specs.Updates.{due_at, is_last, ran_of, is_first, kept_met, strays_by, stopped_by, next_of, closed_at, Counting, Sizes, Top, RoundsEnded};

use crate::path;
use free_path::halt::Halt;
use free_path::strays;
use image::codec::PathHeader;
use link_rules::link_idx::TrainIdx;
use round::{End, Given, RoundEnd, splitting};
use tally;
use tally::Tally;

// Between two rounds: the header's numbers, idx_split and div_idx_split, document 01's tally, and the train met in the first round.
#[derive(Clone, Copy)]
pub struct Between {
    pub header: PathHeader,
    pub split: usize,
    pub div_split: usize,
    pub tally: Tally,
    pub met: TrainIdx,
}

// How the loop stops: a round halts, the limit of rounds is met before the path ends (12), blocked by a train, or with a path to validate.
#[derive(Clone, Copy)]
pub enum Stop {
    Halted(Halt),
    OverLimit,
    Blocked(TrainIdx),
    Ended,
}

// same_path: no round handed on a path, so that it is that of the start unless the loop is refused.
#[derive(Clone, Copy)]
pub struct Ran {
    pub stop: Stop,
    pub header: PathHeader,
    pub tally: Tally,
    pub met: TrainIdx,
    pub same_path: bool,
}

// Is another round due?
fn is_due(w: Between) -> bool
    ensures { result ≡ due_at w }
{
    w.split < w.header.path_count as usize
}

fn goes_on(w: Between, limit: u16) -> bool
    ensures { result ≡ (ltb w.tally.rounds limit && due_at w) }
{
    w.tally.rounds < limit && is_due(w)
}

// Does no round follow one that ends so?
fn is_last(end: End) -> bool
    ensures { result ≡ is_last end }
{
    !matches!(end, End::Again)
}

fn ran_with(stop: Stop, h: PathHeader, t: Tally, met: TrainIdx, first: bool) -> Ran
    ensures { result ≡ ran_of stop h t met first }
{
    Ran {
        stop,
        header: h,
        tally: t,
        met,
        same_path: first,
    }
}

// Is no round counted yet?
fn is_first(w: Between) -> bool
    ensures { result ≡ is_first w.tally }
{
    w.tally.rounds == 0
}

// The train met that is kept once a round has ended: that of the first round.
fn kept_met(w: Between, x: RoundEnd) -> TrainIdx
    ensures { result ≡ kept_met w x }
{
    if is_first(w) {
        return x.met;
    }
    w.met
}

// The tally with one more round and the steps of its search. The strays are those of a path; faults are counted once no round follows.
fn tallied(t: Tally, steps: u64, strays: usize) -> Tally
    requires { Counting t steps strays }
    ensures { result ≡ counted (stepped t steps) strays }
{
    tally::counted_round(tally::counted_steps(t, steps), strays as u64, 0)
}

// A round has ended and no other follows; strays are those of its path. Four ends have three answers, so that no arm says less.
fn stopped(w: Between, x: RoundEnd, strays: usize) -> Ran
    requires { Counting w.tally x.steps strays }
    ensures { result ≡ stopped_by x.end x.header w.tally x.steps strays (kept_met w x) }
{
    let t = w.tally;
    let h = x.header;
    let met = kept_met(w, x);
    let first = is_first(w);
    let end = x.end;
    match end {
        End::Refused(why) => ran_with(Stop::Halted(why), h, tallied(t, x.steps, 0), met, first),
        End::AtEnd => ran_with(Stop::Ended, h, tallied(t, x.steps, strays), met, first),
        End::Blocked(holder) => ran_with(
            Stop::Blocked(holder),
            h,
            tallied(t, x.steps, 0),
            met,
            first,
        ),
        End::Again => ran_with(Stop::Ended, h, tallied(t, x.steps, 0), met, first),
    }
}

// A round has ended and another may follow; strays are those of the path that it left.
fn next(w: Between, x: RoundEnd, strays: usize) -> Between
    requires { Counting w.tally x.steps strays }
    ensures { result ≡ next_of w x strays }
{
    let h = x.header;
    let t = w.tally;
    Between {
        header: h,
        split: x.split,
        div_split: x.div_split,
        tally: tallied(t, x.steps, strays),
        met: kept_met(w, x),
    }
}

// No round follows: another one due is 12.
fn closed(w: Between) -> Ran
    ensures { result ≡ closed_at w }
{
    let h = w.header;
    let t = w.tally;
    let met = w.met;
    let first = is_first(w);
    if is_due(w) {
        return ran_with(Stop::OverLimit, h, t, met, first);
    }
    ran_with(Stop::Ended, h, t, met, first)
}

// The strays of the path of which col is link_idx_path.
pub(crate) fn strays_of(col: &[u32], h: PathHeader, occ: &[u32], known: &[u8]) -> usize
    ensures { result ≡ count (stray_link occ.now (flagged known.now)) (drop h.free (listed h.path_count (link_at col.now))) }
{
    strays::strays(col, h.path_count as usize, h.free as usize, occ, known)
}

// Those that are counted where the last round ends so: only at AtEnd are they looked for.
fn strays_at(end: End, col: &[u32], h: PathHeader, occ: &[u32], known: &[u8]) -> usize
    ensures { result ≡ strays_by end (count (stray_link occ.now (flagged known.now)) (drop h.free (listed h.path_count (link_at col.now)))) }
{
    match end {
        End::AtEnd => strays_of(col, h, occ, known),
        _ => 0,
    }
}

// link_idx_path and is_on_path of the n nodes of the path.
pub(crate) fn derive(img: &[u8], n: u32, col: &mut [u32], on: &mut [u8])
    requires { (n ≤ length col.old) × ((i : ℕ) → i < n → (node_at img.now i).est_idx.0 < length on.old) }
    ensures { (listed n (link_at col.new) ≡ link_idx_path (path_of img.now n)) × Marked on.new (path_of img.now n) }
{
    path::link_path(img, n, col);
    path::mark_path(img, n, on);
}

// Round after round, as many as the limit has. col and on are those of the path.
pub(crate) fn rounds(
    img: &mut [u8],
    occ: &[u32],
    known: &[u8],
    g: Given,
    start: Between,
    limit: u16,
    col: &mut [u32],
    on: &mut [u8],
    dt: &mut [u32],
    dn: &mut [u32],
) -> Ran
    requires { Sizes (est_count img.old) (diverge_room img.old) col.old on.old dt.old dn.old × Top occ.now img.old col.old on.old dt.old dn.old start }
    ensures { RoundsEnded occ.now known.now g limit img.old dt.old dn.old start img.new dt.new dn.new result }
{
    let mut w = start;
    // A while: its test reads what the round before it left.
    while goes_on(w, limit) {
        let x = splitting::round(img, occ, col, on, g, w.header, w.split, w.div_split, dt, dn);
        let end = x.end;
        let h = x.header;
        if is_last(end) {
            return stopped(w, x, strays_at(end, col, w.header, occ, known));
        }
        derive(img, h.path_count, col, on);
        w = next(w, x, strays_of(col, h, occ, known));
    }
    closed(w)
}
