// The class of the blocking list (LinkOptType), the sentinels, and the search for the first intersection.
ghost use Rattle.std.specs.Prelude.{◌≡◌, ◌≤◌, IfOk};
ghost use Rattle.free_path.specs.Base.{ok};
ghost use Rattle.free_path.specs.LinkOptType.{class_more, class_end, link_opt_type_of, calc_idx_sentinels, in_range, stops, intersect, find_train_intersect, train_met};
ghost use Rattle.free_path.specs.Halts.{answered_by};
ghost use Rattle.free_path.specs.Columns.{sentinels, links, link_at, div_at, flagged};
ghost use Rattle.disp_structs.specs.Listed.{listed};

use crate::columns;
use crate::halt::Halt;
use link_rules::link_idx::{LinkIdx, TrainIdx};

// Range holds the smallest link number and the span.
#[derive(Clone, Copy)]
pub enum LinkOptType {
    None,
    Single(LinkIdx),
    Range(u32, u32),
    Check,
}

// One blocking link that is on the path.
fn class_more(class: LinkOptType, l: LinkIdx) -> LinkOptType
    ensures { result ≡ class_more class l }
{
    match class {
        LinkOptType::None => LinkOptType::Single(l),
        LinkOptType::Single(p) => LinkOptType::Range(l.0.min(p.0), l.0.max(p.0)),
        LinkOptType::Range(a, b) => LinkOptType::Range(l.0.min(a), l.0.max(b)),
        LinkOptType::Check => LinkOptType::Check,
    }
}

// Smallest and largest become smallest and span.
fn class_end(class: LinkOptType) -> LinkOptType
    ensures { result ≡ class_end class }
{
    match class {
        LinkOptType::Range(a, b) if b.saturating_sub(a) <= 16 => {
            LinkOptType::Range(a, b.saturating_sub(a))
        }
        LinkOptType::Range(a, b) => LinkOptType::Check,
        _ => class,
    }
}

impl LinkOptType {
    // The blocking list as link numbers, and the links on the path as flags.
    pub fn new(blocking: &[u32], on: &[u8]) -> Self
        ensures { result ≡ link_opt_type_of (links blocking.now) (flagged on.now) }
    {
        let mut class = LinkOptType::None;
        for x in blocking {
            let l = LinkIdx(*x);
            if columns::is_flagged(on, l) {
                class = class_more(class, l);
            }
        }
        class_end(class)
    }
}

// idx_sentinel and div_idx_sentinel.
#[derive(Clone, Copy)]
pub struct IdxSentinels {
    pub node: usize,
    pub divs: usize,
}

// Over n diverge nodes in two columns.
pub fn calc_idx_sentinels(
    i: usize,
    moved: TrainIdx,
    trains: &[u32],
    nodes: &[u32],
    n: usize,
) -> Result<IdxSentinels, Halt>
    ensures { answered_by sentinels result ≡ calc_idx_sentinels i moved (listed n (div_at trains.now nodes.now)) }
{
    if n <= i || columns::u32_of(trains, n - 1) != moved.0 {
        return Err(Halt::Panic);
    }
    let j = (i..n)
        .find(|j| columns::u32_of(trains, *j) == moved.0)
        .ok_or(Halt::Panic)?;
    let x = columns::u32_of(nodes, j);
    let node = x as usize;
    let next = j + 1;
    if n <= next {
        return Ok(IdxSentinels { node, divs: next });
    }
    let divs = (next..n)
        .find(|k| columns::u32_of(nodes, *k) != x)
        .ok_or(Halt::Panic)?;
    Ok(IdxSentinels { node, divs })
}

// The difference from the smallest link, taken wrapping, is within the span: 0 falls outside every span above it.
fn in_range(low: u32, span: u32, l: LinkIdx) -> bool
    ensures { result ≡ in_range low span l }
{
    l.0.wrapping_sub(low) <= span
}

// Does the walk stop at this link? At a Single it stops whether the link is taken or not.
fn stops_at(class: LinkOptType, occ: &[u32], l: LinkIdx) -> bool
    ensures { result ≡ stops class occ.now l }
{
    let taken = columns::is_occupied(occ, l);
    match class {
        LinkOptType::None => false,
        LinkOptType::Single(c) => l == c,
        LinkOptType::Range(low, span) => in_range(low, span, l) && taken,
        LinkOptType::Check => taken,
    }
}

// The first entry from split up to the sentinel where the walk stops, else the sentinel.
fn intersect_from(
    split: usize,
    sentinel: usize,
    class: LinkOptType,
    col: &[u32],
    n: usize,
    occ: &[u32],
) -> usize
    requires { (split ≤ sentinel) × (sentinel ≤ n) }
    ensures { result ≡ intersect split sentinel class (listed n (link_at col.now)) occ.now }
{
    (split..sentinel)
        .find(|i| stops_at(class, occ, columns::link_of(col, *i)))
        .unwrap_or(sentinel)
}

// The index, and the train met there.
#[derive(Clone, Copy)]
pub struct Intersection {
    pub idx: usize,
    pub met: TrainIdx,
}

// The train on the link at an index that was found, 0 from the sentinel on.
fn train_met(idx: usize, sentinel: usize, col: &[u32], n: usize, occ: &[u32]) -> TrainIdx
    requires { sentinel ≤ n }
    ensures { result ≡ train_met sentinel (listed n (link_at col.now)) occ.now (ok idx) }
{
    if sentinel <= idx {
        return TrainIdx(0);
    }
    let l = columns::link_of(col, idx);
    TrainIdx(columns::u32_of(occ, l.0 as usize))
}

// link_idx_path, without its ending sentinel, as n links of a column.
pub fn find_train_intersect(
    split: usize,
    sentinel: usize,
    class: LinkOptType,
    col: &[u32],
    n: usize,
    occ: &[u32],
) -> Result<Intersection, Halt>
    ensures { (answered_by (λ r. r.idx) result ≡ find_train_intersect split sentinel class (listed n (link_at col.now)) occ.now)
        × IfOk result (λ r. r.met ≡ train_met sentinel (listed n (link_at col.now)) occ.now (find_train_intersect split sentinel class (listed n (link_at col.now)) occ.now)) }
{
    if sentinel <= split {
        return Ok(Intersection {
            idx: split,
            met: TrainIdx(0),
        });
    }
    if n < sentinel || matches!(class, LinkOptType::None) {
        return Err(Halt::Panic);
    }
    let idx = intersect_from(split, sentinel, class, col, n, occ);
    Ok(Intersection {
        idx,
        met: train_met(idx, sentinel, col, n, occ),
    })
}
