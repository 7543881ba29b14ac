// The views of est_time_statuses in two columns, and is_on_path as flags.
ghost use Rattle.std.specs.Prelude.{◌≡◌, List, ℕ, ◌≤◌, length, set};
ghost use Rattle.update_definition.specs.State.{view_of, blocked};
ghost use Rattle.search.specs.Read.{views_of, on_flag};

use disp_structs::{EstIdx, TrainIdxsView};
use free_path::columns;

// The view of an est, of n.
pub fn view_at(begins: &[u32], ends: &[u32], n: usize, e: EstIdx) -> TrainIdxsView
    ensures { result ≡ view_of (views_of n begins.now ends.now) e }
{
    let i = e.0 as usize;
    if n <= i {
        return TrainIdxsView {
            idx_begin: 0,
            idx_end: 0,
        };
    }
    TrainIdxsView {
        idx_begin: columns::u32_of(begins, i),
        idx_end: columns::u32_of(ends, i),
    }
}

// EstTimeStatus::is_blocked, by the column of ends alone.
pub(crate) fn is_blocked(ends: &[u32], n: usize, e: EstIdx) -> bool
    ensures { (b : List ℕ) → result ≡ blocked (views_of n b ends.now) e }
{
    let i = e.0 as usize;
    i < n && columns::u32_of(ends, i) != 0
}

pub(crate) fn put_view(begins: &mut [u32], ends: &mut [u32], n: usize, e: EstIdx, v: TrainIdxsView)
    requires { (n ≤ length begins.old) × (n ≤ length ends.old) }
    ensures { views_of n begins.new ends.new ≡ set (views_of n begins.old ends.old) e.0 v }
{
    let i = e.0 as usize;
    if n <= i {
        return;
    }
    begins[i] = v.idx_begin;
    ends[i] = v.idx_end;
}

pub(crate) fn is_on_path(on: &[u8], e: EstIdx) -> bool
    ensures { result ≡ on_flag on.now e }
{
    let i = e.0 as usize;
    i < on.len() && on[i] != 0
}
