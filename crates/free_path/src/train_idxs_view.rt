// The pool of blocking trains, an array of 2,048 with a count, and the unions of its views.
// What stands in the array past the count is of no account; a refusal leaves the array as it happens to be.
ghost use Rattle.std.specs.Prelude.{◌≡◌, ◌+◌, ◌-◌, ◌<◌, ◌≤◌, length, take, Ok, IfOk};
ghost use Rattle.free_path.specs.TrainIdxsView.{add_one, add_from, closed, add_blocking_trains, add_all_blocking_trains, concat_train_idx_views, covers, size};
ghost use Rattle.free_path.specs.Halts.{answered_by};
ghost use Rattle.free_path.specs.Columns.{trains, Grows, Makes, pooled, concat_in};

use crate::halt::Halt;
use disp_structs::TrainIdxsView;

// The view of a union, and the count of the pool after it.
#[derive(Clone, Copy)]
pub struct Union {
    pub view: TrainIdxsView,
    pub len: usize,
}

// One train of the added view: the sentinel's place takes it; it is pushed if base has it not.
fn add_one(pool: &mut [u32], len: usize, base: TrainIdxsView, i: usize) -> Result<usize, Halt>
    requires { (length pool.old ≡ 2048) × (len ≤ 2048) × (base.idx_begin ≤ base.idx_end) × (base.idx_end < len) }
    ensures { Grows result len pool.new (add_one base i (take len (trains pool.old))) }
{
    if len <= i {
        return Err(Halt::Panic);
    }
    let t = pool[i];
    let b = base.idx_begin as usize;
    let e = base.idx_end as usize;
    pool[e] = t;
    if pool[b..e].contains(&t) {
        return Ok(len);
    }
    if len == 2048 {
        return Err(Halt::NoRoom);
    }
    pool[len] = t;
    Ok(len + 1)
}

// The trains of the added view, from begin up to end.
fn add_from(
    pool: &mut [u32],
    len: usize,
    base: TrainIdxsView,
    begin: usize,
    end: usize,
) -> Result<usize, Halt>
    requires { (length pool.old ≡ 2048) × (len ≤ 2048) × (base.idx_begin ≤ base.idx_end) × (base.idx_end < len) }
    ensures { Grows result len pool.new (add_from base (end - begin) begin (take len (trains pool.old))) }
{
    let mut n = len;
    for i in begin..end {
        n = add_one(pool, n, base, i)?;
    }
    Ok(n)
}

// The last train goes to the sentinel's place, or was the sentinel.
fn close(pool: &mut [u32], len: usize, base: TrainIdxsView) -> Union
    requires { (length pool.old ≡ 2048) × (len ≤ 2048) × (base.idx_end < len) }
    ensures { Makes (Ok result) pool.new (closed base (take len (trains pool.old))) }
{
    let m = len - 1;
    let e = base.idx_end as usize;
    pool[e] = pool[m];
    Union {
        view: TrainIdxsView {
            idx_begin: base.idx_begin,
            idx_end: m as u32,
        },
        len: m,
    }
}

fn add_blocking_trains(
    pool: &mut [u32],
    len: usize,
    base: TrainIdxsView,
    add: TrainIdxsView,
) -> Result<Union, Halt>
    requires { (length pool.old ≡ 2048) × (len ≤ 2048) }
    ensures { Makes result pool.new (add_blocking_trains (take len (trains pool.old)) base add) }
{
    if base.idx_end < base.idx_begin {
        return Err(Halt::Panic);
    }
    if len != base.idx_end as usize {
        return Err(Halt::Panic);
    }
    if add.idx_end < add.idx_begin {
        return Err(Halt::Panic);
    }
    if len == 2048 {
        return Err(Halt::NoRoom);
    }
    pool[len] = 0;
    let n = add_from(
        pool,
        len + 1,
        base,
        add.idx_begin as usize,
        add.idx_end as usize,
    )?;
    Ok(close(pool, n, base))
}

fn add_all_blocking_trains(
    pool: &mut [u32],
    len: usize,
    large: TrainIdxsView,
    small: TrainIdxsView,
) -> Result<Union, Halt>
    requires { (length pool.old ≡ 2048) × (len ≤ 2048) }
    ensures { Makes result pool.new (add_all_blocking_trains (take len (trains pool.old)) large small) }
{
    if small.idx_end < small.idx_begin {
        return Err(Halt::Panic);
    }
    if large.idx_end < large.idx_begin {
        return Err(Halt::Panic);
    }
    let a = large.idx_begin as usize;
    let e = large.idx_end as usize;
    if len < e {
        return Err(Halt::Panic);
    }
    let k = e - a;
    if 2048 < len + k {
        return Err(Halt::NoRoom);
    }
    pool.copy_within(a..e, len);
    let v = TrainIdxsView {
        idx_begin: len as u32,
        idx_end: (len + k) as u32,
    };
    add_blocking_trains(pool, len + k, v, small)
}

// Is v empty, or does u hold its index range?
fn holds(u: TrainIdxsView, v: TrainIdxsView) -> bool
    ensures { result ≡ covers u v }
{
    v.idx_begin == v.idx_end || u.idx_begin <= v.idx_begin && v.idx_end <= u.idx_end
}

// TrainIdxsView::len
fn extent(v: TrainIdxsView) -> u32
    ensures { result ≡ size v }
{
    v.idx_end.saturating_sub(v.idx_begin)
}

fn concat_in(
    pool: &mut [u32],
    len: usize,
    v: TrainIdxsView,
    w: TrainIdxsView,
) -> Result<Union, Halt>
    requires { (length pool.old ≡ 2048) × (len ≤ 2048) }
    ensures { Makes result pool.new (concat_train_idx_views (take len (trains pool.old)) v w) }
{
    if holds(v, w) {
        return Ok(Union { view: v, len });
    }
    if holds(w, v) {
        return Ok(Union { view: w, len });
    }
    if len == v.idx_end as usize {
        return add_blocking_trains(pool, len, v, w);
    }
    if len == w.idx_end as usize {
        return add_blocking_trains(pool, len, w, v);
    }
    if extent(w) <= extent(v) {
        return add_all_blocking_trains(pool, len, v, w);
    }
    add_all_blocking_trains(pool, len, w, v)
}

// The union of two views of the pool. What is lent is a pool where it has 2,048 entries and the count is no larger.
pub fn concat_train_idx_views(
    pool: &mut [u32],
    len: usize,
    v: TrainIdxsView,
    w: TrainIdxsView,
) -> Result<Union, Halt>
    ensures { (answered_by (pooled pool.exit.now) result ≡ concat_in pool.entry.now len v w) × IfOk result (λ u. u.len ≤ length pool.exit.now) }
{
    if pool.len() != 2048 || 2048 < len {
        return Err(Halt::Panic);
    }
    concat_in(pool, len, v, w)
}
