// Diverge nodes in two columns: walks over them, a splice, and update_div_nodes (free_path.rs 642-675).
// New diverge nodes stand in two more columns, behind a sentinel at 0, with room behind them for the old ones that come after.
ghost use Rattle.std.specs.Prelude.{◌≡◌, not, cond, List, ℕ, ◌+◌, ◌-◌, ◌^◌, ◌≤◌, ◌<◌, ltb, eqb, length, get_or};
ghost use Rattle.free_path.specs.Base.{ok, walk_from};
ghost use Rattle.free_path.specs.Columns.{div_at};
ghost use Rattle.free_path.specs.Halts.{answered, answered_by};
ghost use Rattle.disp_structs.specs.Listed.{listed};
ghost use Rattle.update_definition.specs.Join.{shift_divs};
ghost use Rattle.splice.specs.Parts.{from_on, Splices, DivsFit};
ghost use Rattle.splice.specs.Answers.{DivsRoom, DivsSpliced, DivsUpdated};

use free_path::columns;
use free_path::halt::Halt;

// From i on the first of m entries above x.
pub fn walk_above(dn: &[u32], m: usize, i: usize, x: u32) -> Result<usize, Halt>
    ensures { (ts : List ℕ) → answered result ≡ walk_from (λ d. ltb x d.disp_node_idx) (listed m (div_at ts dn.now)) i }
{
    (i..m)
        .find(|k| x < columns::u32_of(dn, *k))
        .ok_or(Halt::Panic)
}

// From i on the first of m entries that is not x.
pub(crate) fn walk_past(dn: &[u32], m: usize, i: usize, x: u32) -> Result<usize, Halt>
    ensures { (ts : List ℕ) → answered result ≡ walk_from (λ d. not (eqb d.disp_node_idx x)) (listed m (div_at ts dn.now)) i }
{
    (i..m)
        .find(|k| columns::u32_of(dn, *k) != x)
        .ok_or(Halt::Panic)
}

// Diverge nodes from k on move with their nodes.
fn shift_divs(dn: &mut [u32], k: usize, m: usize, join: u32, base: u32) -> Result<(), Halt>
    requires inside { m ≤ length dn.old }
    requires number { (i : ℕ) → i < m → get_or dn.old i 0 + join < 2 ^ 16 }
    ensures { (ts : List ℕ) → answered_by (λ _. listed m (div_at ts dn.new)) result ≡ from_on (shift_divs join base) k (listed m (div_at ts dn.old)) }
{
    for i in k..m {
        let x = dn[i] + join;
        if x < base {
            return Err(Halt::Panic);
        }
        dn[i] = x - base;
    }
    Ok(())
}

// The entries from k up to m of a column go behind the c new ones, and all of them to the column at `at`.
fn splice_column(col: &mut [u32], fresh: &mut [u32], c: usize, at: usize, k: usize, m: usize)
    requires { (k ≤ m) × (m ≤ length col.old) × (at + c + (m - k) ≤ length col.old) × (1 + c + (m - k) ≤ length fresh.old) }
    ensures { Splices (λ i. get_or col.new i 0) (λ i. get_or col.old i 0) (λ i. get_or fresh.old (1 + i) 0) at c k m }
{
    let end = 1 + c + (m - k);
    fresh[1 + c..end].copy_from_slice(&col[k..m]);
    col[at..at + c + (m - k)].copy_from_slice(&fresh[1..end]);
}

// div_nodes.splice(at..k, the c new ones)
pub(crate) fn splice_divs(
    dt: &mut [u32],
    dn: &mut [u32],
    nt: &mut [u32],
    nn: &mut [u32],
    c: usize,
    at: usize,
    k: usize,
    m: usize,
)
    requires { DivsRoom dt.old dn.old nt.old nn.old c at k m }
    ensures { DivsSpliced dt.old dn.old nt.old nn.old c at k m dt.new dn.new }
{
    splice_column(dt, nt, c, at, k, m);
    splice_column(dn, nn, c, at, k, m);
}

// Diverge nodes from k on move with their nodes, if those move.
fn move_divs(dn: &mut [u32], k: usize, m: usize, join: u32, base: u32) -> Result<(), Halt>
    requires inside { m ≤ length dn.old }
    requires number { (i : ℕ) → i < m → get_or dn.old i 0 + join < 2 ^ 16 }
    ensures { (ts : List ℕ) → answered_by (λ _. listed m (div_at ts dn.new)) result ≡ from_on (λ ds. cond (eqb base join) (ok ds) (shift_divs join base ds)) k (listed m (div_at ts dn.old)) }
{
    if base == join {
        return Ok(());
    }
    shift_divs(dn, k, m, join, base)
}

// How many diverge nodes there are, and the div_idx_split that is returned.
#[derive(Clone, Copy)]
pub struct Divs {
    pub count: usize,
    pub split: usize,
}

// update_div_nodes with c new diverge nodes, the sentinel included.
pub(crate) fn update_div_nodes(
    dt: &mut [u32],
    dn: &mut [u32],
    m: usize,
    nt: &mut [u32],
    nn: &mut [u32],
    c: usize,
    room: usize,
    split: usize,
    base: u32,
    join: u32,
) -> Result<Divs, Halt>
    requires { DivsFit dt.old dn.old nt.old nn.old m c room split join }
    ensures { DivsUpdated dt.old dn.old nt.old nn.old m c room split base join result dt.new dn.new }
{
    let k = walk_above(dn, m, split, base)?;
    move_divs(dn, k, m, join, base)?;
    if c == 0 {
        return Err(Halt::Panic);
    }
    let total = split + (c - 1) + (m - k);
    if room < total {
        return Err(Halt::NoRoom);
    }
    splice_divs(dt, dn, nt, nn, c - 1, split, k, m);
    Ok(Divs {
        count: total,
        split: split + (c - 1),
    })
}
