// div_idx_split, over m diverge nodes in columns (free_path.rs 323-332).
ghost use Rattle.std.specs.Prelude.{◌≡◌, List, ℕ, ◌<◌, ◌≤◌, IfOk};
ghost use Rattle.free_path.specs.Halts.{answered};
ghost use Rattle.update_definition.specs.Update.{at_sentinel, div_point};
ghost use Rattle.search.specs.Read.{divs_of};
ghost use Rattle.round_start.specs.Start.{parted_at, divided_at};

use free_path::columns;
use free_path::halt::Halt;
use splice::diverge;

// div_idx_split at the sentinel.
fn at_sentinel(dn: &[u32], m: usize, split: usize, k: usize) -> Result<usize, Halt>
    ensures { (ts : List ℕ) → answered result ≡ at_sentinel (divs_of m ts dn.now) split k }
{
    if k == 0 || m < k || columns::u32_of(dn, k - 1) as usize != split {
        return Err(Halt::Panic);
    }
    Ok(k)
}

// div_idx_split; node and divs are the sentinels. No diverge node is above the largest u32.
fn div_point(
    dn: &[u32],
    m: usize,
    split: usize,
    div_split: usize,
    node: usize,
    divs: usize,
) -> Result<usize, Halt>
    ensures { (ts : List ℕ) → answered result ≡ div_point (divs_of m ts dn.now) split div_split (record { node = node; divs = divs }) }
{
    if split == node {
        return at_sentinel(dn, m, split, divs);
    }
    match u32::try_from(split) {
        Ok(x) => diverge::walk_above(dn, m, div_split, x),
        Err(_) => Err(Halt::Panic),
    }
}

// div_idx_split with its asserts.
pub fn div_at(
    dn: &[u32],
    m: usize,
    split: usize,
    div_split: usize,
    node: usize,
    divs: usize,
) -> Result<usize, Halt>
    ensures { ((ts : List ℕ) → answered result ≡ divided_at (divs_of m ts dn.now) split div_split (record { node = node; divs = divs })) × IfOk result (λ k. (1 ≤ k) × (k < m)) }
{
    let k = div_point(dn, m, split, div_split, node, divs)?;
    parted(dn, m, split, k)
}

// The diverge node before k is at most at the split node, and the one at k above it.
fn parted(dn: &[u32], m: usize, split: usize, k: usize) -> Result<usize, Halt>
    ensures { ((ts : List ℕ) → answered result ≡ parted_at (divs_of m ts dn.now) split k) × IfOk result (λ i. (1 ≤ i) × (i < m)) }
{
    if k == 0 || m <= k {
        return Err(Halt::Panic);
    }
    if split < columns::u32_of(dn, k - 1) as usize {
        return Err(Halt::Panic);
    }
    if columns::u32_of(dn, k) as usize <= split {
        return Err(Halt::Panic);
    }
    Ok(k)
}
