// Path nodes in their records of 32 octets: the parts of a spliced path brought to their places. A node of the tail moves once, straight to its new
// place, and none over one that has yet to move.
ghost use Rattle.std.specs.Prelude.{◌≡◌, ◌+◌, ◌*◌, ◌≤◌, ◌<◌, ltb, length, drop};
ghost use Rattle.std.proofs.Math.Seq.{paste};
ghost use Rattle.splice.specs.Parts.{next_moved, tail_moves, tail_placed, new_placed};

// Where a path is spliced: its first node stands at octet `path`, the first of `count` new nodes at octet `new` of another array. The new nodes replace
// those from `split` up to `base`, where `rest` nodes follow.
#[derive(Clone, Copy)]
pub struct Stretch {
    pub path: usize,
    pub split: usize,
    pub base: usize,
    pub rest: usize,
    pub new: usize,
    pub count: usize,
}

// 32 octets, one by one: copy_from_slice or copy_within in its place makes a move take three times as long (measured).
fn copy_node(from: &[u8], a: usize, to: &mut [u8], b: usize)
    requires { (a + 32 ≤ length from.now) × (b + 32 ≤ length to.old) }
    ensures { to.new ≡ paste to.old b (drop a from.now) 32 }
{
    for j in 0..32usize {
        to[b + j] = from[a + j];
    }
}

// The 32 octets from a on go to b: all are read before the first is written, so that they go through registers.
fn move_node(s: &mut [u8], a: usize, b: usize)
    requires { (a + 32 ≤ length s.old) × (b + 32 ≤ length s.old) }
    ensures { s.new ≡ paste s.old b (drop a s.old) 32 }
{
    let mut node = [0u8; 32];
    copy_node(s, a, &mut node, 0);
    copy_node(&node, 0, s, b);
}

// The record that moves after `moved` of k: the last of those left where they go up from i to j, else the first.
fn next_moved(i: usize, j: usize, k: usize, moved: usize) -> usize
    requires { moved < k }
    ensures { (result ≡ next_moved (ltb i j) k moved) × (result < k) }
{
    if i < j { k - 1 - moved } else { moved }
}

// k records behind octet p go from i on to j, in the order that overwrites none before it is read; the answer counts the moves.
fn move_nodes(s: &mut [u8], p: usize, i: usize, j: usize, k: usize) -> usize
    requires { (p + 32 * (i + k) ≤ length s.old) × (p + 32 * (j + k) ≤ length s.old) }
    ensures { (s.new ≡ paste s.old (p + 32 * j) (drop (p + 32 * i) s.old) (32 * k)) × (result ≡ tail_moves i j k) }
{
    if i == j {
        return 0;
    }
    let mut moves = 0;
    for moved in 0..k {
        let x = next_moved(i, j, k, moved);
        move_node(s, p + 32 * (i + x), p + 32 * (j + x));
        moves += 1;
    }
    moves
}

// The tail first, since the new nodes may come to stand where it stood; the answer counts the nodes that moved.
pub(crate) fn splice_nodes(s: &mut [u8], fresh: &[u8], w: Stretch) -> usize
    requires rest_in_bounds { w.path + 32 * (w.base + w.rest) ≤ length s.old }
    requires rest_in_bounds_2 { w.path + 32 * (w.split + w.count + w.rest) ≤ length s.old }
    requires count_in_bounds { w.new + 32 * w.count ≤ length fresh.now }
    ensures s_after { s.new ≡ new_placed w fresh.now (tail_placed w s.old) }
    ensures value { result ≡ tail_moves w.base (w.split + w.count) w.rest }
{
    let moved = move_nodes(s, w.path, w.base, w.split + w.count, w.rest);
    let at = w.path + 32 * w.split;
    s[at..at + 32 * w.count].copy_from_slice(&fresh[w.new..w.new + 32 * w.count]);
    moved
}
