// The search of a round of update_free_path (free_path.rs 345-633): turn after turn, up to the one that ends it, proved equal to
// search_from of update_definition. The first nodes of the new path stand in an array of path nodes; each node that it gains goes to a buffer of an
// image's layout too, where a join finds it. The crate assumes nothing of its own.
ghost use Rattle.std.specs.Prelude.{◌≡◌, cond, ◌+◌, ◌-◌, ◌≤◌, ◌<◌, eqb, ltb, Some};
ghost use Rattle.image.specs.Image.{whole_node};
ghost use Rattle.search.specs.Read.{arrays};
ghost use Rattle.splice.specs.Read.{Kept};
ghost use Rattle.search.specs.Runs.{slot_of, Follows, FollowsTurn, Ready, counted, Searches};

use crate::look::Here;
use crate::turn::Turned;
use crate::{Effect, Place, Round, turn};
use disp_structs::DispNode;
use free_path::halt::Halt;
use image::codec;
use update_definition::Move;

// How the search ended: the move that is left to do or its effect, where it stood and stands, how many nodes the new path has, and how often the loop was entered.
#[derive(Clone, Copy)]
pub struct Searched {
    pub go: Move,
    pub effect: Effect,
    pub here: Here,
    pub place: Place,
    pub new_count: usize,
    pub steps: u64,
}

// Where the search goes on: the node that is written behind the new path, and how many nodes of it count.
#[derive(Clone, Copy)]
pub struct Next {
    pub node: DispNode,
    pub count: usize,
}

// Where node k of the new path stands in the array. The array has the first 63; its last place serves all others, and is not read for them.
fn slot_of(k: usize) -> usize
    ensures { result ≡ slot_of k }
{
    k.min(63)
}

// The current node where none was pushed: disp_path_new.last(), which is top or stands behind the array, else disp_path[idx_split - 1].
fn current(img: &[u8], fresh: &[u8], split: usize, count: usize, top: DispNode) -> DispNode
    requires { (split ≤ 512) × (count ≤ 512) }
    ensures { result ≡ cond (eqb count 0) (whole_node img.now (split - 1)) (cond (ltb 63 count) (whole_node fresh.now (count - 1)) top) }
{
    if count == 0 {
        return codec::whole_node(img, split.saturating_sub(1) as u32);
    }
    if 63 < count {
        return codec::whole_node(fresh, count.saturating_sub(1) as u32);
    }
    top
}

// After an effect with k nodes on the new path.
fn next_of(effect: Effect, curr: DispNode, k: usize) -> Option<Next>
    requires { k < 512 }
    ensures { Follows effect k result }
{
    match effect {
        Effect::Refused(_) => None,
        Effect::Push(n) => Some(Next {
            node: n,
            count: k + 1,
        }),
        Effect::Pop => Some(Next {
            node: curr,
            count: k.saturating_sub(1),
        }),
        Effect::Stay => Some(Next {
            node: curr,
            count: k,
        }),
        Effect::GiveUp(_) => None,
    }
}

fn after(go: Move, effect: Effect, curr: DispNode, k: usize) -> Option<Next>
    requires { k < 512 }
    ensures { FollowsTurn go effect k result }
{
    if turn::is_left(go) {
        return None;
    }
    next_of(effect, curr, k)
}

// A search that is refused. Where it stood does not count.
fn refused(halt: Halt, curr: DispNode, p: Place, steps: u64) -> Searched
    ensures { (result.go ≡ Move.Advance) × (result.effect ≡ Effect.Refused halt) × (result.place ≡ p) × (result.new_count ≡ p.new_count) × (result.steps ≡ steps) }
{
    let none = codec::zero_est();
    Searched {
        go: Move::Advance,
        effect: Effect::Refused(halt),
        here: Here {
            idx_join_new: 0,
            disp_node_curr: curr,
            est_curr: none,
            est_next: none,
        },
        place: p,
        new_count: p.new_count,
        steps,
    }
}

// A search that a turn has ended, with k nodes on the new path.
fn ended(t: Turned, k: usize, steps: u64) -> Searched
    ensures { result ≡ record { go = t.go; effect = t.effect; here = t.here; place = t.place; new_count = k; steps = steps } }
{
    Searched {
        go: t.go,
        effect: t.effect,
        here: t.here,
        place: t.place,
        new_count: k,
        steps,
    }
}

// The search from start, its new path in the buffer fresh.
pub fn run(
    img: &[u8],
    occ: &[u32],
    on: &[u8],
    dt: &[u32],
    dn: &[u32],
    r: Round,
    start: Place,
    fresh: &mut [u8],
    pool: &mut [u32],
    begins: &mut [u32],
    ends: &mut [u32],
    nt: &mut [u32],
    nn: &mut [u32],
) -> Searched
    requires { Ready img.now occ.now on.now dt.now dn.now r start fresh.old (arrays pool.old begins.old ends.old) nt.old nn.old }
    ensures { Searches occ.now img.now dt.now dn.now r start
        (arrays pool.old begins.old ends.old) nt.old nn.old result
        fresh.new (arrays pool.new begins.new ends.new) nt.new nn.new
        × Kept fresh.new fresh.old
        × (result.place.pool_count ≤ 2048) }
{
    let mut p = start;
    let mut curr = codec::whole_node(img, p.idx_split.saturating_sub(1) as u32);
    let mut new = [codec::zero_node(); 64];
    let limit = 3 * r.est_count + 1;
    for turns in 0..limit {
        let k = p.new_count;
        let steps = turns as u64 + 1;
        let t = match turn::turn(img, occ, on, dt, dn, r, p, curr, pool, begins, ends, nt, nn) {
            Ok(t) => t,
            Err(halt) => return refused(halt, curr, p, steps),
        };
        let Some(a) = after(t.go, t.effect, curr, k) else {
            return ended(t, k, steps);
        };
        p = Place {
            new_count: a.count,
            ..t.place
        };
        // The current node is the one that was pushed, else disp_path_new.last(), else disp_path[idx_split - 1].
        if a.count == k + 1 {
            let n = a.node;
            let at = slot_of(k);
            new[at] = n;
            codec::put_node(fresh, k as u32, n);
            curr = n;
        } else {
            let top = slot_of(a.count.saturating_sub(1));
            curr = current(img, fresh, p.idx_split, a.count, new[top]);
        }
    }
    // No search of an accepted train meets this end.
    refused(Halt::Panic, curr, p, limit as u64)
}
