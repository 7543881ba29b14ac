// Tables with a verdict for each set of closed links, not 0 where it is a win: each is made from the table one step later.
ghost use Rattle.std.specs.Prelude.{◌≡◌, cond, ◌^◌, ◌<◌, ◌≤◌};
ghost use Rattle.game.specs.Sets.{won, Verdicts, all_openings, some_closing, judged_in};

use crate::sets;

pub(crate) fn mark(win: bool) -> u8
    ensures { result ≡ cond win 1 0 }
{
    if win { 1 } else { 0 }
}

// Does every answer to the set c lead to a win?
fn all_openings(k: usize, t: &[u8; 256], c: usize) -> bool
    requires { (k ≤ 8) × (c < 2 ^ k) }
    ensures { result ≡ all_openings k (won t.now) c }
{
    for a in 0..k + 1 {
        let d = sets::opened(k, c, a);
        if t[d] == 0 {
            return false;
        }
    }
    true
}

// Does closing one link of the set c, or none, lead to a win?
fn some_closing(k: usize, t: &[u8; 256], c: usize) -> bool
    requires { (k ≤ 8) × (c < 2 ^ k) }
    ensures { result ≡ some_closing k (won t.now) c }
{
    for i in 0..k + 1 {
        let d = sets::shut(k, c, i);
        if t[d] != 0 {
            return true;
        }
    }
    false
}

// The table before the dispatcher's answer, from the table after it.
fn before_answer(k: usize, t: [u8; 256]) -> [u8; 256]
    requires { k ≤ 8 }
    ensures { Verdicts (2 ^ k) (all_openings k (won t)) result }
{
    let mut out = [0u8; 256];
    let n = sets::power(k);
    for c in 0..n {
        let win = all_openings(k, &t, c);
        out[c] = mark(win);
    }
    out
}

// The table before one link is closed, or none, from the table after it.
fn before_closing(k: usize, t: [u8; 256]) -> [u8; 256]
    requires { k ≤ 8 }
    ensures { Verdicts (2 ^ k) (some_closing k (won t)) result }
{
    let mut out = [0u8; 256];
    let n = sets::power(k);
    for c in 0..n {
        let win = some_closing(k, &t, c);
        out[c] = mark(win);
    }
    out
}

// The verdicts on all sets with so many turns left, from those on the last sets.
pub(crate) fn judge(k: usize, last: [u8; 256], turns: u32) -> [u8; 256]
    requires { k ≤ 8 }
    ensures { Verdicts (2 ^ k) (judged_in k (won last) turns) result }
{
    if turns == 0 {
        return last;
    }
    let later = judge(k, last, turns - 1);
    let answered = before_answer(k, later);
    let second = before_closing(k, answered);
    before_closing(k, second)
}
