// Refusal 8: the lowest est record on a cycle of next and alt (idx_next, idx_next_alt of est_times/mod.rs).
// Every function here is proved, and the crate assumes nothing of its own. The public function has no `requires`.
#![tactic(auto)]

ghost use Rattle.std.specs.Prelude.{◌≡◌, ◌+◌, ◌<◌, ◌≤◌, min, true, not, ◌&&◌, ◌||◌, ◌⊎◌, ◌==◌, ◌≢◌, nat_lt, slice_index, slice_set, None};
ghost use Rattle.est_times.specs.Cycles.{follow, on_cycle, first_on_cycle};

// The lowest record on a cycle, where there is one.
// An order of the records is guessed, and checked in one pass; only where the check fails is each record searched.
// The arrays have room for 512 records, and a larger e counts as 512.
pub fn cycle_at(next: &[u32; 512], alt: &[u32; 512], e: usize) -> Option<usize>
    ensures { result ≡ first_on_cycle next.now alt.now (min e 512) }
{
    let net = Net {
        next,
        alt,
        e: e.min(512),
    };
    let mut rank = [0u32; 512];
    net.order(&mut rank);
    if net.rank_rises(&rank) {
        return None;
    }
    net.lowest()
}

// e records, and where each leads by next and by alt.
#[derive(Clone, Copy)]
struct Net<'a> {
    next: &'a [u32; 512],
    alt: &'a [u32; 512],
    e: usize,
    ghost room: { e ≤ 512 },
}

impl<'a> Net<'a> {
    fn by_next(self, a: usize) -> usize
        requires { a < self.e }
        ensures { (result ≡ follow self.entry.e self.entry.next.now a) × (result < self.entry.e) }
    {
        follow(self.next, self.e, a)
    }

    fn by_alt(self, a: usize) -> usize
        requires { a < self.e }
        ensures { (result ≡ follow self.entry.e self.entry.alt.now a) × (result < self.entry.e) }
    {
        follow(self.alt, self.e, a)
    }

    // The first record that comes back to itself.
    fn lowest(self) -> Option<usize>
        ensures { result ≡ first_on_cycle self.entry.next.now self.entry.alt.now self.entry.e }
    {
        for a in 0..self.e {
            if self.comes_back(a) {
                return Some(a);
            }
        }
        None
    }

    // Whether a comes back to itself: a queue of the records that a comes to, and a flag for each.
    fn comes_back(self, a: usize) -> bool
        requires { a < self.e }
        ensures { result ≡ on_cycle self.entry.next.now self.entry.alt.now self.entry.e a }
    {
        let mut seen = [0u32; 512];
        let mut queue = [0u32; 512];
        seen[a] = 1;
        queue[0] = a as u32;
        let mut n = 1;
        let mut head = 0;
        // while: the queue grows within the loop.
        while head < n {
            let x = queue[head] as usize;
            let s = self.by_next(x);
            let t = self.by_alt(x);
            if meets(s, t, a) {
                return true;
            }
            let m = visit(&mut seen, &mut queue, n, s);
            n = visit(&mut seen, &mut queue, m, t);
            head += 1;
        }
        false
    }

    // The rank rises along next and alt of every record, those included that no path reaches.
    fn rank_rises(self, rank: &[u32; 512]) -> bool
        ensures { result ≡ true → first_on_cycle self.entry.next.now self.entry.alt.now self.entry.e ≡ None }
    {
        for a in 0..self.e {
            if !rises(rank, a, self.by_next(a)) || !rises(rank, a, self.by_alt(a)) {
                return false;
            }
        }
        true
    }

    // A guess at a rank: a record is ranked once all that lead to it are. Nothing is promised of it, since rank_rises checks it.
    fn order(self, rank: &mut [u32; 512]) {
        let mut into = [0u32; 512];
        let mut queue = [0u32; 512];
        self.count_into(&mut into);
        into[0] = 0;
        let mut n = none_into(&into, self.e, &mut queue);
        let mut head = 0;
        // while: the queue grows within the loop.
        while head < n {
            let a = queue[head] as usize;
            if a < self.e {
                rank[a] = head as u32;
                let m = drop_into(&mut into, &mut queue, n, self.by_next(a));
                n = drop_into(&mut into, &mut queue, m, self.by_alt(a));
            }
            head += 1;
        }
    }

    // How many times each record is led to, and at 0 how many next and alt are none.
    fn count_into(self, into: &mut [u32; 512]) {
        for a in 0..self.e {
            let s = self.by_next(a);
            let t = self.by_alt(a);
            into[s] = into[s].wrapping_add(1);
            into[t] = into[t].wrapping_add(1);
        }
    }
}

// The record to which a leads, 0 where there is none.
fn follow(idxs: &[u32; 512], e: usize, a: usize) -> usize
    requires { (e ≤ 512) × (a < e) }
    ensures { (result ≡ follow e idxs.now a) × (result < e) }
{
    let t = idxs[a] as usize;
    if t < e { t } else { 0 }
}

// a is not 0, and s or t is a.
fn meets(s: usize, t: usize, a: usize) -> bool
    ensures { result ≡ (not (a == 0) && (s == a || t == a)) }
{
    a != 0 && (s == a || t == a)
}

// Flags s and puts it at the end of the queue, unless it is none or flagged.
fn visit(seen: &mut [u32; 512], queue: &mut [u32; 512], n: usize, s: usize) -> usize
    requires { (s < 512) × (slice_index seen.old s ≡ 0 → n < 512) }
    ensures { (((s ≡ 0) ⊎ (slice_index seen.old s ≢ 0)) × (seen.new ≡ seen.old) × (queue.new ≡ queue.old) × (result ≡ n))
        ⊎ ((s ≢ 0) × (slice_index seen.old s ≡ 0) × (seen.new ≡ slice_set seen.old s 1) × (queue.new ≡ slice_set queue.old n s) × (result ≡ n + 1)) }
{
    if s == 0 || seen[s] != 0 {
        return n;
    }
    seen[s] = 1;
    queue[n] = s as u32;
    n + 1
}

// t is none, or ranks above a.
fn rises(rank: &[u32; 512], a: usize, t: usize) -> bool
    requires { (a < 512) × (t < 512) }
    ensures { result ≡ (t == 0 || nat_lt (slice_index rank.now a) (slice_index rank.now t)) }
{
    t == 0 || rank[a] < rank[t]
}

// Puts the records to which none leads into the queue, and tells how many they are.
fn none_into(into: &[u32; 512], e: usize, queue: &mut [u32; 512]) -> usize
    requires { e ≤ 512 }
    ensures { result ≤ 512 }
{
    let mut n = 0;
    for a in 0..e {
        if into[a] == 0 {
            queue[n] = a as u32;
            n += 1;
        }
    }
    n
}

// t is led to once less; where that was the last time, t is put at the end of the queue.
fn drop_into(into: &mut [u32; 512], queue: &mut [u32; 512], n: usize, t: usize) -> usize
    requires { (t < 512) × (n ≤ 512) }
    ensures { (n ≤ result) × (result ≤ 512) }
{
    if t == 0 {
        return n;
    }
    into[t] = into[t].wrapping_sub(1);
    if into[t] != 0 || n == 512 {
        return n;
    }
    queue[n] = t as u32;
    n + 1
}
