// The search of a round and its end (free_path.rs 345-633).
ghost use Rattle.std.specs.Prelude.{[], ◌^◌, ◌≤◌, ◌<◌, length};
ghost use Rattle.image.specs.Image.{est_count, diverge_room, node_place};
ghost use Rattle.search.specs.Read.{arrays};
ghost use Rattle.round.specs.Rounds.{Held, Room, Searching, SearchEnded, zeroed};
ghost use Rattle.round.specs.Ends.{SearchGiven};
ghost use Rattle.search.specs.Effects.{search_at};

use crate::{RoundEnd, ending};
use image::codec::PathHeader;
use link_rules::octets;
use search::{Place, Round, run, turn};

// A search from start, and how it ends the round.
fn search_round(
    img: &mut [u8],
    fresh: &mut [u8],
    occ: &[u32],
    on: &[u8],
    h: PathHeader,
    r: Round,
    start: Place,
    dt: &mut [u32],
    dn: &mut [u32],
    pool: &mut [u32],
    begins: &mut [u32],
    ends: &mut [u32],
    nt: &mut [u32],
    nn: &mut [u32],
) -> RoundEnd
    requires { Held occ.now img.old on.now dt.old dn.old h
        × Room (est_count img.old) (diverge_room img.old) (length fresh.old) fresh.old dt.old dn.old pool.old begins.old ends.old nt.old nn.old
        × Searching occ.now img.old dt.old dn.old h r start pool.old begins.old ends.old nt.old nn.old }
    ensures { SearchEnded occ.now img.old dt.old dn.old h r
        (search_at r start [] (arrays pool.old begins.old ends.old) nt.old nn.old) result
        img.new dt.new dn.new }
{
    // An image of no est records: its path begins at octet 64.
    octets::put_u32(fresh, 4, 0);
    let s = run::run(
        img, occ, on, dt, dn, r, start, fresh, pool, begins, ends, nt, nn,
    );
    let go = s.go;
    if !turn::is_left(go) {
        let e = s.effect;
        return ending::by_effect(e, h, s.steps);
    }
    let q = ending::reached(r, s);
    let here = s.here;
    if ending::is_join(go) {
        return ending::joined(img, fresh, h, q, here, dt, dn, nt, nn, s.steps);
    }
    let p = s.place;
    ending::changed(
        img,
        h,
        q,
        here,
        p,
        r.est_count,
        pool,
        begins,
        ends,
        dt,
        dn,
        nt,
        nn,
        s.steps,
    )
}

// The search in room of its own: F octets for the new path of a train of at most E est records, and room for at most Q diverge nodes.
fn search_in<const F: usize, const E: usize, const Q: usize>(
    img: &mut [u8],
    occ: &[u32],
    on: &[u8],
    h: PathHeader,
    r: Round,
    start: Place,
    dt: &mut [u32],
    dn: &mut [u32],
) -> RoundEnd
    requires given { SearchGiven occ.now img.old on.now dt.old dn.old h r start }
    requires new_path { (node_place 0 E ≤ F) × (F < 2 ^ 32) × (Q < 2 ^ 32) }
    requires ests { est_count img.old ≤ E }
    requires divs { diverge_room img.old ≤ Q }
    ensures { SearchEnded occ.now img.old dt.old dn.old h r (zeroed r.est_count start) result img.new dt.new dn.new }
{
    let mut fresh = [0u8; F];
    let mut pool = [0u32; 2048];
    let mut begins = [0u32; E];
    let mut ends = [0u32; E];
    let mut nt = [0u32; Q];
    let mut nn = [0u32; Q];
    search_round(
        img,
        &mut fresh,
        occ,
        on,
        h,
        r,
        start,
        dt,
        dn,
        &mut pool,
        &mut begins,
        &mut ends,
        &mut nt,
        &mut nn,
    )
}

// The search from start, by the size of the train: less room takes less time to clear.
pub(crate) fn search(
    img: &mut [u8],
    occ: &[u32],
    on: &[u8],
    h: PathHeader,
    r: Round,
    start: Place,
    dt: &mut [u32],
    dn: &mut [u32],
) -> RoundEnd
    requires { SearchGiven occ.now img.old on.now dt.old dn.old h r start }
    ensures { SearchEnded occ.now img.old dt.old dn.old h r (zeroed r.est_count start) result img.new dt.new dn.new }
{
    if r.diverge_room > 64 {
        return search_in::<16448, 512, 1024>(img, occ, on, h, r, start, dt, dn);
    }
    if r.est_count > 64 {
        return search_in::<16448, 512, 64>(img, occ, on, h, r, start, dt, dn);
    }
    search_in::<2112, 64, 64>(img, occ, on, h, r, start, dt, dn)
}
