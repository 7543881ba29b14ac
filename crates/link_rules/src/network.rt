// The link table: its check, refusal 1, and thin readers (network.rs: idx_flip and link_idxs_lockout of Link).
ghost use Rattle.std.specs.Prelude.{◌≡◌, ◌+◌, ◌*◌, ◌^◌, ◌<◌, ◌≤◌, true, ◌&&◌, length};
ghost use Rattle.link_rules.specs.Network.{link_count, lockout_count, flip_at, start_at, count_at, lockout_at, link_at, all_below, header_fits, record_fits, lockout_fits, table_fits};

use crate::link_idx::LinkIdx;
use crate::octets;

// Whether the table is as document 01 lays it out; where it is not, it is refused by 1. One pass.
pub fn table_fits(table: &[u8]) -> bool
    ensures { result ≡ table_fits table.now }
{
    header_fits(table) && records_fit(table) && lockouts_fit(table)
}

// L, how many links the table has.
pub fn link_count(table: &[u8]) -> u32
    ensures { result ≡ link_count table.now }
{
    octets::u32_at(table, 4)
}

// The flip of a link.
pub fn idx_flip(table: &[u8], link: LinkIdx) -> LinkIdx
    ensures { result ≡ (link_at table.now link).idx_flip }
{
    LinkIdx(flip_at(table, link.0))
}

// How many lockouts a link has.
pub fn lockout_len(table: &[u8], link: LinkIdx) -> u32
    ensures { result ≡ length (link_at table.now link).link_idxs_lockout }
{
    count_at(table, link.0)
}

// ---- the fields of a record, and of the list of lockouts

fn flip_at(table: &[u8], l: u32) -> u32
    ensures { result ≡ flip_at table.now l }
{
    octets::u32_at(table, 16 + 12 * (l as usize))
}

pub(crate) fn start_at(table: &[u8], l: u32) -> u32
    ensures { result ≡ start_at table.now l }
{
    octets::u32_at(table, 20 + 12 * (l as usize))
}

pub(crate) fn count_at(table: &[u8], l: u32) -> u32
    ensures { result ≡ count_at table.now l }
{
    octets::u32_at(table, 24 + 12 * (l as usize))
}

pub(crate) fn lockout_at(table: &[u8], j: u64) -> u32
    requires { j < 2 ^ 40 }
    ensures { result ≡ lockout_at table.now j }
{
    octets::u32_at(
        table,
        16 + 12 * (link_count(table) as usize) + 4 * (j as usize),
    )
}

// ---- refusal 1

fn header_fits(table: &[u8]) -> bool
    ensures { result ≡ header_fits table.now }
{
    let size = octets::u32_at(table, 0) as usize;
    let links = link_count(table) as usize;
    let lockouts = octets::u32_at(table, 8) as usize;
    let offset = octets::u32_at(table, 12) as usize;
    (2 <= links)
        & (links <= 4000)
        & (lockouts <= 4096)
        & (offset == 16 + 12 * links)
        & (size == 16 + 12 * links + 4 * lockouts)
        & (size == table.len())
}

// No test of a record or a lockout branches, so that the compiler asks several at once.

fn records_fit(table: &[u8]) -> bool
    requires { header_fits table.now ≡ true }
    ensures { result ≡ all_below (link_count table.now) (record_fits table.now) }
{
    let links = link_count(table);
    let lockouts = octets::u32_at(table, 8);
    let mut fits = true;
    for l in 0..links {
        fits &= record_fits(table, links, lockouts, l);
    }
    fits
}

// start + count <= lockouts, without a sum that wraps.
fn record_fits(table: &[u8], links: u32, lockouts: u32, l: u32) -> bool
    requires { (links ≡ link_count table.now) × (lockouts ≡ lockout_count table.now) × (28 + 12 * l ≤ length table.now) }
    ensures { result ≡ record_fits table.now l }
{
    let at = 16 + 12 * (l as usize);
    let flip = octets::u32_in(table, at);
    let start = octets::u32_in(table, at + 4);
    let count = octets::u32_in(table, at + 8);
    let left = lockouts.wrapping_sub(start);
    (flip < links) & ((start <= lockouts) & (count <= left))
}

fn lockouts_fit(table: &[u8]) -> bool
    requires { header_fits table.now ≡ true }
    ensures { result ≡ all_below (lockout_count table.now) (lockout_fits table.now) }
{
    let links = link_count(table);
    let n = octets::u32_at(table, 8);
    let mut fits = true;
    for j in 0..n {
        fits &= lockout_fits(table, links, j);
    }
    fits
}

fn lockout_fits(table: &[u8], links: u32, j: u32) -> bool
    requires { (links ≡ link_count table.now) × (20 + 12 * links + 4 * j ≤ length table.now) }
    ensures { result ≡ lockout_fits table.now j }
{
    octets::u32_in(table, 16 + 12 * (links as usize) + 4 * (j as usize)) < links
}
