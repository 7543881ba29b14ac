// Little-endian numbers at an offset of a byte slice, which serve every layout of the project.
// An octet past the end reads as 0 and is not written, so that each function is total.
ghost use Rattle.std.specs.Prelude.{◌≡◌, ℕ, ◌+◌, ◌≤◌, ◌<◌, length, slice_index};
ghost use Rattle.link_rules.specs.Octets.{le_at, put_le, put_whole};

pub fn u16_at(s: &[u8], at: usize) -> u16
    ensures { result ≡ le_at 2 s.now at }
{
    // octets_at was tried here: it is slower at two octets
    if s.len() <= at {
        return 0;
    }
    if s.len() - at < 2 {
        return s[at] as u16;
    }
    u16::from_le_bytes([s[at], s[at + 1]])
}

pub fn u32_at(s: &[u8], at: usize) -> u32
    ensures { result ≡ le_at 4 s.now at }
{
    u32::from_le_bytes(octets_at(s, at))
}

pub fn u64_at(s: &[u8], at: usize) -> u64
    ensures { result ≡ le_at 8 s.now at }
{
    u64::from_le_bytes(octets_at(s, at))
}

// The W octets from at, 0 past the end. Where all lie within the slice their count is a constant, so that they are read at once.
fn octets_at<const W: usize>(s: &[u8], at: usize) -> [u8; W]
    ensures { (i : ℕ) → i < W → slice_index result i ≡ slice_index s.now (at + i) }
{
    if s.len() <= at {
        return [0; W];
    }
    let rest = &s[at..];
    if rest.len() < W {
        return octets_of(rest);
    }
    let mut octets = [0; W];
    octets.copy_from_slice(&rest[..W]);
    octets
}

// Fewer than W octets, and 0 behind them. A call apart: within octets_at a copy of a length that is known only when it runs makes the readers slower
// (measured).
#[cold]
#[inline(never)]
fn octets_of<const W: usize>(rest: &[u8]) -> [u8; W]
    requires { length rest.now < W }
    ensures { (i : ℕ) → i < W → slice_index result i ≡ slice_index rest.now i }
{
    let mut octets = [0; W];
    octets[..rest.len()].copy_from_slice(rest);
    octets
}

// Each writer but the narrowest is the narrower one twice, so that no count is copied that is known only when it runs.

pub fn put_u16(s: &mut [u8], at: usize, x: u16)
    ensures { s.new ≡ put_le 2 x at s.old }
{
    if s.len() <= at {
        return;
    }
    if s.len() - at < 2 {
        s[at] = (x % 256) as u8;
        return;
    }
    put_u16_in(s, at, x)
}

pub fn put_u32(s: &mut [u8], at: usize, x: u32)
    ensures { s.new ≡ put_le 4 x at s.old }
{
    if s.len() <= at {
        return;
    }
    if s.len() - at < 2 {
        put_u16(s, at, (x % 65536) as u16);
        return;
    }
    put_u16_in(s, at, (x % 65536) as u16);
    put_u16(s, at + 2, (x / 65536) as u16)
}

pub fn put_u64(s: &mut [u8], at: usize, x: u64)
    ensures { s.new ≡ put_le 8 x at s.old }
{
    if s.len() <= at {
        return;
    }
    if s.len() - at < 4 {
        put_u32(s, at, (x % 4294967296) as u32);
        return;
    }
    put_u32(s, at, (x % 4294967296) as u32);
    put_u32(s, at + 4, (x / 4294967296) as u32)
}

// ---- octets put into a buffer

// From k on; nothing where they don't all find room.
pub fn put_bytes(to: &mut [u8], k: usize, from: &[u8])
    ensures { to.new ≡ put_whole k from.now to.old }
{
    if to.len() < k {
        return;
    }
    if to.len() - k < from.len() {
        return;
    }
    let e = k + from.len();
    to[k..e].copy_from_slice(from)
}

// ---- where all octets lie within the slice

pub(crate) fn u32_in(s: &[u8], at: usize) -> u32
    requires { at + 4 ≤ length s.now }
    ensures { result ≡ le_at 4 s.now at }
{
    u32::from_le_bytes([s[at], s[at + 1], s[at + 2], s[at + 3]])
}

fn put_u16_in(s: &mut [u8], at: usize, x: u16)
    requires { at + 2 ≤ length s.old }
    ensures { s.new ≡ put_le 2 x at s.old }
{
    let [low, high] = x.to_le_bytes();
    s[at] = low;
    s[at + 1] = high;
}
