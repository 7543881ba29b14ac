// The header's numbers and the records of an image, read from its bytes and written to them.
// What lies past the end reads as 0 and is not written, so that each function is total.
ghost use Rattle.std.specs.Prelude.{◌≡◌, ◌+◌, ◌*◌, ◌-◌, ◌^◌, ◌<◌, length, replicate};
ghost use Rattle.link_rules.specs.Octets.{le_at};
ghost use Rattle.image.specs.Fields.{diverge_words};
ghost use Rattle.image.specs.Image.{size_of, est_count, path_count_of, diverge_count_of, diverge_room, train_idx_of, is_wide, path_header, dist_disp_path_search_of, dist_fixed_max_of, est_place, node_place, diverge_place, type_of, type_number, est_from, est_at, node_from, node_at, zero_est, zero_node, whole_est, whole_node, diverge_from, diverge_at, put_node, put_diverge, zero_words, clear_nodes, clear_diverges, put_path_header};

use disp_structs::{
    DispNode, DivergeNode, EstIdx, EstTime, EstType, LinkEvent, Metres, Seconds, floats,
};
use link_rules::link_idx::{LinkIdx, TrainIdx};
use link_rules::octets;

// The header's numbers that an update changes.
#[derive(Clone, Copy)]
pub struct PathHeader {
    pub path_count: u32,
    pub diverge_count: u32,
    pub fixed: u16,
    pub free: u16,
    pub front: u16,
    pub back: u16,
}

// ---- header

pub fn size(img: &[u8]) -> u32
    ensures { result ≡ size_of img.now }
{
    octets::u32_at(img, 0)
}

pub fn est_count(img: &[u8]) -> u32
    ensures { result ≡ est_count img.now }
{
    octets::u32_at(img, 4)
}

pub fn path_count(img: &[u8]) -> u32
    ensures { result ≡ path_count_of img.now }
{
    octets::u32_at(img, 8)
}

pub fn diverge_count(img: &[u8]) -> u32
    ensures { result ≡ diverge_count_of img.now }
{
    octets::u32_at(img, 12)
}

pub fn diverge_room(img: &[u8]) -> u32
    ensures { result ≡ diverge_room img.now }
{
    octets::u32_at(img, 16)
}

pub fn train_idx(img: &[u8]) -> TrainIdx
    ensures { result ≡ train_idx_of img.now }
{
    TrainIdx(octets::u16_at(img, 32) as u32)
}

// Byte 42 is 1.
pub fn is_wide(img: &[u8]) -> bool
    ensures { result ≡ is_wide img.now }
{
    octet_at(img, 42) == 1
}

pub fn path_header(img: &[u8]) -> PathHeader
    ensures { result ≡ path_header img.now }
{
    PathHeader {
        path_count: octets::u32_at(img, 8),
        diverge_count: octets::u32_at(img, 12),
        fixed: octets::u16_at(img, 34),
        free: octets::u16_at(img, 36),
        front: octets::u16_at(img, 38),
        back: octets::u16_at(img, 40),
    }
}

pub fn dist_disp_path_search(img: &[u8]) -> Metres
    ensures { result ≡ dist_disp_path_search_of img.now }
{
    Metres(floats::real_of(octets::u64_at(img, 48)))
}

pub fn dist_fixed_max(img: &[u8]) -> Metres
    ensures { result ≡ dist_fixed_max_of img.now }
{
    Metres(floats::real_of(octets::u64_at(img, 56)))
}

pub fn put_path_header(img: &mut [u8], h: PathHeader)
    ensures { img.new ≡ put_path_header h img.old }
{
    octets::put_u32(img, 8, h.path_count);
    octets::put_u32(img, 12, h.diverge_count);
    octets::put_u16(img, 34, h.fixed);
    octets::put_u16(img, 36, h.free);
    octets::put_u16(img, 38, h.front);
    octets::put_u16(img, 40, h.back);
}

// ---- where the records begin

pub fn est_place(i: u32) -> usize
    ensures { result ≡ est_place i }
{
    64 + 32 * (i as usize)
}

pub fn node_place(e: u32, i: u32) -> usize
    ensures { result ≡ node_place e i }
{
    64 + 32 * (e as usize) + 32 * (i as usize)
}

pub fn diverge_place(wide: bool, e: u32, i: u32) -> usize
    ensures { result ≡ diverge_place wide e i }
{
    64 + 64 * (e as usize) + 4 * diverge_words(wide, i as usize)
}

// How many numbers of 4 bytes n diverge records are.
fn diverge_words(wide: bool, n: usize) -> usize
    requires { n < 2 ^ 32 }
    ensures { (result ≡ diverge_words wide * n) × (result < 2 ^ 33) }
{
    if wide { 2 * n } else { n }
}

// ---- records

fn octet_at(s: &[u8], at: usize) -> u8
    ensures { result ≡ le_at 1 s.now at }
{
    if at < s.len() { s[at] } else { 0 }
}

fn type_of(n: u8) -> EstType
    ensures { result ≡ type_of n }
{
    match n {
        0 => EstType::Arrive,
        1 => EstType::Clear,
        _ => EstType::Fake,
    }
}

// Its place in EstType.
fn type_number(t: EstType) -> u16
    ensures { result ≡ type_number t }
{
    t as u16
}

pub fn est_at(img: &[u8], i: u32) -> EstTime
    ensures { result ≡ est_at img.now i }
{
    let at = est_place(i);
    if img.len() < at + 32 {
        est_past(img, at)
    } else {
        est_from(img, at)
    }
}

// The est record of index i, or one of zeros where it does not lie within the image. No call is made for that, so that the fields of the record stay
// in registers where this function is inlined.
pub fn whole_est(img: &[u8], i: u32) -> EstTime
    ensures { result ≡ whole_est img.now i }
{
    let at = est_place(i);
    if img.len() < at + 32 {
        zero_est()
    } else {
        est_from(img, at)
    }
}

// An est record of zeros.
pub fn zero_est() -> EstTime
    ensures { result ≡ zero_est }
{
    let e = LinkEvent {
        link_idx: LinkIdx(0),
        est_type: EstType::Arrive,
    };
    EstTime {
        dist_to_next: Metres(floats::real_of(0)),
        idx_next: EstIdx(0),
        idx_next_alt: EstIdx(0),
        idx_prev: EstIdx(0),
        idx_prev_alt: EstIdx(0),
        link_event: e,
    }
}

// The est record of index i among est records alone, as a layout gets them.
pub fn est_in(est: &[u8], i: u32) -> EstTime
    ensures { result ≡ est_from est.now (32 * i) }
{
    est_from(est, 32 * (i as usize))
}

// An est record that ends past the image: a call, so that est_at is small.
#[inline(never)]
fn est_past(s: &[u8], at: usize) -> EstTime
    requires { at < 2 ^ 48 }
    ensures { result ≡ est_from s.now at }
{
    est_from(s, at)
}

// Inlined, so that behind a test of the length no field asks again.
// That at fits is asked of the places here and below one by one: a type of places would be no plainer.
#[inline(always)]
fn est_from(s: &[u8], at: usize) -> EstTime
    requires { at < 2 ^ 48 }
    ensures { result ≡ est_from s.now at }
{
    EstTime {
        dist_to_next: Metres(floats::real_of(octets::u64_at(s, at))),
        idx_next: EstIdx(octets::u32_at(s, at + 8)),
        idx_next_alt: EstIdx(octets::u32_at(s, at + 12)),
        idx_prev: EstIdx(octets::u32_at(s, at + 16)),
        idx_prev_alt: EstIdx(octets::u32_at(s, at + 20)),
        link_event: LinkEvent {
            link_idx: LinkIdx(octets::u32_at(s, at + 24)),
            est_type: type_of(octet_at(s, at + 28)),
        },
    }
}

pub fn node_at(img: &[u8], i: u32) -> DispNode
    ensures { result ≡ node_at img.now i }
{
    let at = node_place(est_count(img), i);
    if img.len() < at + 32 {
        node_past(img, at)
    } else {
        node_from(img, at)
    }
}

// The path record of index i, or one of zeros where it does not lie within the image, as whole_est.
pub fn whole_node(img: &[u8], i: u32) -> DispNode
    ensures { result ≡ whole_node img.now i }
{
    let at = node_place(est_count(img), i);
    if img.len() < at + 32 {
        zero_node()
    } else {
        node_from(img, at)
    }
}

// A path record of zeros.
pub fn zero_node() -> DispNode
    ensures { result ≡ zero_node }
{
    let e = LinkEvent {
        link_idx: LinkIdx(0),
        est_type: EstType::Arrive,
    };
    DispNode {
        offset: Metres(floats::real_of(0)),
        time_pass: Seconds(floats::real_of(0)),
        link_event: e,
        est_idx: EstIdx(0),
        disp_auth_idx_entry: 0,
    }
}

// As est_past.
#[inline(never)]
fn node_past(s: &[u8], at: usize) -> DispNode
    requires { at < 2 ^ 48 }
    ensures { result ≡ node_from s.now at }
{
    node_from(s, at)
}

#[inline(always)]
fn node_from(s: &[u8], at: usize) -> DispNode
    requires { at < 2 ^ 48 }
    ensures { result ≡ node_from s.now at }
{
    DispNode {
        offset: Metres(floats::real_of(octets::u64_at(s, at))),
        time_pass: Seconds(floats::real_of(octets::u64_at(s, at + 8))),
        link_event: LinkEvent {
            link_idx: LinkIdx(octets::u32_at(s, at + 16)),
            est_type: type_of(octet_at(s, at + 26)),
        },
        est_idx: EstIdx(octets::u32_at(s, at + 20)),
        disp_auth_idx_entry: octets::u16_at(s, at + 24),
    }
}

pub fn diverge_at(img: &[u8], i: u32) -> DivergeNode
    ensures { result ≡ diverge_at img.now i }
{
    diverge_with(img, is_wide(img), est_count(img), i)
}

// Of an image whose width and est count the caller has read, once for many records.
pub fn diverge_with(img: &[u8], wide: bool, e: u32, i: u32) -> DivergeNode
    ensures { result ≡ diverge_from wide img.now (diverge_place wide e i) }
{
    let at = diverge_place(wide, e, i);
    if wide {
        DivergeNode {
            train_idx: TrainIdx(octets::u32_at(img, at)),
            disp_node_idx: octets::u16_at(img, at + 4) as u32,
        }
    } else {
        DivergeNode {
            train_idx: TrainIdx(octets::u16_at(img, at) as u32),
            disp_node_idx: octets::u16_at(img, at + 2) as u32,
        }
    }
}

// ---- single fields of records

pub fn est_next(img: &[u8], i: u32) -> EstIdx
    ensures { result ≡ (est_at img.now i).idx_next }
{
    EstIdx(octets::u32_at(img, est_place(i) + 8))
}

pub fn est_next_alt(img: &[u8], i: u32) -> EstIdx
    ensures { result ≡ (est_at img.now i).idx_next_alt }
{
    EstIdx(octets::u32_at(img, est_place(i) + 12))
}

pub fn node_link_event(img: &[u8], i: u32) -> LinkEvent
    ensures { result ≡ (node_at img.now i).link_event }
{
    let at = node_place(est_count(img), i);
    LinkEvent {
        link_idx: LinkIdx(octets::u32_at(img, at + 16)),
        est_type: type_of(octet_at(img, at + 26)),
    }
}

pub fn node_est_idx(img: &[u8], i: u32) -> EstIdx
    ensures { result ≡ (node_at img.now i).est_idx }
{
    EstIdx(octets::u32_at(img, node_place(est_count(img), i) + 20))
}

// ---- records written, every byte of them

pub fn put_node(img: &mut [u8], i: u32, x: DispNode)
    ensures { img.new ≡ put_node x (node_place (est_count img.old) i) img.old }
{
    let at = node_place(est_count(img), i);
    if img.len() < at + 32 {
        put_node_past(img, at, x)
    } else {
        put_node_from(img, at, x)
    }
}

// As est_past.
#[inline(never)]
fn put_node_past(s: &mut [u8], at: usize, x: DispNode)
    requires { at < 2 ^ 48 }
    ensures { s.new ≡ put_node x at s.old }
{
    put_node_from(s, at, x)
}

#[inline(always)]
fn put_node_from(s: &mut [u8], at: usize, x: DispNode)
    requires { at < 2 ^ 48 }
    ensures { s.new ≡ put_node x at s.old }
{
    octets::put_u64(s, at, floats::bits_of(x.offset.0));
    octets::put_u64(s, at + 8, floats::bits_of(x.time_pass.0));
    octets::put_u32(s, at + 16, x.link_event.link_idx.0);
    octets::put_u32(s, at + 20, x.est_idx.0);
    octets::put_u16(s, at + 24, x.disp_auth_idx_entry);
    octets::put_u16(s, at + 26, type_number(x.link_event.est_type));
    octets::put_u32(s, at + 28, 0);
}

pub fn put_diverge(img: &mut [u8], i: u32, x: DivergeNode)
    ensures { img.new ≡ put_diverge (is_wide img.old) x (diverge_place (is_wide img.old) (est_count img.old) i) img.old }
{
    let wide = is_wide(img);
    let e = est_count(img);
    put_diverge_with(img, wide, e, i, x)
}

// As diverge_with reads. Of a number that its field cannot hold the low bits are written.
pub fn put_diverge_with(img: &mut [u8], wide: bool, e: u32, i: u32, x: DivergeNode)
    ensures { img.new ≡ put_diverge wide x (diverge_place wide e i) img.old }
{
    let at = diverge_place(wide, e, i);
    if wide {
        octets::put_u32(img, at, x.train_idx.0);
        octets::put_u16(img, at + 4, (x.disp_node_idx % 65536) as u16);
        octets::put_u16(img, at + 6, 0);
    } else {
        octets::put_u16(img, at, (x.train_idx.0 % 65536) as u16);
        octets::put_u16(img, at + 2, (x.disp_node_idx % 65536) as u16);
    }
}

// The path records from n on become zero.
pub fn clear_nodes(img: &mut [u8], n: u32)
    ensures { img.new ≡ clear_nodes n img.old }
{
    let e = est_count(img);
    let at = node_place(e, n);
    clear_words(img, at, 8 * count_from(n, e));
}

// The diverge records from m on become zero.
pub fn clear_diverges(img: &mut [u8], m: u32)
    ensures { img.new ≡ clear_diverges m img.old }
{
    let wide = is_wide(img);
    let at = diverge_place(wide, est_count(img), m);
    let q = diverge_room(img);
    clear_words(img, at, diverge_words(wide, count_from(m, q)));
}

// How many numbers there are from a up to b.
pub fn count_from(a: u32, b: u32) -> usize
    ensures { result ≡ b - a }
{
    b.saturating_sub(a) as usize
}

// k numbers of 4 bytes from at become zero: as one run of bytes where they lie within the image.
fn clear_words(img: &mut [u8], at: usize, k: usize)
    requires { at + 4 * k < 2 ^ 48 }
    ensures { img.new ≡ zero_words k at img.old }
{
    let end = at + 4 * k;
    if img.len() < end {
        clear_words_past(img, at, k)
    } else {
        zero_all(&mut img[at..end])
    }
}

// Every byte becomes zero.
pub fn zero_all(s: &mut [u8])
    ensures { s.new ≡ replicate (length s.old) 0 }
{
    s.fill(0)
}

// Numbers that end past the image.
fn clear_words_past(img: &mut [u8], at: usize, k: usize)
    requires { at + 4 * k < 2 ^ 48 }
    ensures { img.new ≡ zero_words k at img.old }
{
    for i in 0..k {
        octets::put_u32(img, at + 4 * i, 0);
    }
}
