// Refusals 6 to 9 of an image with their places (document 01), and 22 of its diverge records (document 02, Q-6), read straight from its bytes.
// Every function here is proved, the crate assumes nothing of its own, and no public function has a `requires`.
#![tactic(auto)]

mod pass;

ghost use Rattle.std.specs.Prelude.{Bool, false, ◌≡◌, ◌&&◌, leb, length, replicate, ℕ, ◌+◌, ◌-◌, ◌*◌, ◌^◌, ◌≤◌, ◌<◌};
ghost use Rattle.link_rules.specs.Network.{all_below};
ghost use Rattle.link_rules.specs.Refusals.{raised};
ghost use Rattle.image.specs.Image.{est_count, path_count_of, diverge_count_of, is_wide, est_at, node_at, diverge_at};
ghost use Rattle.image_fault.specs.ImageFault.{fault_with, own_answer, image_fault, image_fits, trains_fault, diverge_train_fits, value_fault, cycle_fault, route_fault, first_unfit, counts_fit, parts_fit, width_number, train_fits, est_type_fits, node_type_fits, diverge_spare_fits, zero_word, unused_zero, records_fit, float_fits, time_fits, dist_fits, event_fits, est_links_fit, est_fits, node_fits, indices_fit, header_fits, steps_to, comes_from, ends_at, on_route, inner_fits, diverge_fits, is_accepted};
ghost use Rattle.image_fault.specs.CodeFacts.{CountsFit, zero_byte, is_later, leads_on};

use disp_structs::{DivergeNode, EstIdx, EstTime, EstType, LinkEvent, floats};
use image::codec;
use image::codec::PathHeader;
use link_rules::octets;
use link_rules::refusal::{Refusal, refuse_unless};

// The widths of the images that a call takes (document 02, Q-6).
#[derive(Clone, Copy)]
pub enum Widths {
    Narrow,
    Either,
}

// ---- 2: the number of links

fn links_fit(links: u32) -> bool
    ensures { result ≡ (leb 2 links && leb links 4000) }
{
    2 <= links && links <= 4000
}

// ---- 6: header, size, types, spare bytes, unused records

#[tactic(auto, unfolding(crate::specs::ImageFault::counts_fit))]
fn counts_fit(img: &[u8]) -> bool
    ensures { result ≡ counts_fit img.now }
{
    let e = codec::est_count(img);
    let n = codec::path_count(img);
    let m = codec::diverge_count(img);
    let q = codec::diverge_room(img);
    1 <= e && e <= 512 && 1 <= n && n <= e && 2 <= m && m <= q && q <= 1024
}

#[tactic(auto, unfolding(crate::specs::ImageFault::parts_fit))]
fn parts_fit(img: &[u8]) -> bool
    ensures { result ≡ parts_fit img.now }
{
    let e = codec::est_count(img);
    let wide = codec::is_wide(img);
    let size = codec::size(img) as usize;
    octets::u32_at(img, 20) as usize == codec::est_place(0)
        && octets::u32_at(img, 24) as usize == codec::node_place(e, 0)
        && octets::u32_at(img, 28) as usize == codec::diverge_place(wide, e, 0)
        && size == codec::diverge_place(wide, e, codec::diverge_room(img))
        && size == img.len()
}

// What the first spare byte and the one behind it may be at most.
fn width_number(w: Widths) -> u16
    ensures { result ≡ width_number w }
{
    match w {
        Widths::Narrow => 0,
        Widths::Either => 1,
    }
}

#[tactic(auto, unfolding(crate::specs::ImageFault::train_fits))]
fn train_fits(img: &[u8], w: Widths) -> bool
    ensures { result ≡ train_fits w img.now }
{
    codec::train_idx(img).0 != 0
        && octets::u16_at(img, 42) <= width_number(w)
        && octets::u32_at(img, 44) == 0
}

#[tactic(auto, unfolding(crate::specs::ImageFault::est_type_fits))]
fn est_type_fits(img: &[u8], i: u32) -> bool
    ensures { result ≡ est_type_fits img.now i }
{
    octets::u32_at(img, codec::est_place(i) + 28) <= 2
}

#[tactic(auto, unfolding(crate::specs::ImageFault::node_type_fits))]
fn node_type_fits(img: &[u8], i: u32) -> bool
    ensures { result ≡ node_type_fits img.now i }
{
    let at = codec::node_place(codec::est_count(img), i);
    octets::u16_at(img, at + 26) <= 2 && octets::u32_at(img, at + 28) == 0
}

fn diverge_spare_fits(img: &[u8], i: u32) -> bool
    ensures { result ≡ diverge_spare_fits img.now i }
{
    !codec::is_wide(img)
        || octets::u16_at(
            img,
            codec::diverge_place(true, codec::est_count(img), i) + 6,
        ) == 0
}

// k numbers of 4 bytes from at are 0: one run of bytes where they lie within the image.
fn words_zero(img: &[u8], at: usize, k: usize) -> bool
    requires { at + 4 * k < 2 ^ 48 }
    ensures { result ≡ all_below k (zero_word img.now at) }
{
    let end = at + 4 * k;
    if img.len() < end {
        return words_zero_past(img, at, k);
    }
    bytes_zero(&img[at..end])
}

// Every byte is read, so that the compiler can take many at once.
fn bytes_zero(s: &[u8]) -> bool
    ensures { result ≡ all_below (length s.now) (zero_byte s.now) }
{
    let mut bits: u8 = 0;
    for b in s {
        bits |= *b;
    }
    bits == 0
}

// Numbers that end past the image.
fn words_zero_past(img: &[u8], at: usize, k: usize) -> bool
    requires { at + 4 * k < 2 ^ 48 }
    ensures { result ≡ all_below k (zero_word img.now at) }
{
    (0..k).all(|j| octets::u32_at(img, at + 4 * j) == 0)
}

fn unused_zero(img: &[u8]) -> bool
    ensures { result ≡ unused_zero img.now }
{
    let e = codec::est_count(img);
    let n = codec::path_count(img);
    let m = codec::diverge_count(img);
    let wide = codec::is_wide(img);
    let words = if wide { 2 } else { 1 };
    words_zero(img, codec::node_place(e, n), 8 * codec::count_from(n, e))
        && words_zero(
            img,
            codec::diverge_place(wide, e, m),
            words * codec::count_from(m, codec::diverge_room(img)),
        )
}

fn est_types_fit(img: &[u8]) -> bool
    ensures { result ≡ all_below (est_count img.now) (est_type_fits img.now) }
{
    (0..codec::est_count(img)).all(|i| est_type_fits(img, i))
}

fn node_types_fit(img: &[u8]) -> bool
    ensures { result ≡ all_below (path_count_of img.now) (node_type_fits img.now) }
{
    (0..codec::path_count(img)).all(|i| node_type_fits(img, i))
}

fn diverge_spares_fit(img: &[u8]) -> bool
    ensures { result ≡ all_below (diverge_count_of img.now) (diverge_spare_fits img.now) }
{
    (0..codec::diverge_count(img)).all(|i| diverge_spare_fits(img, i))
}

#[tactic(auto, unfolding(crate::specs::ImageFault::records_fit))]
fn records_fit(img: &[u8]) -> bool
    ensures { result ≡ records_fit img.now }
{
    est_types_fit(img) && node_types_fit(img) && diverge_spares_fit(img) && unused_zero(img)
}

#[tactic(auto, unfolding(crate::specs::ImageFault::image_fits))]
fn image_fits(img: &[u8], w: Widths) -> bool
    ensures { result ≡ image_fits w img.now }
{
    counts_fit(img) && parts_fit(img) && train_fits(img, w) && records_fit(img)
}

// ---- 7: floats, links, est indices, and the header's indices

// The pattern without its sign is at most that of 1e12; those of infinities and NaNs are greater.
fn float_fits(b: u64) -> bool
    ensures { result ≡ float_fits b }
{
    b % 0x8000_0000_0000_0000 <= 0x426d_1a94_a200_0000
}

#[tactic(auto, unfolding(crate::specs::ImageFault::time_fits))]
fn time_fits(b: u64) -> bool
    ensures { result ≡ time_fits b }
{
    b == 0x7ff0_0000_0000_0000 || float_fits(b)
}

#[tactic(auto, unfolding(crate::specs::ImageFault::dist_fits))]
fn dist_fits(b: u64) -> bool
    ensures { result ≡ dist_fits b }
{
    float_fits(b) && !(floats::real_of(b) < 0.0)
}

#[tactic(auto, unfolding(crate::specs::ImageFault::event_fits))]
fn event_fits(l: u32, e: LinkEvent) -> bool
    ensures { result ≡ event_fits l e }
{
    e.link_idx.0 < l && !(e.est_type == EstType::Arrive && e.link_idx.0 == 0)
}

#[tactic(auto, unfolding(crate::specs::ImageFault::est_links_fit))]
fn est_links_fit(e: u32, x: EstTime) -> bool
    ensures { result ≡ est_links_fit e x }
{
    x.idx_next.0 < e && x.idx_next_alt.0 < e && x.idx_prev.0 < e && x.idx_prev_alt.0 < e
}

#[tactic(auto, unfolding(crate::specs::ImageFault::est_fits))]
fn est_fits(img: &[u8], l: u32, i: u32) -> bool
    ensures { result ≡ est_fits img.now l i }
{
    let x = codec::est_at(img, i);
    float_fits(octets::u64_at(img, codec::est_place(i)))
        && est_links_fit(codec::est_count(img), x)
        && event_fits(l, x.link_event)
}

#[tactic(auto, unfolding(crate::specs::ImageFault::node_fits))]
fn node_fits(img: &[u8], l: u32, i: u32) -> bool
    ensures { result ≡ node_fits img.now l i }
{
    let e = codec::est_count(img);
    let at = codec::node_place(e, i);
    float_fits(octets::u64_at(img, at))
        && time_fits(octets::u64_at(img, at + 8))
        && codec::node_est_idx(img, i).0 < e
        && event_fits(l, codec::node_link_event(img, i))
}

#[tactic(auto, unfolding(crate::specs::ImageFault::indices_fit))]
fn indices_fit(h: PathHeader) -> bool
    ensures { result ≡ indices_fit h }
{
    let n = h.path_count;
    h.fixed as u32 <= n && h.free as u32 <= n && (h.front as u32) < n && (h.back as u32) < n
}

#[tactic(auto, unfolding(crate::specs::ImageFault::header_fits))]
fn header_fits(img: &[u8]) -> bool
    ensures { result ≡ header_fits img.now }
{
    dist_fits(octets::u64_at(img, 48))
        && dist_fits(octets::u64_at(img, 56))
        && indices_fit(codec::path_header(img))
}

// Refusal `number` at the first of the n indices that does not fit.
fn first_unfit<F: Fn(u32) -> bool>(number: u16, n: u32, fits: F) -> Result<(), Refusal>
    requires callable { F.IsAlwaysCallable fits }
    requires number { 0 < number }
    requires few { n ≤ 1024 }
    ensures { (test : ℕ → Bool) → ((i : ℕ) → i < n → (b : Bool) → F.post fits i b → b ≡ test i) → result ≡ raised (first_unfit number test n 0) }
{
    for i in 0..n {
        if !fits(i) {
            return Err(Refusal {
                number,
                place: i as u16,
            });
        }
    }
    Ok(())
}

fn diverge_train_fits(img: &[u8], i: u32) -> bool
    ensures { result ≡ diverge_train_fits img.now i }
{
    codec::diverge_at(img, i).train_idx.0 <= 999999
}

fn trains_fault(img: &[u8]) -> Result<(), Refusal>
    requires { CountsFit img.now }
    ensures { result ≡ raised (trains_fault img.now) }
{
    if codec::is_wide(img) {
        return first_unfit(
            22,
            codec::diverge_count(img),
            |i| diverge_train_fits(img, i),
        );
    }
    Ok(())
}

// Est records come first, then path records, then the header, then trains by 22.
fn value_fault(img: &[u8], l: u32) -> Result<(), Refusal>
    requires { CountsFit img.now }
    ensures { result ≡ raised (value_fault img.now l) }
{
    first_unfit(7, codec::est_count(img), |i| est_fits(img, l, i))?;
    first_unfit(7, codec::path_count(img), |i| node_fits(img, l, i))?;
    refuse_unless(header_fits(img), 7)?;
    trains_fault(img)
}

// ---- 8: next and alt form a cycle

// t is none, or stands after record i.
fn is_later(i: u32, t: EstIdx) -> bool
    ensures { result ≡ is_later i t }
{
    t.0 == 0 || i < t.0
}

#[tactic(auto, unfolding(crate::specs::CodeFacts::leads_on))]
fn leads_on(img: &[u8], i: u32) -> bool
    ensures { result ≡ leads_on img.now i }
{
    is_later(i, codec::est_next(img, i)) && is_later(i, codec::est_next_alt(img, i))
}

fn ascends(img: &[u8], e: u32) -> bool
    ensures { result ≡ all_below e (leads_on img.now) }
{
    (0..e).all(|i| leads_on(img, i))
}

fn lowest_on_cycle(img: &[u8], e: u32) -> Result<(), Refusal>
    requires { (e ≡ est_count img.now) × (e ≤ 512) }
    ensures { result ≡ raised (cycle_fault img.now) }
{
    let mut next = [0u32; 512];
    let mut alt = [0u32; 512];
    for i in 0..e {
        let x = codec::est_next(img, i);
        let y = codec::est_next_alt(img, i);
        next[i as usize] = x.0;
        alt[i as usize] = y.0;
    }
    match est_times::cycle_at(&next, &alt, e as usize) {
        None => Ok(()),
        Some(a) => Err(Refusal {
            number: 8,
            place: a as u16,
        }),
    }
}

// Where every record leads to later ones alone, as in most images, there is no cycle; only for the others are arrays filled and searched.
fn cycle_fault(img: &[u8], e: u32) -> Result<(), Refusal>
    requires { (e ≡ est_count img.now) × (e ≤ 512) }
    ensures { result ≡ raised (cycle_fault img.now) }
{
    if ascends(img, e) {
        return Ok(());
    }
    lowest_on_cycle(img, e)
}

// ---- 9: the path, then the diverge nodes

// By next or alt of record b.
#[tactic(auto, unfolding(crate::specs::ImageFault::steps_to))]
fn steps_to(img: &[u8], b: EstIdx, x: EstIdx) -> bool
    ensures { result ≡ steps_to (est_at img.now b.0).idx_next (est_at img.now b.0).idx_next_alt x }
{
    x.0 != 0 && (x == codec::est_next(img, b.0) || x == codec::est_next_alt(img, b.0))
}

// In the next three, x is the est index of node i, and b that of the node before it.
#[tactic(auto, unfolding(crate::specs::ImageFault::comes_from))]
fn comes_from(img: &[u8], i: u32, b: EstIdx, x: EstIdx) -> bool
    requires { (x ≡ (node_at img.now i).est_idx) × (0 < i → b ≡ (node_at img.now (i - 1)).est_idx) }
    ensures { result ≡ comes_from img.now i }
{
    if i == 0 {
        return x.0 == 0;
    }
    steps_to(img, b, x)
}

#[tactic(auto, unfolding(crate::specs::ImageFault::ends_at))]
fn ends_at(img: &[u8], n: u32, i: u32, x: EstIdx) -> bool
    requires { (n ≡ path_count_of img.now) × (x ≡ (node_at img.now i).est_idx) }
    ensures { result ≡ ends_at img.now i }
{
    (i as usize) + 1 != n as usize || codec::est_next(img, x.0).0 == 0
}

fn on_route(img: &[u8], n: u32, i: u32, b: EstIdx, x: EstIdx, first: bool) -> bool
    requires { (n ≡ path_count_of img.now) × (x ≡ (node_at img.now i).est_idx) × (0 < i → b ≡ (node_at img.now (i - 1)).est_idx) }
    ensures { result ≡ (comes_from img.now i && (ends_at img.now i && first)) }
{
    comes_from(img, i, b, x) && ends_at(img, n, i, x) && first
}

// The links of the Arrive nodes so far are kept as flags, none at first.
fn path_fault_in(img: &[u8], n: u32, seen: &mut [bool]) -> Result<(), Refusal>
    requires { (n ≡ path_count_of img.now) × (n ≤ 512) × (seen.old ≡ replicate (length seen.old) false) × ((i : ℕ) → i < n → (node_at img.now i).link_event.link_idx.0 < length seen.old) }
    ensures { result ≡ raised (first_unfit 9 (on_route img.now) n 0) }
{
    let mut b = EstIdx(0);
    for i in 0..n {
        let x = codec::node_est_idx(img, i);
        let e = codec::node_link_event(img, i);
        let l = e.link_idx.0 as usize;
        let arrives = e.est_type == EstType::Arrive;
        if !on_route(img, n, i, b, x, !(arrives & seen[l])) {
            return Err(Refusal {
                number: 9,
                place: i as u16,
            });
        }
        seen[l] |= arrives;
        b = x;
    }
    Ok(())
}

// Few links have few flags, which take less time to clear. A function with the number as a const parameter would be called from the same two lines.
fn path_fault(img: &[u8], n: u32, links: u32) -> Result<(), Refusal>
    requires { (n ≡ path_count_of img.now) × (n ≤ 512) × (links ≤ 4000) × ((i : ℕ) → i < n → (node_at img.now i).link_event.link_idx.0 < links) }
    ensures { result ≡ raised (first_unfit 9 (on_route img.now) n 0) }
{
    if links <= 512 {
        let mut few = [false; 512];
        return path_fault_in(img, n, &mut few);
    }
    let mut seen = [false; 4000];
    path_fault_in(img, n, &mut seen)
}

#[tactic(auto, unfolding(crate::specs::ImageFault::inner_fits))]
fn inner_fits(n: u32, d: DivergeNode, b: DivergeNode) -> bool
    ensures { result ≡ inner_fits n d b }
{
    d.train_idx.0 != 0
        && 1 <= d.disp_node_idx
        && d.disp_node_idx < n
        && b.disp_node_idx <= d.disp_node_idx
}

// In the next three, wide is the width of the image, which is asked once for all records: a parameter, since an image is lent as its bytes.
// Inlined, since a call for each record makes an image of many diverge nodes slower (measured).
#[inline(always)]
fn diverge_of(img: &[u8], wide: bool, i: u32) -> DivergeNode
    requires { wide ≡ is_wide img.now }
    ensures { result ≡ diverge_at img.now i }
{
    codec::diverge_with(img, wide, codec::est_count(img), i)
}

#[tactic(auto, unfolding(crate::specs::ImageFault::diverge_fits))]
fn diverge_fits(img: &[u8], wide: bool, i: u32) -> bool
    requires { wide ≡ is_wide img.now }
    ensures { result ≡ diverge_fits img.now i }
{
    let d = diverge_of(img, wide, i);
    let n = codec::path_count(img);
    if i == 0 {
        return d.train_idx.0 == 0 && d.disp_node_idx == 0;
    }
    if (i as usize) + 1 == codec::diverge_count(img) as usize {
        return d.disp_node_idx == n;
    }
    inner_fits(n, d, diverge_of(img, wide, i - 1))
}

fn route_fault(img: &[u8], links: u32) -> Result<(), Refusal>
    requires { (CountsFit img.now) × (links ≤ 4000) × ((i : ℕ) → i < path_count_of img.now → (node_at img.now i).link_event.link_idx.0 < links) }
    ensures { result ≡ raised (route_fault img.now) }
{
    path_fault(img, codec::path_count(img), links)?;
    let wide = codec::is_wide(img);
    first_unfit(9, codec::diverge_count(img), |i| diverge_fits(img, wide, i))
}

// The first refusal, one number after the other; own is the call's between 6 and 7.
fn first_fault(img: &[u8], links: u32, w: Widths, own: Result<(), Refusal>) -> Result<(), Refusal>
    ensures { (f : Refusal) → own ≡ raised f → result ≡ raised (fault_with w f img.now links) }
{
    refuse_unless(links_fit(links), 2)?;
    refuse_unless(image_fits(img, w), 6)?;
    own?;
    value_fault(img, links)?;
    cycle_fault(img, codec::est_count(img))?;
    route_fault(img, links)
}

// An Err with number 0 is none.
fn own_answer(own: Result<(), Refusal>) -> Result<(), Refusal>
    ensures { result ≡ own_answer own }
{
    match own {
        Ok(()) => Ok(()),
        Err(f) => {
            if f.number == 0 {
                return Ok(());
            }
            Err(f)
        }
    }
}

// The first refusal of an image of the widths w over `links` links, in the order of documents 01 and 02; own is the call's between 6 and 7, or none.
// Most images have none, and one pass tells.
pub fn fault_with(
    img: &[u8],
    links: u32,
    w: Widths,
    own: Result<(), Refusal>,
) -> Result<(), Refusal>
    ensures { (f : Refusal) → own_answer own ≡ raised f → result ≡ raised (fault_with w f img.now links) }
{
    let call = own_answer(own);
    if pass::all_fit(img, links, w) {
        return call;
    }
    first_fault(img, links, w, call)
}

// The first refusal of a narrow image over `links` links, in document 01's order; a wide one is refused by 6.
// It asks for itself what fault_with does, since a pass that is called at two places is compiled apart, and its loops keep their registers.
pub fn image_fault(img: &[u8], links: u32) -> Result<(), Refusal>
    ensures { result ≡ raised (image_fault img.now links) }
{
    if pass::all_fit(img, links, Widths::Narrow) {
        return Ok(());
    }
    first_fault(img, links, Widths::Narrow, Ok(()))
}

// Whether an image of either width passes 6 to 9, with 22 of a diverge record at the end of 7.
pub fn is_accepted(img: &[u8], links: u32) -> bool
    ensures { result ≡ is_accepted img.now links }
{
    fault_with(img, links, Widths::Either, Ok(())).is_ok()
}
