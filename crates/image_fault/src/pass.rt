// One pass over an image, which says only whether all fits: 6, 7 and 9 are asked of a record together, of a wide diverge record 22 too, and 8 of
// the est records where they do not all lead to later ones. The functions of a record are small, so that they are inlined and one test of the length
// serves every field of it.
ghost use Rattle.std.specs.Prelude.{◌≡◌, cond, true, false, Some, None, length, replicate, ◌≤◌};
ghost use Rattle.link_rules.specs.Network.{all_below};
ghost use Rattle.disp_structs.specs.Values.{is_arrive};
ghost use Rattle.image.specs.Image.{est_count, path_count_of, diverge_count_of, is_wide, node_at};
ghost use Rattle.image_fault.specs.CodeFacts.{leads_on};
ghost use Rattle.image_fault.specs.ImageFault.{diverge_fits};
ghost use Rattle.image_fault.specs.AllFit.{event_passes, acyclic, est_passes, node_passes, path_passes, head_passes, wide_passes, diverges_pass, records_pass, all_fit};

use crate::Widths;
use disp_structs::EstIdx;
use image::codec;
use link_rules::octets;

// e is the number of est records, asked once by records_pass: a struct of the image and e would say no more than the clause does.

// ---- est records

#[tactic(auto, unfolding(crate::specs::AllFit::event_passes))]
fn event_passes(links: u32, link: u32, kind: u32) -> bool
    ensures { result ≡ event_passes links link kind }
{
    kind <= 2 && link < links && !(kind == 0 && link == 0)
}

#[tactic(auto, unfolding(crate::specs::AllFit::est_passes))]
fn est_passes(img: &[u8], e: u32, links: u32, i: u32) -> bool
    requires { e ≡ est_count img.now }
    ensures { result ≡ est_passes img.now links i }
{
    let at = codec::est_place(i);
    at + 32 <= img.len()
        && crate::float_fits(octets::u64_at(img, at))
        && event_passes(
            links,
            octets::u32_at(img, at + 24),
            octets::u32_at(img, at + 28),
        )
        && octets::u32_at(img, at + 8) < e
        && octets::u32_at(img, at + 12) < e
        && octets::u32_at(img, at + 16) < e
        && octets::u32_at(img, at + 20) < e
}

// None where an est record does not pass; else, does each lead to later ones alone?
fn ests_pass(img: &[u8], e: u32, links: u32) -> Option<bool>
    requires { e ≡ est_count img.now }
    ensures { result ≡ cond (all_below e (est_passes img.now links)) (Some (all_below e (leads_on img.now))) None }
{
    let mut ascend = true;
    for i in 0..e {
        if !est_passes(img, e, links, i) {
            return None;
        }
        ascend = ascend && crate::leads_on(img, i);
    }
    Some(ascend)
}

// ---- path records

#[tactic(auto, unfolding(crate::specs::AllFit::node_passes))]
fn node_passes(img: &[u8], e: u32, links: u32, i: u32) -> bool
    requires { e ≡ est_count img.now }
    ensures { result ≡ node_passes img.now links i }
{
    let at = codec::node_place(e, i);
    at + 32 <= img.len()
        && crate::float_fits(octets::u64_at(img, at))
        && crate::time_fits(octets::u64_at(img, at + 8))
        && event_passes(
            links,
            octets::u32_at(img, at + 16),
            octets::u16_at(img, at + 26) as u32,
        )
        && octets::u32_at(img, at + 20) < e
        && octets::u32_at(img, at + 28) == 0
}

fn est_of(img: &[u8], e: u32, i: u32) -> EstIdx
    requires { e ≡ est_count img.now }
    ensures { result ≡ (node_at img.now i).est_idx }
{
    EstIdx(octets::u32_at(img, codec::node_place(e, i) + 20))
}

fn link_of(img: &[u8], e: u32, i: u32) -> u32
    requires { e ≡ est_count img.now }
    ensures { result ≡ (node_at img.now i).link_event.link_idx.0 }
{
    octets::u32_at(img, codec::node_place(e, i) + 16)
}

fn arrives(img: &[u8], e: u32, links: u32, i: u32) -> bool
    requires { (e ≡ est_count img.now) × (node_passes img.now links i ≡ true) }
    ensures { result ≡ is_arrive (node_at img.now i).link_event.est_type }
{
    octets::u16_at(img, codec::node_place(e, i) + 26) == 0
}

// The links of the Arrive nodes so far are kept as flags, none at first.
fn path_passes_in(img: &[u8], e: u32, n: u32, links: u32, seen: &mut [bool]) -> bool
    requires { (e ≡ est_count img.now) × (n ≡ path_count_of img.now) × (links ≤ length seen.old) × (seen.old ≡ replicate (length seen.old) false) }
    ensures { result ≡ all_below n (path_passes img.now links) }
{
    let mut b = EstIdx(0);
    for i in 0..n {
        if !node_passes(img, e, links, i) {
            return false;
        }
        let x = est_of(img, e, i);
        let l = link_of(img, e, i) as usize;
        let a = arrives(img, e, links, i);
        if !crate::on_route(img, n, i, b, x, !(a & seen[l])) {
            return false;
        }
        seen[l] |= a;
        b = x;
    }
    true
}

// Few links have few flags, which take less time to clear: two lines, as path_fault has them.
fn path_passes(img: &[u8], e: u32, n: u32, links: u32) -> bool
    requires { (e ≡ est_count img.now) × (n ≡ path_count_of img.now) × (links ≤ 4000) }
    ensures { result ≡ all_below n (path_passes img.now links) }
{
    if links <= 512 {
        let mut few = [false; 512];
        return path_passes_in(img, e, n, links, &mut few);
    }
    let mut seen = [false; 4000];
    path_passes_in(img, e, n, links, &mut seen)
}

// ---- all

// wide is the width of the image.
fn diverges_fit(img: &[u8], wide: bool, m: u32) -> bool
    requires { wide ≡ is_wide img.now }
    ensures { result ≡ all_below m (diverge_fits img.now) }
{
    (0..m).all(|i| crate::diverge_fits(img, wide, i))
}

#[tactic(auto, unfolding(crate::specs::AllFit::wide_passes))]
fn wide_passes(img: &[u8], i: u32) -> bool
    ensures { result ≡ wide_passes img.now i }
{
    crate::diverge_spare_fits(img, i) && crate::diverge_train_fits(img, i)
}

fn wides_pass(img: &[u8], m: u32) -> bool
    ensures { result ≡ all_below m (wide_passes img.now) }
{
    (0..m).all(|i| wide_passes(img, i))
}

#[tactic(auto, unfolding(crate::specs::AllFit::diverges_pass))]
fn diverges_pass(img: &[u8], m: u32) -> bool
    requires { m ≡ diverge_count_of img.now }
    ensures { result ≡ diverges_pass img.now }
{
    let wide = codec::is_wide(img);
    diverges_fit(img, wide, m) && (!wide || wides_pass(img, m))
}

#[tactic(auto, unfolding(crate::specs::AllFit::head_passes))]
fn head_passes(img: &[u8], w: Widths) -> bool
    ensures { result ≡ head_passes w img.now }
{
    crate::counts_fit(img)
        && crate::parts_fit(img)
        && crate::train_fits(img, w)
        && crate::header_fits(img)
        && crate::unused_zero(img)
}

// ascend: each est record leads to later ones alone, as in most images; only for the others are arrays filled and searched.
fn is_acyclic(img: &[u8], e: u32, ascend: bool) -> bool
    requires { (e ≡ est_count img.now) × (e ≤ 512) × (ascend ≡ all_below e (leads_on img.now)) }
    ensures { result ≡ acyclic img.now }
{
    ascend || crate::lowest_on_cycle(img, e).is_ok()
}

#[tactic(auto, unfolding(crate::specs::AllFit::records_pass))]
fn records_pass(img: &[u8], links: u32) -> bool
    requires { (links ≤ 4000) × (est_count img.now ≤ 512) }
    ensures { result ≡ records_pass img.now links }
{
    let e = codec::est_count(img);
    match ests_pass(img, e, links) {
        Some(ascend) => {
            is_acyclic(img, e, ascend)
                && path_passes(img, e, codec::path_count(img), links)
                && diverges_pass(img, codec::diverge_count(img))
        }
        None => false,
    }
}

#[tactic(auto, unfolding(crate::specs::AllFit::all_fit))]
pub(crate) fn all_fit(img: &[u8], links: u32, w: Widths) -> bool
    ensures { result ≡ all_fit w img.now links }
{
    crate::links_fit(links) && head_passes(img, w) && records_pass(img, links)
}
