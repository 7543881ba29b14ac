// A leaf of update_free_path, called alone: the class of a blocking list, the sentinels, the intersection search, the union of two views,
// near, and the error of a step. Its answer is three numbers.
ghost use Rattle.std.specs.Prelude.{◌≡◌, length};
ghost use Rattle.free_path.specs.Halts.{number_of};

use crate::{case, print};
use disp_structs::{DispNode, EstIdx, EstType, LinkEvent, Metres, Seconds, TrainIdxsView, floats};
use free_path::halt::Halt;
use free_path::link_opt_type::LinkOptType;
use free_path::train_idxs_view::Union;
use free_path::{columns, link_opt_type, train_idxs_view};
use image::codec;
use link_rules::link_idx::{LinkIdx, TrainIdx};
use link_rules::octets;
use std::io;
use validate::step;

const CLASS: u32 = 6;

const SENTINELS: u32 = 7;

const INTERSECT: u32 = 8;

const UNION: u32 = 9;

const NEAR: u32 = 10;

const STEP: u32 = 11;

// A call that is no leaf either cannot be read.
pub(crate) fn answer(rt: &impl Print, head: &[u8], body: &[u8], sums: bool) -> io::Result<()> {
    let op = case::operation(head);
    if op == CLASS {
        return answer_class(rt, head, body);
    }
    if op == SENTINELS {
        return answer_sentinels(rt, head, body);
    }
    if op == INTERSECT {
        return answer_intersection(rt, head, body);
    }
    if op == UNION {
        return answer_union(rt, head, body, sums);
    }
    if op == NEAR {
        return answer_near(rt, head);
    }
    if op == STEP {
        return answer_step(rt, head, body);
    }
    print::unread(rt)
}

// The three numbers of an answer.
fn print_numbers(rt: &impl Print, x: u32, y: usize, z: usize) -> io::Result<()> {
    print::number(rt, "", x as u64)?;
    print::number(rt, " ", y as u64)?;
    print::number(rt, " ", z as u64)
}

fn print_line(rt: &impl Print, x: u32, y: usize, z: usize) -> io::Result<()> {
    print_numbers(rt, x, y, z)?;
    print::end(rt)
}

// The number of a refusal within an update.
fn number_of(h: Halt) -> u32
    ensures { result ≡ number_of h }
{
    match h {
        Halt::NoRoom => 11,
        Halt::Panic => 13,
    }
}

fn print_flag(rt: &impl Print, flag: bool) -> io::Result<()> {
    if flag {
        return print_line(rt, 1, 0, 0);
    }
    print_line(rt, 0, 0, 0)
}

// ---- room for columns

fn no_links() -> [u32; 4096]
    ensures { 4096 ≡ length result }
{
    [0u32; 4096]
}

fn no_trains() -> [u16; 4096]
    ensures { 4096 ≡ length result }
{
    [0u16; 4096]
}

fn no_flags() -> [u8; 4096]
    ensures { 4096 ≡ length result }
{
    [0u8; 4096]
}

fn no_pool() -> [u16; 2048]
    ensures { 2048 ≡ length result }
{
    [0u16; 2048]
}

// A column of u16 numbers of a case.
fn trains_in(bytes: &[u8], first: usize, step: usize) -> [u32; 4096]
    ensures { 4096 ≡ length result }
{
    let mut narrow = no_trains();
    case::u16s(&mut narrow, bytes, first, step);
    let mut wide = no_links();
    columns::widen(&narrow, &mut wide);
    wide
}

// ---- class

fn answer_class(rt: &impl Print, head: &[u8], body: &[u8]) -> io::Result<()> {
    let mut path = no_links();
    let mut flags = no_flags();
    let on = case::first_input(head, body);
    case::u32s(&mut path, on);
    columns::flag_links(&mut flags, &path, on.len() / 4);
    answer_class_on(rt, head, body, &flags)
}

fn answer_class_on(rt: &impl Print, head: &[u8], body: &[u8], on: &[u8]) -> io::Result<()> {
    let mut list = no_links();
    let n = case::second_input(head, body).len() / 4;
    if 4096 < n {
        return print::unread(rt);
    }
    answer_class_in(rt, head, body, on, &mut list[..n])
}

fn answer_class_in(
    rt: &impl Print,
    head: &[u8],
    body: &[u8],
    on: &[u8],
    blocking: &mut [u32],
) -> io::Result<()> {
    case::u32s(blocking, case::second_input(head, body));
    print_class(rt, LinkOptType::new(blocking, on))
}

fn print_class(rt: &impl Print, class: LinkOptType) -> io::Result<()> {
    match class {
        LinkOptType::None => print_line(rt, 0, 0, 0),
        LinkOptType::Single(l) => print_line(rt, 1, l.0 as usize, 0),
        LinkOptType::Range(low, span) => print_line(rt, 2, low as usize, span as usize),
        LinkOptType::Check => print_line(rt, 3, 0, 0),
    }
}

// ---- sentinels

fn answer_sentinels(rt: &impl Print, head: &[u8], body: &[u8]) -> io::Result<()> {
    let divs = case::first_input(head, body);
    let trains = trains_in(divs, 0, 4);
    let nodes = trains_in(divs, 2, 4);
    let i = case::argument(head, 0) as usize;
    let moved = TrainIdx(case::argument(head, 1) % 65536);
    let r = link_opt_type::calc_idx_sentinels(i, moved, &trains, &nodes, divs.len() / 4);
    match r {
        Ok(s) => print_line(rt, 0, s.node, s.divs),
        Err(h) => print_line(rt, number_of(h), 0, 0),
    }
}

// ---- intersection

fn class_in(head: &[u8]) -> LinkOptType {
    let kind = case::argument(head, 2);
    if kind == 0 {
        return LinkOptType::None;
    }
    if kind == 1 {
        return LinkOptType::Single(LinkIdx(case::argument(head, 3)));
    }
    if kind == 2 {
        return LinkOptType::Range(case::argument(head, 3), case::argument(head, 4));
    }
    LinkOptType::Check
}

fn answer_intersection(rt: &impl Print, head: &[u8], body: &[u8]) -> io::Result<()> {
    let mut path = no_links();
    let links = case::first_input(head, body);
    case::u32s(&mut path, links);
    let occ = trains_in(case::second_input(head, body), 0, 2);
    let split = case::argument(head, 0) as usize;
    let sentinel = case::argument(head, 1) as usize;
    let n = links.len() / 4;
    let r = link_opt_type::find_train_intersect(split, sentinel, class_in(head), &path, n, &occ);
    match r {
        Ok(x) => print_line(rt, 0, x.idx, x.met.0 as usize),
        Err(h) => print_line(rt, number_of(h), 0, 0),
    }
}

// ---- union

fn view_in(head: &[u8], i: u32, j: u32) -> TrainIdxsView {
    TrainIdxsView {
        idx_begin: case::argument(head, i),
        idx_end: case::argument(head, j),
    }
}

fn answer_union(rt: &impl Print, head: &[u8], body: &[u8], sums: bool) -> io::Result<()> {
    let mut narrow = no_pool();
    let mut pool = [0u32; 2048];
    answer_union_in(rt, head, body, &mut narrow, &mut pool, sums)
}

// What is printed of the pool is the column of u16 numbers.
fn answer_union_in(
    rt: &impl Print,
    head: &[u8],
    body: &[u8],
    narrow: &mut [u16],
    pool: &mut [u32],
    sums: bool,
) -> io::Result<()> {
    let was = case::first_input(head, body);
    case::u16s(narrow, was, 0, 2);
    columns::widen(narrow, pool);
    let v = view_in(head, 0, 1);
    let w = view_in(head, 2, 3);
    let r = train_idxs_view::concat_train_idx_views(pool, was.len() / 2, v, w);
    narrowed(narrow, pool);
    print_union(rt, narrow, r, sums)
}

// The low 16 bits of each number.
fn narrowed(to: &mut [u16], from: &[u32]) {
    for (to, from) in to.iter_mut().zip(from) {
        *to = (*from % 65536) as u16;
    }
}

// Of a refused union the pool is of no account.
fn print_union(
    rt: &impl Print,
    pool: &[u16],
    r: Result<Union, Halt>,
    sums: bool,
) -> io::Result<()> {
    match r {
        Ok(u) => print_made(rt, pool, u, sums),
        Err(h) => print_line(rt, number_of(h), 0, 0),
    }
}

fn print_made(rt: &impl Print, pool: &[u16], u: Union, sums: bool) -> io::Result<()> {
    print_numbers(rt, 0, u.view.idx_begin as usize, u.view.idx_end as usize)?;
    if sums {
        return print::number_line(rt, " pool ", print::sum_of_u16s(pool, u.len));
    }
    print::end(rt)
}

// ---- near, and the error of a step

// The arguments are the halves of two patterns.
fn answer_near(rt: &impl Print, head: &[u8]) -> io::Result<()> {
    let a = floats::real_of(octets::u64_at(head, 16));
    let b = floats::real_of(octets::u64_at(head, 24));
    print_flag(rt, floats::near(a, b))
}

fn node(est: u32, offset: u64) -> DispNode {
    DispNode {
        offset: Metres(floats::real_of(offset)),
        time_pass: Seconds(0.0),
        link_event: LinkEvent {
            link_idx: LinkIdx(0),
            est_type: EstType::Fake,
        },
        est_idx: EstIdx(est),
        disp_auth_idx_entry: 0,
    }
}

fn answer_step(rt: &impl Print, head: &[u8], body: &[u8]) -> io::Result<()> {
    let offsets = case::first_input(head, body);
    let est = case::second_input(head, body);
    let a = node(case::argument(head, 0), octets::u64_at(offsets, 0));
    let b = node(case::argument(head, 1), octets::u64_at(offsets, 8));
    print_flag(
        rt,
        step::bad_step(a, b, codec::est_in(est, 0), codec::est_in(est, 1)),
    )
}
