// A mark or release over an occupancy of u16 or of u32 entries; the other one is empty. Arguments: link, train.
use crate::{case, print};
use link_rules::advance_rewind;
use link_rules::link_idx::{LinkIdx, NarrowTrainIdx, TrainIdx};
use link_rules::refusal::Refusal;
use std::io;
use wide_occupancy;

pub(crate) fn answer(rt: &impl Print, head: &[u8], body: &[u8], sums: bool) -> io::Result<()> {
    let mut room = case::no_trains();
    let n = case::second_input(head, body).len() / 2;
    if 8192 < n {
        return print::unread(rt);
    }
    answer_in(rt, head, body, &mut room[..n], sums)
}

fn answer_in(
    rt: &impl Print,
    head: &[u8],
    body: &[u8],
    occupancy: &mut [u16],
    sums: bool,
) -> io::Result<()> {
    case::u16s(occupancy, case::second_input(head, body), 0, 2);
    answer_from(rt, head, case::first_input(head, body), occupancy, sums)
}

// From an occupancy that is there.
pub(crate) fn answer_from(
    rt: &impl Print,
    head: &[u8],
    table: &[u8],
    occupancy: &mut [u16],
    sums: bool,
) -> io::Result<()> {
    let link = LinkIdx(case::argument(head, 0));
    let train = NarrowTrainIdx((case::argument(head, 1) % 65536) as u16);
    let answer = advance_rewind::mark(table, occupancy, link, train);
    print_marked(rt, answer, occupancy, &[], sums)
}

pub(crate) fn answer_wide(rt: &impl Print, head: &[u8], body: &[u8], sums: bool) -> io::Result<()> {
    let mut room = case::no_links();
    let n = case::second_input(head, body).len() / 4;
    if 8192 < n {
        return print::unread(rt);
    }
    answer_wide_in(rt, head, body, &mut room[..n], sums)
}

fn answer_wide_in(
    rt: &impl Print,
    head: &[u8],
    body: &[u8],
    occupancy: &mut [u32],
    sums: bool,
) -> io::Result<()> {
    case::u32s(occupancy, case::second_input(head, body));
    let table = case::first_input(head, body);
    let link = LinkIdx(case::argument(head, 0));
    let train = TrainIdx(case::argument(head, 1));
    let answer = wide_occupancy::advance_rewind::mark_wide(table, occupancy, link, train);
    print_marked(rt, answer, &[], occupancy, sums)
}

// The occupancy after a call that is done is printed.
pub(crate) fn print_marked(
    rt: &impl Print,
    answer: Result<(), Refusal>,
    narrow: &[u16],
    wide: &[u32],
    sums: bool,
) -> io::Result<()> {
    match answer {
        Ok(()) => print_done(rt, narrow, wide, sums),
        Err(r) => print_refused(rt, r, narrow, wide, sums),
    }
}

fn print_done(rt: &impl Print, narrow: &[u16], wide: &[u32], sums: bool) -> io::Result<()> {
    rt.print("done")?;
    if sums {
        return print_sum(rt, narrow, wide);
    }
    print::end(rt)?;
    print_held(rt, narrow)?;
    print_wide_held(rt, wide)
}

fn print_refused(
    rt: &impl Print,
    f: Refusal,
    narrow: &[u16],
    wide: &[u32],
    sums: bool,
) -> io::Result<()> {
    print::refused(rt, f)?;
    if sums {
        return print_sum(rt, narrow, wide);
    }
    print::end(rt)
}

fn print_sum(rt: &impl Print, narrow: &[u16], wide: &[u32]) -> io::Result<()> {
    let n = narrow.len();
    if n == 0 {
        return print::number_line(rt, " occupancy ", print::sum_of_u32s(wide));
    }
    print::number_line(rt, " occupancy ", print::sum_of_u16s(narrow, n))
}

// The links that trains hold.
fn print_held(rt: &impl Print, occupancy: &[u16]) -> io::Result<()> {
    for (i, train) in occupancy.iter().enumerate() {
        narrow_held(rt, i, *train)?;
    }
    Ok(())
}

fn narrow_held(rt: &impl Print, link: usize, train: u16) -> io::Result<()> {
    held(rt, link, train as u32)
}

fn print_wide_held(rt: &impl Print, occupancy: &[u32]) -> io::Result<()> {
    for (i, train) in occupancy.iter().enumerate() {
        held(rt, i, *train)?;
    }
    Ok(())
}

// A link that no train holds has no line.
fn held(rt: &impl Print, link: usize, train: u32) -> io::Result<()> {
    if train == 0 {
        return Ok(());
    }
    print::number(rt, "", link as u64)?;
    print::number_line(rt, " by ", train as u64)
}
