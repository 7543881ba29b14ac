// A lesson game of closer and dispatcher. Arguments: moved, local, limit, turns.
use crate::{case, print};
use game;
use link_rules::link_idx::TrainIdx;
use link_rules::refusal::Refusal;
use std::io;

pub(crate) fn answer(rt: &impl Print, head: &[u8], body: &[u8]) -> io::Result<()> {
    let mut room = case::no_links();
    let n = case::second_input(head, body).len() / 4;
    if 8192 < n {
        return print::unread(rt);
    }
    answer_over(rt, head, body, &mut room[..n])
}

fn answer_over(rt: &impl Print, head: &[u8], body: &[u8], occ: &mut [u32]) -> io::Result<()> {
    case::u32s(occ, case::second_input(head, body));
    let mut room = case::no_links();
    let n = case::third_input(head, body).len() / 4;
    if 8192 < n {
        return print::unread(rt);
    }
    answer_with(rt, head, body, occ, &mut room[..n])
}

fn answer_with(
    rt: &impl Print,
    head: &[u8],
    body: &[u8],
    occ: &[u32],
    links: &mut [u32],
) -> io::Result<()> {
    case::u32s(links, case::third_input(head, body));
    let moved = TrainIdx(case::argument(head, 0));
    let local = 0 < case::argument(head, 1);
    let limit = (case::argument(head, 2) % 65536) as u16;
    let turns = case::argument(head, 3);
    let image = case::first_input(head, body);
    print_verdict(
        rt,
        game::closer_can_force(image, occ, moved, local, limit, links, turns),
    )
}

fn print_verdict(rt: &impl Print, v: Result<bool, Refusal>) -> io::Result<()> {
    match v {
        Ok(true) => print::line(rt, "closer can force it yes"),
        Ok(false) => print::line(rt, "closer can force it no"),
        Err(f) => print_refused(rt, f),
    }
}

fn print_refused(rt: &impl Print, f: Refusal) -> io::Result<()> {
    print::refused(rt, f)?;
    print::end(rt)
}
