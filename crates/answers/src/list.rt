// A list of calls: marks, releases and checks, each made on what the call before it left. Argument: their number.
use crate::{case, check, mark, print};
use link_rules::octets;
use std::io;

pub(crate) fn answer(rt: &impl Print, head: &[u8], body: &[u8], sums: bool) -> io::Result<()> {
    let mut room = case::no_trains();
    let n = case::second_input(head, body).len() / 2;
    if 8192 < n {
        return print::unread(rt);
    }
    answer_on(rt, head, body, &mut room[..n], sums)
}

fn answer_on(
    rt: &impl Print,
    head: &[u8],
    body: &[u8],
    occ: &mut [u16],
    sums: bool,
) -> io::Result<()> {
    case::u16s(occ, case::second_input(head, body), 0, 2);
    let mut room = case::no_bytes();
    let n = case::third_input(head, body).len();
    if 65536 < n {
        return print::unread(rt);
    }
    answer_over(rt, head, body, occ, &mut room[..n], sums)
}

fn answer_over(
    rt: &impl Print,
    head: &[u8],
    body: &[u8],
    occ: &mut [u16],
    yard: &mut [u8],
    sums: bool,
) -> io::Result<()> {
    octets::put_bytes(yard, 0, case::third_input(head, body));
    print::line(rt, "list")?;
    answer_calls(
        rt,
        case::first_input(head, body),
        occ,
        yard,
        case::calls(head, body),
        case::argument(head, 0),
        sums,
    )
}

fn answer_calls(
    rt: &impl Print,
    table: &[u8],
    occ: &mut [u16],
    yard: &mut [u8],
    calls: &[u8],
    count: u32,
    sums: bool,
) -> io::Result<()> {
    let mut at: usize = 0;
    for _ in 0..count {
        answer_call(rt, table, occ, yard, calls, at, sums)?;
        at = at.wrapping_add(octets::u32_at(calls, at) as usize);
    }
    Ok(())
}

// The call that is recorded from a place on.
fn answer_call(
    rt: &impl Print,
    table: &[u8],
    occ: &mut [u16],
    yard: &mut [u8],
    calls: &[u8],
    at: usize,
    sums: bool,
) -> io::Result<()> {
    let head = case::part(calls, at, 104);
    let body = case::part(calls, at.wrapping_add(104), case::body_size(head));
    if case::operation(head) == case::MARK {
        return mark::answer_from(rt, head, table, occ, sums);
    }
    if case::operation(head) == case::CHECK {
        return check::answer_from(rt, head, body, yard, occ, &[], sums);
    }
    print::unread(rt)
}
