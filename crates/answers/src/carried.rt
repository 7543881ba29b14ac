// A step that carries a sitting from narrow images to wide ones, and a check between its steps (Q-7).
use crate::{case, check, print};
use carry;
use carry::half;
use link_rules::octets;
use std::io;
use yard_check::check::Answer;

// ---- a step. Argument: how many slots are carried

pub(crate) fn answer_step(rt: &impl Print, head: &[u8], body: &[u8], sums: bool) -> io::Result<()> {
    let mut room = case::no_trains();
    let n = case::second_input(head, body).len() / 2;
    if 8192 < n {
        return print::unread(rt);
    }
    step_over(rt, head, body, &mut room[..n], sums)
}

fn step_over(
    rt: &impl Print,
    head: &[u8],
    body: &[u8],
    occ: &mut [u16],
    sums: bool,
) -> io::Result<()> {
    case::u16s(occ, case::second_input(head, body), 0, 2);
    let mut room = case::no_bytes();
    let n = case::third_input(head, body).len();
    if 65536 < n {
        return print::unread(rt);
    }
    step_into(rt, head, body, occ, &mut room[..n], sums)
}

fn step_into(
    rt: &impl Print,
    head: &[u8],
    body: &[u8],
    occ: &[u16],
    second: &mut [u8],
    sums: bool,
) -> io::Result<()> {
    octets::put_bytes(second, 0, case::third_input(head, body));
    let mut room = case::no_links();
    let n = case::fourth_input(head, body).len() / 4;
    if 8192 < n {
        return print::unread(rt);
    }
    step_with(rt, head, body, occ, second, &mut room[..n], sums)
}

fn step_with(
    rt: &impl Print,
    head: &[u8],
    body: &[u8],
    occ: &[u16],
    second: &mut [u8],
    wide: &mut [u32],
    sums: bool,
) -> io::Result<()> {
    case::u32s(wide, case::fourth_input(head, body));
    let yard = case::first_input(head, body);
    print::answer(
        rt,
        carry::carry(yard, occ, case::argument(head, 0), second, wide),
    )?;
    if !sums {
        return print::end(rt);
    }
    print::number(rt, " second ", print::sum_of(second))?;
    print::number_line(rt, " occupancy ", print::sum_of_u32s(wide))
}

// ---- a half check. Arguments: moved, begin, local, limit, count, bytes of the first yard, behind which the second stands

pub(crate) fn answer_half(rt: &impl Print, head: &[u8], body: &[u8], sums: bool) -> io::Result<()> {
    let mut room = case::no_bytes();
    let n = case::argument(head, 5) as usize;
    if 65536 < n {
        return print::unread(rt);
    }
    half_on(rt, head, body, &mut room[..n], sums)
}

fn half_on(
    rt: &impl Print,
    head: &[u8],
    body: &[u8],
    yard: &mut [u8],
    sums: bool,
) -> io::Result<()> {
    let both = case::first_input(head, body);
    let first = yard.len();
    if both.len() < first {
        return print::unread(rt);
    }
    octets::put_bytes(yard, 0, case::part(both, 0, first));
    let mut room = case::no_bytes();
    let n = both.len() - first;
    if 65536 < n {
        return print::unread(rt);
    }
    half_beside(rt, head, body, yard, &mut room[..n], sums)
}

fn half_beside(
    rt: &impl Print,
    head: &[u8],
    body: &[u8],
    yard: &mut [u8],
    second: &mut [u8],
    sums: bool,
) -> io::Result<()> {
    let both = case::first_input(head, body);
    let n = second.len();
    octets::put_bytes(second, 0, case::part(both, yard.len(), n));
    let mut room = case::no_links();
    let n = case::second_input(head, body).len() / 4;
    if 8192 < n {
        return print::unread(rt);
    }
    half_over(rt, head, body, yard, second, &mut room[..n], sums)
}

fn half_over(
    rt: &impl Print,
    head: &[u8],
    body: &[u8],
    yard: &mut [u8],
    second: &mut [u8],
    occ: &mut [u32],
    sums: bool,
) -> io::Result<()> {
    case::u32s(occ, case::second_input(head, body));
    let mut room = case::no_links();
    let n = case::third_input(head, body).len() / 4;
    if 8192 < n {
        return print::unread(rt);
    }
    half_by(rt, head, body, yard, second, occ, &mut room[..n], sums)
}

fn half_by(
    rt: &impl Print,
    head: &[u8],
    body: &[u8],
    yard: &mut [u8],
    second: &mut [u8],
    occ: &[u32],
    blocking: &mut [u32],
    sums: bool,
) -> io::Result<()> {
    case::u32s(blocking, case::third_input(head, body));
    let mut room = case::no_bytes();
    let n = case::fourth_input(head, body).len();
    if 65536 < n {
        return print::unread(rt);
    }
    half_with(
        rt,
        head,
        body,
        yard,
        second,
        occ,
        blocking,
        &mut room[..n],
        sums,
    )
}

fn half_with(
    rt: &impl Print,
    head: &[u8],
    body: &[u8],
    yard: &mut [u8],
    second: &mut [u8],
    occ: &[u32],
    blocking: &[u32],
    report: &mut [u8],
    sums: bool,
) -> io::Result<()> {
    octets::put_bytes(report, 0, case::fourth_input(head, body));
    check::print_answer(rt, half_checked(head, yard, second, occ, blocking, report))?;
    if !sums {
        return print::end(rt);
    }
    print::number(rt, " yard ", print::sum_of(yard))?;
    print::number(rt, " second ", print::sum_of(second))?;
    print::sum_line(rt, " report ", report)
}

fn half_checked(
    head: &[u8],
    yard: &mut [u8],
    second: &mut [u8],
    occ: &[u32],
    blocking: &[u32],
    report: &mut [u8],
) -> Answer {
    let a = check::told(head);
    let count = case::argument(head, 4);
    half::check_half(
        yard, second, count, occ, blocking, a.moved, a.begin, a.local, a.limit, report,
    )
}
