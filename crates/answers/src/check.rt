// A check of a yard over an occupancy of u16 or of u32 entries; the other one is empty. Arguments: moved, begin, local, limit.
use crate::{case, indexed, print, recorded};
use link_rules::link_idx::{NarrowTrainIdx, TrainIdx};
use link_rules::octets;
use std::io;
use yard_check::check;
use yard_check::check::{Answer, Args};

pub(crate) fn answer(rt: &impl Print, head: &[u8], body: &[u8], sums: bool) -> io::Result<()> {
    let mut room = case::no_bytes();
    let n = case::first_input(head, body).len();
    if 65536 < n {
        return print::unread(rt);
    }
    answer_on(rt, head, body, &mut room[..n], sums)
}

fn answer_on(
    rt: &impl Print,
    head: &[u8],
    body: &[u8],
    yard: &mut [u8],
    sums: bool,
) -> io::Result<()> {
    octets::put_bytes(yard, 0, case::first_input(head, body));
    if is_wide(case::operation(head)) {
        return answer_wide(rt, head, body, yard, sums);
    }
    answer_narrow(rt, head, body, yard, sums)
}

// Is it a check over u32 entries?
pub(crate) fn is_wide(operation: u32) -> bool {
    if operation == case::WIDE_CHECK {
        return true;
    }
    if operation == case::WIDE_INDEXED_CHECK {
        return true;
    }
    if operation == case::WIDE_RECORDED_INDEXED_CHECK {
        return true;
    }
    operation == case::WIDE_RECORDED_CHECK
}

// Does it fill an undo record?
pub(crate) fn is_recorded(operation: u32) -> bool {
    if operation == case::RECORDED_CHECK {
        return true;
    }
    if operation == case::RECORDED_INDEXED_CHECK {
        return true;
    }
    if operation == case::WIDE_RECORDED_INDEXED_CHECK {
        return true;
    }
    operation == case::WIDE_RECORDED_CHECK
}

// Does it stand beside an index?
pub(crate) fn is_indexed(operation: u32) -> bool {
    if operation < case::INDEXED_CHECK {
        return false;
    }
    operation <= case::WIDE_RECORDED_INDEXED_CHECK
}

// The bytes of the report: the fourth input, without the index that may stand behind it.
fn report_of<'a>(head: &[u8], body: &'a [u8]) -> &'a [u8] {
    let all = case::fourth_input(head, body);
    if !is_indexed(case::operation(head)) {
        return all;
    }
    let entries = 8 * (case::argument(head, 5) as usize);
    if all.len() < entries {
        return case::part(all, 0, 0);
    }
    case::part(all, 0, all.len() - entries)
}

fn answer_narrow(
    rt: &impl Print,
    head: &[u8],
    body: &[u8],
    yard: &mut [u8],
    sums: bool,
) -> io::Result<()> {
    let mut room = case::no_trains();
    let n = case::second_input(head, body).len() / 2;
    if 8192 < n {
        return print::unread(rt);
    }
    answer_over(rt, head, body, yard, &mut room[..n], sums)
}

fn answer_over(
    rt: &impl Print,
    head: &[u8],
    body: &[u8],
    yard: &mut [u8],
    occ: &mut [u16],
    sums: bool,
) -> io::Result<()> {
    case::u16s(occ, case::second_input(head, body), 0, 2);
    answer_from(rt, head, body, yard, occ, &[], sums)
}

fn answer_wide(
    rt: &impl Print,
    head: &[u8],
    body: &[u8],
    yard: &mut [u8],
    sums: bool,
) -> io::Result<()> {
    let mut room = case::no_links();
    let n = case::second_input(head, body).len() / 4;
    if 8192 < n {
        return print::unread(rt);
    }
    answer_wide_over(rt, head, body, yard, &mut room[..n], sums)
}

fn answer_wide_over(
    rt: &impl Print,
    head: &[u8],
    body: &[u8],
    yard: &mut [u8],
    occ: &mut [u32],
    sums: bool,
) -> io::Result<()> {
    case::u32s(occ, case::second_input(head, body));
    answer_from(rt, head, body, yard, &[], occ, sums)
}

// From a yard and an occupancy that are there.
pub(crate) fn answer_from(
    rt: &impl Print,
    head: &[u8],
    body: &[u8],
    yard: &mut [u8],
    narrow: &[u16],
    wide: &[u32],
    sums: bool,
) -> io::Result<()> {
    let mut room = case::no_links();
    let n = case::third_input(head, body).len() / 4;
    if 8192 < n {
        return print::unread(rt);
    }
    answer_by(rt, head, body, yard, narrow, wide, &mut room[..n], sums)
}

fn answer_by(
    rt: &impl Print,
    head: &[u8],
    body: &[u8],
    yard: &mut [u8],
    narrow: &[u16],
    wide: &[u32],
    blocking: &mut [u32],
    sums: bool,
) -> io::Result<()> {
    case::u32s(blocking, case::third_input(head, body));
    let mut room = case::no_bytes();
    let n = report_of(head, body).len();
    if 65536 < n {
        return print::unread(rt);
    }
    answer_with(
        rt,
        head,
        body,
        yard,
        narrow,
        wide,
        blocking,
        &mut room[..n],
        sums,
    )
}

fn answer_with(
    rt: &impl Print,
    head: &[u8],
    body: &[u8],
    yard: &mut [u8],
    narrow: &[u16],
    wide: &[u32],
    blocking: &[u32],
    report: &mut [u8],
    sums: bool,
) -> io::Result<()> {
    octets::put_bytes(report, 0, report_of(head, body));
    if is_indexed(case::operation(head)) {
        return indexed::answer(rt, head, body, yard, narrow, wide, blocking, report, sums);
    }
    if is_recorded(case::operation(head)) {
        return recorded::answer(rt, head, yard, narrow, wide, blocking, report, sums);
    }
    print_answer(rt, checked(head, yard, narrow, wide, blocking, report))?;
    if !sums {
        return print::end(rt);
    }
    print::number(rt, " yard ", print::sum_of(yard))?;
    print::sum_line(rt, " report ", report)
}

fn checked(
    head: &[u8],
    yard: &mut [u8],
    narrow: &[u16],
    wide: &[u32],
    blocking: &[u32],
    report: &mut [u8],
) -> Answer {
    let a = told(head);
    if case::operation(head) == case::WIDE_CHECK {
        return check::check_wide(
            yard, wide, blocking, a.moved, a.begin, a.local, a.limit, report,
        );
    }
    let moved = narrow_train(a.moved);
    check::check_deadlock(
        yard, narrow, blocking, moved, a.begin, a.local, a.limit, report,
    )
}

pub(crate) fn print_answer(rt: &impl Print, answer: Answer) -> io::Result<()> {
    match answer {
        Answer::Refused(r) => print::refused(rt, r),
        Answer::Erred(n) => print::number(rt, "erred ", n as u64),
        Answer::Done { deadlock, next } => print_done(rt, deadlock, next),
    }
}

// What a check is told: arguments 0 to 3.
pub(crate) fn told(head: &[u8]) -> Args {
    Args {
        moved: TrainIdx(case::argument(head, 0)),
        begin: begin_of(case::argument(head, 1)),
        local: 0 < case::argument(head, 2),
        limit: (case::argument(head, 3) % 65536) as u16,
    }
}

pub(crate) fn narrow_train(train: TrainIdx) -> NarrowTrainIdx {
    NarrowTrainIdx((train.0 % 65536) as u16)
}

// A begin that is no u16 becomes the largest, which 15 refuses as well.
fn begin_of(n: u32) -> u16 {
    if 65535 < n {
        return 65535;
    }
    n as u16
}

fn print_done(rt: &impl Print, deadlock: bool, next: u16) -> io::Result<()> {
    if deadlock {
        return print::number(rt, "deadlock yes next ", next as u64);
    }
    print::number(rt, "deadlock no next ", next as u64)
}
