// A check that fills an undo record, and an undo. A check's record has as many bytes as argument 4 says, and is lent with zeros.
use crate::{case, check, print};
use link_rules::octets;
use std::io;
use undo;
use yard_check::check::Answer;

// From buffers that are there; the occupancy of the other width is empty.
pub(crate) fn answer(
    rt: &impl Print,
    head: &[u8],
    yard: &mut [u8],
    narrow: &[u16],
    wide: &[u32],
    blocking: &[u32],
    report: &mut [u8],
    sums: bool,
) -> io::Result<()> {
    let mut room = case::no_bytes();
    let n = case::argument(head, 4) as usize;
    if 65536 < n {
        return print::unread(rt);
    }
    answer_into(
        rt,
        head,
        yard,
        narrow,
        wide,
        blocking,
        report,
        &mut room[..n],
        sums,
    )
}

fn answer_into(
    rt: &impl Print,
    head: &[u8],
    yard: &mut [u8],
    narrow: &[u16],
    wide: &[u32],
    blocking: &[u32],
    report: &mut [u8],
    undo_record: &mut [u8],
    sums: bool,
) -> io::Result<()> {
    check::print_answer(
        rt,
        recorded(head, yard, narrow, wide, blocking, report, undo_record),
    )?;
    if !sums {
        return print::end(rt);
    }
    print::number(rt, " yard ", print::sum_of(yard))?;
    print::number(rt, " report ", print::sum_of(report))?;
    print::sum_line(rt, " record ", undo_record)
}

fn recorded(
    head: &[u8],
    yard: &mut [u8],
    narrow: &[u16],
    wide: &[u32],
    blocking: &[u32],
    report: &mut [u8],
    undo_record: &mut [u8],
) -> Answer {
    let a = check::told(head);
    if case::operation(head) == case::WIDE_RECORDED_CHECK {
        return undo::check_recorded_wide(
            yard,
            wide,
            blocking,
            a.moved,
            a.begin,
            a.local,
            a.limit,
            report,
            undo_record,
        );
    }
    undo::check_recorded(
        yard,
        narrow,
        blocking,
        check::narrow_train(a.moved),
        a.begin,
        a.local,
        a.limit,
        report,
        undo_record,
    )
}

pub(crate) fn answer_undo(rt: &impl Print, head: &[u8], body: &[u8], sums: bool) -> io::Result<()> {
    let mut room = case::no_bytes();
    let n = case::first_input(head, body).len();
    if 65536 < n {
        return print::unread(rt);
    }
    answer_undo_on(rt, head, body, &mut room[..n], sums)
}

fn answer_undo_on(
    rt: &impl Print,
    head: &[u8],
    body: &[u8],
    yard: &mut [u8],
    sums: bool,
) -> io::Result<()> {
    octets::put_bytes(yard, 0, case::first_input(head, body));
    print::answer(rt, undo::undo(yard, case::second_input(head, body)))?;
    if sums {
        return print::sum_line(rt, " yard ", yard);
    }
    print::end(rt)
}
