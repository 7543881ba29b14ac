// Calls beside an index (Q-10): checks with and without an undo record, a layout, an undo. An index has as many entries as argument 5 of a check says.
use crate::{case, check, lay_out, print};
use link_index::{checks, layout, undoing};
use link_rules::link_idx::TrainIdx;
use link_rules::octets;
use std::io;
use yard_check::check::{Answer, Args};

// ---- a check, from buffers that are there; the occupancy of the other width is empty, and the index stands behind the report

pub(crate) fn answer(
    rt: &impl Print,
    head: &[u8],
    body: &[u8],
    yard: &mut [u8],
    narrow: &[u16],
    wide: &[u32],
    blocking: &[u32],
    report: &mut [u8],
    sums: bool,
) -> io::Result<()> {
    let mut room = case::no_entries();
    let n = case::argument(head, 5) as usize;
    if 8192 < n {
        return print::unread(rt);
    }
    answer_beside(
        rt,
        head,
        body,
        yard,
        narrow,
        wide,
        blocking,
        report,
        &mut room[..n],
        sums,
    )
}

fn answer_beside(
    rt: &impl Print,
    head: &[u8],
    body: &[u8],
    yard: &mut [u8],
    narrow: &[u16],
    wide: &[u32],
    blocking: &[u32],
    report: &mut [u8],
    index: &mut [u64],
    sums: bool,
) -> io::Result<()> {
    let entries = 8 * (case::argument(head, 5) as usize);
    case::u64s(
        index,
        case::part(case::fourth_input(head, body), report.len(), entries),
    );
    if check::is_recorded(case::operation(head)) {
        return answer_recorded(rt, head, yard, narrow, wide, blocking, report, index, sums);
    }
    check::print_answer(
        rt,
        checked(head, yard, narrow, wide, blocking, report, index),
    )?;
    if !sums {
        return print::end(rt);
    }
    print_left(rt, yard, report, &[], false, index)
}

// The record has as many bytes as argument 4 says, and is lent with zeros.
fn answer_recorded(
    rt: &impl Print,
    head: &[u8],
    yard: &mut [u8],
    narrow: &[u16],
    wide: &[u32],
    blocking: &[u32],
    report: &mut [u8],
    index: &mut [u64],
    sums: bool,
) -> io::Result<()> {
    let mut room = case::no_bytes();
    let n = case::argument(head, 4) as usize;
    if 65536 < n {
        return print::unread(rt);
    }
    answer_into(
        rt,
        head,
        yard,
        narrow,
        wide,
        blocking,
        report,
        &mut room[..n],
        index,
        sums,
    )
}

fn answer_into(
    rt: &impl Print,
    head: &[u8],
    yard: &mut [u8],
    narrow: &[u16],
    wide: &[u32],
    blocking: &[u32],
    report: &mut [u8],
    undo_record: &mut [u8],
    index: &mut [u64],
    sums: bool,
) -> io::Result<()> {
    let answer = recorded(
        head,
        yard,
        narrow,
        wide,
        blocking,
        report,
        undo_record,
        index,
    );
    check::print_answer(rt, answer)?;
    if !sums {
        return print::end(rt);
    }
    print_left(rt, yard, report, undo_record, true, index)
}

// What is left of each buffer; the record only of a check that fills one.
fn print_left(
    rt: &impl Print,
    yard: &[u8],
    report: &[u8],
    undo_record: &[u8],
    is_recorded: bool,
    index: &[u64],
) -> io::Result<()> {
    print::number(rt, " yard ", print::sum_of(yard))?;
    print::number(rt, " report ", print::sum_of(report))?;
    if is_recorded {
        print::number(rt, " record ", print::sum_of(undo_record))?;
    }
    print::number_line(rt, " index ", print::sum_of_u64s(index))
}

fn checked(
    head: &[u8],
    yard: &mut [u8],
    narrow: &[u16],
    wide: &[u32],
    blocking: &[u32],
    report: &mut [u8],
    index: &mut [u64],
) -> Answer {
    let a = check::told(head);
    if check::is_wide(case::operation(head)) {
        return checks::check_wide_indexed(yard, wide, blocking, a, report, index);
    }
    let a = Args {
        moved: TrainIdx(a.moved.0 % 65536),
        begin: a.begin,
        local: a.local,
        limit: a.limit,
    };
    checks::check_indexed(yard, narrow, blocking, a, report, index)
}

fn recorded(
    head: &[u8],
    yard: &mut [u8],
    narrow: &[u16],
    wide: &[u32],
    blocking: &[u32],
    report: &mut [u8],
    undo_record: &mut [u8],
    index: &mut [u64],
) -> Answer {
    let a = check::told(head);
    if check::is_wide(case::operation(head)) {
        return checks::check_recorded_wide_indexed(
            yard,
            wide,
            blocking,
            a.moved,
            a.begin,
            a.local,
            a.limit,
            report,
            undo_record,
            index,
        );
    }
    checks::check_recorded_indexed(
        yard,
        narrow,
        blocking,
        check::narrow_train(a.moved),
        a.begin,
        a.local,
        a.limit,
        report,
        undo_record,
        index,
    )
}

// ---- a layout, its arguments as without an index, and an undo; the index is the third input

pub(crate) fn answer_lay_out(
    rt: &impl Print,
    head: &[u8],
    body: &[u8],
    sums: bool,
) -> io::Result<()> {
    let mut room = case::no_bytes();
    let n = case::second_input(head, body).len();
    if 65536 < n {
        return print::unread(rt);
    }
    lay_out_in(rt, head, body, &mut room[..n], sums)
}

fn lay_out_in(
    rt: &impl Print,
    head: &[u8],
    body: &[u8],
    image: &mut [u8],
    sums: bool,
) -> io::Result<()> {
    octets::put_bytes(image, 0, case::second_input(head, body));
    let mut room = case::no_entries();
    let n = case::third_input(head, body).len() / 8;
    if 8192 < n {
        return print::unread(rt);
    }
    lay_out_beside(rt, head, body, image, &mut room[..n], sums)
}

fn lay_out_beside(
    rt: &impl Print,
    head: &[u8],
    body: &[u8],
    image: &mut [u8],
    index: &mut [u64],
    sums: bool,
) -> io::Result<()> {
    case::u64s(index, case::third_input(head, body));
    let settings = lay_out::settings_of(head);
    let est = case::first_input(head, body);
    print::answer(rt, layout::lay_out_indexed(est, settings, image, index))?;
    print_two(rt, " image ", image, index, sums)
}

pub(crate) fn answer_undo(rt: &impl Print, head: &[u8], body: &[u8], sums: bool) -> io::Result<()> {
    let mut room = case::no_bytes();
    let n = case::first_input(head, body).len();
    if 65536 < n {
        return print::unread(rt);
    }
    undo_on(rt, head, body, &mut room[..n], sums)
}

fn undo_on(
    rt: &impl Print,
    head: &[u8],
    body: &[u8],
    yard: &mut [u8],
    sums: bool,
) -> io::Result<()> {
    octets::put_bytes(yard, 0, case::first_input(head, body));
    let mut room = case::no_entries();
    let n = case::third_input(head, body).len() / 8;
    if 8192 < n {
        return print::unread(rt);
    }
    undo_beside(rt, head, body, yard, &mut room[..n], sums)
}

fn undo_beside(
    rt: &impl Print,
    head: &[u8],
    body: &[u8],
    yard: &mut [u8],
    index: &mut [u64],
    sums: bool,
) -> io::Result<()> {
    case::u64s(index, case::third_input(head, body));
    print::answer(
        rt,
        undoing::undo_indexed(yard, case::second_input(head, body), index),
    )?;
    print_two(rt, " yard ", yard, index, sums)
}

fn print_two(
    rt: &impl Print,
    words: &str,
    bytes: &[u8],
    index: &[u64],
    sums: bool,
) -> io::Result<()> {
    if !sums {
        return print::end(rt);
    }
    print::number(rt, words, print::sum_of(bytes))?;
    print::number_line(rt, " index ", print::sum_of_u64s(index))
}
