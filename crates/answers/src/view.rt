// A candidate's view of a node. Arguments: slot, node.
use crate::{case, print};
use candidate;
use link_rules::octets;
use link_rules::refusal::Refusal;
use std::io;

pub(crate) fn answer(rt: &impl Print, head: &[u8], body: &[u8], sums: bool) -> io::Result<()> {
    let mut room = case::no_links();
    let n = case::second_input(head, body).len() / 4;
    if 8192 < n {
        return print::unread(rt);
    }
    answer_over(rt, head, body, &mut room[..n], sums)
}

fn answer_over(
    rt: &impl Print,
    head: &[u8],
    body: &[u8],
    occ: &mut [u32],
    sums: bool,
) -> io::Result<()> {
    case::u32s(occ, case::second_input(head, body));
    let mut room = case::no_bytes();
    let n = case::fourth_input(head, body).len();
    if 65536 < n {
        return print::unread(rt);
    }
    answer_in(rt, head, body, occ, &mut room[..n], sums)
}

fn answer_in(
    rt: &impl Print,
    head: &[u8],
    body: &[u8],
    occ: &[u32],
    record: &mut [u8],
    sums: bool,
) -> io::Result<()> {
    octets::put_bytes(record, 0, case::fourth_input(head, body));
    let slot = (case::argument(head, 0) % 65536) as u16;
    let v = candidate::view(
        case::first_input(head, body),
        occ,
        case::third_input(head, body),
        slot,
        case::argument(head, 1),
        record,
    );
    if sums {
        return print_sum(rt, v, record);
    }
    print_view(rt, v, record)
}

fn print_sum(rt: &impl Print, v: Result<bool, Refusal>, record: &[u8]) -> io::Result<()> {
    print_answer(rt, v)?;
    print::sum_line(rt, " record ", record)
}

fn print_answer(rt: &impl Print, v: Result<bool, Refusal>) -> io::Result<()> {
    match v {
        Ok(taken) => print_taken(rt, taken),
        Err(f) => print::refused(rt, f),
    }
}

fn print_taken(rt: &impl Print, taken: bool) -> io::Result<()> {
    if taken {
        return rt.print("taken yes");
    }
    rt.print("taken no")
}

// Of the record its type, its link and its est record.
fn print_view(rt: &impl Print, v: Result<bool, Refusal>, record: &[u8]) -> io::Result<()> {
    if v.is_ok() {
        print_node(rt, record)?;
    }
    print_answer(rt, v)?;
    print::end(rt)
}

fn print_node(rt: &impl Print, record: &[u8]) -> io::Result<()> {
    print_type(rt, octets::u16_at(record, 26))?;
    print::number(rt, " ", octets::u32_at(record, 16) as u64)?;
    print::number(rt, " est ", octets::u32_at(record, 20) as u64)?;
    rt.print(" ")
}

fn print_type(rt: &impl Print, t: u16) -> io::Result<()> {
    if t == 0 {
        return rt.print("node arrive");
    }
    if t == 1 {
        return rt.print("node clear");
    }
    rt.print("node fake")
}
