// A candidate's mark or release. Arguments: slot, link, marks (0 releases).
use crate::{case, mark, print};
use candidate;
use link_rules::link_idx::LinkIdx;
use std::io;

pub(crate) fn answer(rt: &impl Print, head: &[u8], body: &[u8], sums: bool) -> io::Result<()> {
    let mut room = case::no_links();
    let n = case::second_input(head, body).len() / 4;
    if 8192 < n {
        return print::unread(rt);
    }
    answer_over(rt, head, body, &mut room[..n], sums)
}

fn answer_over(
    rt: &impl Print,
    head: &[u8],
    body: &[u8],
    occ: &mut [u32],
    sums: bool,
) -> io::Result<()> {
    case::u32s(occ, case::second_input(head, body));
    let slot = (case::argument(head, 0) % 65536) as u16;
    let link = LinkIdx(case::argument(head, 1));
    let marks = 0 < case::argument(head, 2);
    let table = case::first_input(head, body);
    let answer = candidate::act(table, occ, case::third_input(head, body), slot, link, marks);
    mark::print_marked(rt, answer, &[], occ, sums)
}
