// The index of a yard: which trains run over each link.
use crate::{case, print};
use link_index;
use link_rules::refusal::Refusal;
use std::io;

pub(crate) fn answer(rt: &impl Print, head: &[u8], body: &[u8], sums: bool) -> io::Result<()> {
    let mut room = case::no_entries();
    let n = case::second_input(head, body).len() / 8;
    if 8192 < n {
        return print::unread(rt);
    }
    answer_in(rt, head, body, &mut room[..n], sums)
}

fn answer_in(
    rt: &impl Print,
    head: &[u8],
    body: &[u8],
    index: &mut [u64],
    sums: bool,
) -> io::Result<()> {
    case::u64s(index, case::second_input(head, body));
    let f = link_index::build_index(case::first_input(head, body), index);
    if sums {
        return print_sum(rt, f, index);
    }
    if let Err(r) = f {
        print::refused(rt, r)?;
        return print::end(rt);
    }
    print_index(rt, index)
}

fn print_sum(rt: &impl Print, f: Result<(), Refusal>, index: &[u64]) -> io::Result<()> {
    print::answer(rt, f)?;
    print::number_line(rt, " index ", print::sum_of_u64s(index))
}

fn print_index(rt: &impl Print, index: &[u64]) -> io::Result<()> {
    if is_empty(index) {
        return print::line(rt, "no train runs over a link");
    }
    print_links(rt, index)
}

fn is_empty(index: &[u64]) -> bool {
    index.iter().all(|entry| *entry == 0)
}

fn print_links(rt: &impl Print, index: &[u64]) -> io::Result<()> {
    for (i, entry) in index.iter().enumerate() {
        print_link(rt, i, *entry)?;
    }
    Ok(())
}

// A link over which no train runs has no line.
fn print_link(rt: &impl Print, link: usize, entry: u64) -> io::Result<()> {
    if entry == 0 {
        return Ok(());
    }
    print::number(rt, "link ", link as u64)?;
    rt.print(" trains")?;
    print_trains(rt, entry)?;
    print::end(rt)
}

fn print_trains(rt: &impl Print, entry: u64) -> io::Result<()> {
    for t in 0..64u32 {
        print_train(rt, t, (entry >> t) % 2 == 1)?;
    }
    Ok(())
}

fn print_train(rt: &impl Print, train: u32, runs: bool) -> io::Result<()> {
    if runs {
        return print::number(rt, " ", train as u64);
    }
    Ok(())
}
