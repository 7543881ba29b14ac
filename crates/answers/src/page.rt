// The page of an image.
use crate::{case, print};
use image::codec;
use link_rules::octets;
use link_rules::refusal::Refusal;
use path_page;
use std::io;

pub(crate) fn answer(rt: &impl Print, head: &[u8], body: &[u8], sums: bool) -> io::Result<()> {
    let mut room = case::no_bytes();
    let n = case::second_input(head, body).len();
    if 65536 < n {
        return print::unread(rt);
    }
    answer_in(rt, head, body, &mut room[..n], sums)
}

fn answer_in(
    rt: &impl Print,
    head: &[u8],
    body: &[u8],
    page: &mut [u8],
    sums: bool,
) -> io::Result<()> {
    octets::put_bytes(page, 0, case::second_input(head, body));
    let image = case::first_input(head, body);
    let f = path_page::page(image, page);
    if sums {
        return print_sum(rt, f, page);
    }
    if let Err(r) = f {
        print::refused(rt, r)?;
        return print::end(rt);
    }
    print_lines(rt, image, page)
}

fn print_sum(rt: &impl Print, f: Result<(), Refusal>, page: &[u8]) -> io::Result<()> {
    print::answer(rt, f)?;
    print::sum_line(rt, " page ", page)
}

// A line for each node of the path; what stands behind them in the buffer is not printed.
fn print_lines(rt: &impl Print, image: &[u8], page: &[u8]) -> io::Result<()> {
    let long = 40 * (codec::path_count(image) as usize);
    print::bytes(rt, case::part(page, 0, long))
}
