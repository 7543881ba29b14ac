// An update over an occupancy of u16 or of u32 entries; the other one is empty. Arguments: moved, local, limit.
use crate::{case, print};
use image_fault;
use link_rules::link_idx::{NarrowTrainIdx, TrainIdx};
use link_rules::octets;
use std::io;
use update_free_path;
use update_free_path::answer::{Status, Updated};

pub(crate) fn answer(rt: &impl Print, head: &[u8], body: &[u8], sums: bool) -> io::Result<()> {
    let mut room = case::no_bytes();
    let n = case::first_input(head, body).len();
    if 65536 < n {
        return print::unread(rt);
    }
    answer_on(rt, head, body, &mut room[..n], sums)
}

fn answer_on(
    rt: &impl Print,
    head: &[u8],
    body: &[u8],
    image: &mut [u8],
    sums: bool,
) -> io::Result<()> {
    if case::operation(head) == case::WIDE_UPDATE {
        return answer_wide(rt, head, body, image, sums);
    }
    answer_narrow(rt, head, body, image, sums)
}

fn answer_narrow(
    rt: &impl Print,
    head: &[u8],
    body: &[u8],
    image: &mut [u8],
    sums: bool,
) -> io::Result<()> {
    let mut room = case::no_trains();
    let n = case::second_input(head, body).len() / 2;
    if 8192 < n {
        return print::unread(rt);
    }
    answer_over(rt, head, body, image, &mut room[..n], sums)
}

fn answer_over(
    rt: &impl Print,
    head: &[u8],
    body: &[u8],
    image: &mut [u8],
    occ: &mut [u16],
    sums: bool,
) -> io::Result<()> {
    case::u16s(occ, case::second_input(head, body), 0, 2);
    answer_from(rt, head, body, image, occ, &[], sums)
}

fn answer_wide(
    rt: &impl Print,
    head: &[u8],
    body: &[u8],
    image: &mut [u8],
    sums: bool,
) -> io::Result<()> {
    let mut room = case::no_links();
    let n = case::second_input(head, body).len() / 4;
    if 8192 < n {
        return print::unread(rt);
    }
    answer_wide_over(rt, head, body, image, &mut room[..n], sums)
}

fn answer_wide_over(
    rt: &impl Print,
    head: &[u8],
    body: &[u8],
    image: &mut [u8],
    occ: &mut [u32],
    sums: bool,
) -> io::Result<()> {
    case::u32s(occ, case::second_input(head, body));
    answer_from(rt, head, body, image, &[], occ, sums)
}

// From an occupancy that is there.
fn answer_from(
    rt: &impl Print,
    head: &[u8],
    body: &[u8],
    image: &mut [u8],
    narrow: &[u16],
    wide: &[u32],
    sums: bool,
) -> io::Result<()> {
    let mut room = case::no_links();
    let n = case::third_input(head, body).len() / 4;
    if 8192 < n {
        return print::unread(rt);
    }
    answer_by(rt, head, body, image, narrow, wide, &mut room[..n], sums)
}

fn answer_by(
    rt: &impl Print,
    head: &[u8],
    body: &[u8],
    image: &mut [u8],
    narrow: &[u16],
    wide: &[u32],
    blocking: &mut [u32],
    sums: bool,
) -> io::Result<()> {
    case::u32s(blocking, case::third_input(head, body));
    octets::put_bytes(image, 0, case::first_input(head, body));
    let x = updated(head, image, narrow, wide, blocking);
    print_updated(rt, head, body, x, image, sums)
}

fn updated(
    head: &[u8],
    image: &mut [u8],
    narrow: &[u16],
    wide: &[u32],
    blocking: &[u32],
) -> Updated {
    let moved = case::argument(head, 0);
    let local = 0 < case::argument(head, 1);
    let limit = (case::argument(head, 2) % 65536) as u16;
    if case::operation(head) == case::WIDE_UPDATE {
        return update_free_path::update_wide(image, wide, blocking, TrainIdx(moved), local, limit);
    }
    let moved = NarrowTrainIdx((moved % 65536) as u16);
    update_free_path::update_free_path(image, narrow, blocking, moved, local, limit)
}

fn print_updated(
    rt: &impl Print,
    head: &[u8],
    body: &[u8],
    x: Updated,
    image: &[u8],
    sums: bool,
) -> io::Result<()> {
    print_status(rt, x)?;
    if sums {
        return print_left(rt, head, body, x, image);
    }
    print_steps(rt, x)
}

fn print_status(rt: &impl Print, x: Updated) -> io::Result<()> {
    let status = x.status;
    match status {
        Status::Success => rt.print("success"),
        Status::Blocked(holder) => print::number(rt, "blocked by ", holder.0 as u64),
        Status::Faulty(n) => print::number(rt, "faulty ", n),
        Status::Refused(r) => print::refused(rt, r),
    }
}

// A refused update has no more to say.
fn print_steps(rt: &impl Print, x: Updated) -> io::Result<()> {
    let status = x.status;
    match status {
        Status::Success => print_met(rt, x),
        Status::Blocked(holder) => print_met(rt, x),
        Status::Faulty(n) => print_met(rt, x),
        Status::Refused(r) => print::end(rt),
    }
}

// The steps, and the train met.
fn print_met(rt: &impl Print, x: Updated) -> io::Result<()> {
    print::number(rt, " steps ", x.tally.steps)?;
    print::number_line(rt, " met ", x.met.0 as u64)
}

// What is counted, the image that is left, and what 6 to 9 say of the image that was there.
fn print_left(
    rt: &impl Print,
    head: &[u8],
    body: &[u8],
    x: Updated,
    image: &[u8],
) -> io::Result<()> {
    print::number(rt, " rounds ", x.tally.rounds as u64)?;
    print::number(rt, " strays ", x.tally.strays)?;
    print::number(rt, " steps ", x.tally.steps)?;
    print::number(rt, " met ", x.met.0 as u64)?;
    print::number(rt, " image ", print::sum_of(image))?;
    print_image_fault(rt, head, body)?;
    print::end(rt)
}

// Only of an update over u16 entries, and over an occupancy of the length that 2 lets pass.
fn print_image_fault(rt: &impl Print, head: &[u8], body: &[u8]) -> io::Result<()> {
    if case::operation(head) != case::UPDATE {
        return Ok(());
    }
    let links = case::second_input(head, body).len() / 2;
    if 4000 < links {
        return Ok(());
    }
    let f = image_fault::image_fault(case::first_input(head, body), links as u32);
    rt.print(" by itself ")?;
    print::answer(rt, f)
}
