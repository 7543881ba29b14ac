// Prints the answer of each call that stands in the files which the arguments name: a sheet, a page, or a call's words (README, Draw a yard).
// A file is a row of cases (tools/oracle/README.md): `tools/yard/yard case` writes one from a yard that is drawn as text, the oracle records many.
// Behind the argument `--sums` each case has a line of its own, with a checksum of each buffer that its call left: what the oracle prints of the same cases.
#![tactic(auto)]

ghost use Rattle.std.specs.Prelude.{◌≡◌, length};

mod act;
mod carried;
mod case;
mod check;
mod index;
mod indexed;
mod lay_out;
mod leaf;
mod lesson;
mod list;
mod mark;
mod page;
mod print;
mod recorded;
mod sheet;
mod update;
mod view;

use ceiling;
use link_rules::refusal::Refusal;
use std::env::Args;
use std::fs::File;
use std::io::Read;
use std::rt::Files;
use std::{env, io};
use track_profile;
use whole_input::read_full;

fn main(rt: HostRuntime) -> io::Result<()> {
    let words = env::args(&rt)?;
    if answer_arguments(&rt, words).is_ok() {
        return Ok(());
    }
    rt.eprintln("answers: standard output cannot be written")
}

// The first word is the program's own name. As soon as something cannot be written, no more is.
fn answer_arguments(rt: &(impl Files + Print), words: Args) -> io::Result<()> {
    let mut sums = false;
    for word in words.skip(1) {
        sums = answer_argument(rt, word.as_str(), sums)?;
    }
    Ok(())
}

// Are checksums asked for behind this argument?
fn answer_argument(rt: &(impl Files + Print), word: &str, sums: bool) -> io::Result<bool> {
    if word == "--sums" {
        return Ok(true);
    }
    answer_file(rt, word, sums)?;
    Ok(sums)
}

fn answer_file(rt: &(impl Files + Print), name: &str, sums: bool) -> io::Result<()> {
    print::line(rt, name)?;
    match File::open(rt, name) {
        Ok(mut file) => answer_cases(rt, &mut file, sums),
        Err(_) => print::unread(rt),
    }
}

// What stands next in a file: a case, which is answered, or nothing more that can be read.
#[derive(Clone, Copy)]
enum Next {
    Case,
    End,
}

fn ended(written: io::Result<()>) -> io::Result<Next> {
    written?;
    Ok(Next::End)
}

// A proved loop has to end, and nothing says that a file does: a million cases are more than a file has.
fn answer_cases(rt: &impl Print, file: &mut impl Read, sums: bool) -> io::Result<()> {
    for number in 0..1000000 {
        match answer_next(rt, file, number, sums)? {
            Next::Case => {}
            Next::End => return Ok(()),
        }
    }
    Ok(())
}

// Room for the buffers of a case: a bundle that is too long is refused, and still a call.
fn room() -> [u8; 262144]
    ensures { 262144 ≡ length result }
{
    [0u8; 262144]
}

// Reads one case and answers it.
fn answer_next(rt: &impl Print, file: &mut impl Read, number: u32, sums: bool) -> io::Result<Next> {
    let mut head = [0u8; 104];
    let mut body = room();
    let Ok(got) = read_full(file, &mut head) else {
        return ended(print::unread(rt));
    };
    if got < 104 {
        return ended_at(rt, number, got);
    }
    if !case::is_whole(&head) {
        return ended(print::unread(rt));
    }
    let size = case::body_size(&head);
    if 262144 < size {
        return ended(print::unread(rt));
    }
    answer_body(rt, file, &head, &mut body[..size], number, sums)
}

// A file ends behind its last case; one without a case, or with part of a head, cannot be read.
fn ended_at(rt: &impl Print, number: u32, got: usize) -> io::Result<Next> {
    if got != 0 {
        return ended(print::unread(rt));
    }
    if number == 0 {
        return ended(print::unread(rt));
    }
    Ok(Next::End)
}

fn answer_body(
    rt: &impl Print,
    file: &mut impl Read,
    head: &[u8],
    body: &mut [u8],
    number: u32,
    sums: bool,
) -> io::Result<Next> {
    if file.read_exact(body).is_err() {
        return ended(print::unread(rt));
    }
    answer_numbered(rt, head, body, number, sums)?;
    Ok(Next::Case)
}

fn answer_numbered(
    rt: &impl Print,
    head: &[u8],
    body: &[u8],
    number: u32,
    sums: bool,
) -> io::Result<()> {
    if !sums {
        return answer(rt, head, body, false);
    }
    print::number(rt, "", number as u64)?;
    print::number(rt, " op ", case::operation(head) as u64)?;
    rt.print(" ")?;
    answer(rt, head, body, true)
}

// The calls of document 01, and their wide forms.
fn answer(rt: &impl Print, head: &[u8], body: &[u8], sums: bool) -> io::Result<()> {
    let operation = case::operation(head);
    if operation == case::MARK {
        return mark::answer(rt, head, body, sums);
    }
    if operation == case::WIDE_MARK {
        return mark::answer_wide(rt, head, body, sums);
    }
    if writes_image(operation) {
        return lay_out::answer(rt, head, body, sums);
    }
    if updates(operation) {
        return update::answer(rt, head, body, sums);
    }
    if checks(operation) {
        return check::answer(rt, head, body, sums);
    }
    if operation == case::SHEET {
        return sheet::answer(rt, head, body, sums);
    }
    answer_request(rt, head, body, sums)
}

// The calls of the requests.
fn answer_request(rt: &impl Print, head: &[u8], body: &[u8], sums: bool) -> io::Result<()> {
    let operation = case::operation(head);
    if operation == case::PAGE {
        return page::answer(rt, head, body, sums);
    }
    if operation == case::PROFILE {
        return answer_profile(rt, head, body);
    }
    if operation == case::CEILING {
        return print_ceiling(rt, ceiling::ceiling(case::first_input(head, body)));
    }
    if operation == case::YARD_CEILING {
        return answer_yard_ceiling(rt, head, body);
    }
    if operation == case::GAME {
        return lesson::answer(rt, head, body);
    }
    if operation == case::UNDO {
        return recorded::answer_undo(rt, head, body, sums);
    }
    if operation == case::INDEX {
        return index::answer(rt, head, body, sums);
    }
    if operation == case::LIST {
        return list::answer(rt, head, body, sums);
    }
    answer_beside(rt, head, body, sums)
}

// The other calls beside an index, and those of a sitting that is carried.
fn answer_beside(rt: &impl Print, head: &[u8], body: &[u8], sums: bool) -> io::Result<()> {
    let operation = case::operation(head);
    if operation == case::INDEXED_LAY_OUT {
        return indexed::answer_lay_out(rt, head, body, sums);
    }
    if operation == case::INDEXED_UNDO {
        return indexed::answer_undo(rt, head, body, sums);
    }
    if operation == case::CARRY {
        return carried::answer_step(rt, head, body, sums);
    }
    if operation == case::HALF_CHECK {
        return carried::answer_half(rt, head, body, sums);
    }
    answer_candidate(rt, head, body, sums)
}

// A candidate's call, or a leaf.
fn answer_candidate(rt: &impl Print, head: &[u8], body: &[u8], sums: bool) -> io::Result<()> {
    let operation = case::operation(head);
    if operation == case::VIEW {
        return view::answer(rt, head, body, sums);
    }
    if operation == case::ACT {
        return act::answer(rt, head, body, sums);
    }
    leaf::answer(rt, head, body, sums)
}

fn writes_image(operation: u32) -> bool {
    if operation == case::WIDEN {
        return true;
    }
    if operation == case::NARROW {
        return true;
    }
    operation == case::LAY_OUT
}

fn updates(operation: u32) -> bool {
    if operation == case::WIDE_UPDATE {
        return true;
    }
    operation == case::UPDATE
}

fn checks(operation: u32) -> bool {
    if operation == case::WIDE_CHECK {
        return true;
    }
    if check::is_recorded(operation) {
        return true;
    }
    if check::is_indexed(operation) {
        return true;
    }
    operation == case::CHECK
}

// The training track profile, of which nothing is left but its answer.
fn answer_profile(rt: &impl Print, head: &[u8], body: &[u8]) -> io::Result<()> {
    let f = track_profile::profile_fault(case::first_input(head, body));
    print::answer(rt, f)?;
    print::end(rt)
}

// The ceiling of a yard. Argument: the round limit.
fn answer_yard_ceiling(rt: &impl Print, head: &[u8], body: &[u8]) -> io::Result<()> {
    let limit = (case::argument(head, 0) % 65536) as u16;
    print_ceiling(
        rt,
        ceiling::yard_ceiling(case::first_input(head, body), limit),
    )
}

fn print_ceiling(rt: &impl Print, c: Result<u64, Refusal>) -> io::Result<()> {
    match c {
        Ok(steps) => print::number_line(rt, "ceiling ", steps),
        Err(f) => {
            print::refused(rt, f)?;
            print::end(rt)
        }
    }
}
