// The sheet (document 01, Program sheet): the check of a bundle's yard as text.
ghost use Rattle.std.specs.Prelude.{◌≡◌, ◌+◌, ◌*◌, ◌-◌, ◌≤◌, true, false, length, replicate};
ghost use Rattle.yard_check.specs.Check.{row_size, row_from, Erred, Done};
ghost use Rattle.yard_check.specs.Yard.{slot_count};
ghost use Rattle.yard_check.specs.YardMatch.{NotRefused};
ghost use Rattle.yard_check.specs.Checks.{answered_of, checked_of};
ghost use Rattle.sheet_text.specs.Sheets.{Lent};
ghost use Rattle.text.specs.Text.{text_of, Put, written};
ghost use Rattle.sheet_text.specs.Sheet.{refused_word, code_word, yes_or_no, refused_line, first_line, bundle_fits, checked_bundle, occupancy_count, free_column, row_columns, slot_line, slot_lines, check_lines, sheet_text};

use crate::bundle;
use link_rules::link_idx::{NarrowTrainIdx, TrainIdx};
use link_rules::octets;
use text;
use yard_check::check::Answer;
use yard_check::{check, yard};

// ---- the line of a slot

fn put_refused_word(text: &mut [u8], count: usize, number: u16) -> usize
    ensures { Put (refused_word number) (text_of count text.old) (text_of result text.new) }
{
    let n = text::put_bytes(text, count, b"refused-");
    text::put_decimal(text, n, number as u32)
}

// By the report's code; 16 + n stands for refusal n.
fn put_code_word(text: &mut [u8], count: usize, code: u16) -> usize
    ensures { Put (code_word code) (text_of count text.old) (text_of result text.new) }
{
    match code {
        0 => text::put_bytes(text, count, b"unvisited"),
        1 => text::put_bytes(text, count, b"finished"),
        2 => text::put_bytes(text, count, b"moved"),
        3 => text::put_bytes(text, count, b"success"),
        4 => text::put_bytes(text, count, b"blocked"),
        5 => text::put_bytes(text, count, b"faulty"),
        _ => put_refused_word(text, count, code.saturating_sub(16)),
    }
}

// Free of an image, 0 for a bad one.
fn free_column(image: &[u8], links: u32) -> u16
    ensures { result ≡ free_column image.now links }
{
    match image_fault::image_fault(image, links) {
        Ok(()) => image_reader::free_of(image),
        Err(_) => 0,
    }
}

// The columns behind the code word: rounds, holder, strays, faults of the report's row, free, and met of that row.
fn put_columns(text: &mut [u8], count: usize, report: &[u8], at: usize, free: u16) -> usize
    requires { at ≤ 1310700 }
    ensures { Put (row_columns (row_from false report.now at) free) (text_of count text.old) (text_of result text.new) }
{
    let a = text::put_column(text, count, octets::u16_at(report, at + 4) as u32);
    let b = text::put_column(text, a, octets::u16_at(report, at + 6) as u32);
    let c = text::put_column(text, b, octets::u32_at(report, at + 8));
    let d = text::put_column(text, c, octets::u32_at(report, at + 12));
    let e = text::put_column(text, d, free as u32);
    let f = text::put_column(text, e, octets::u32_at(report, at + 16));
    text::put_byte(text, f, 10)
}

// The line of slot i + 1.
fn put_slot_line(text: &mut [u8], count: usize, i: u16, report: &[u8], free: u16) -> usize
    ensures { Put (slot_line (i + 1) (row_from false report.now (row_size false * i)) free) (text_of count text.old) (text_of result text.new) }
{
    let at = 20 * (i as usize);
    let a = text::put_decimal(text, count, (i as u32) + 1);
    let b = text::put_byte(text, a, 32);
    let c = put_code_word(text, b, octets::u16_at(report, at));
    put_columns(text, c, report, at, free)
}

fn put_slot_lines(
    text: &mut [u8],
    count: usize,
    yard: &[u8],
    report: &[u8],
    links: u32,
    slots: u16,
) -> usize
    requires { slots ≤ 63 }
    ensures { Put (slot_lines yard.now report.now links slots) (text_of count text.old) (text_of result text.new) }
{
    let mut n = count;
    for i in 0..slots {
        let free = free_column(yard::part(yard, TrainIdx((i + 1) as u32)), links);
        n = put_slot_line(text, n, i, report, free);
    }
    n
}

// ---- the first line

fn put_refused(text: &mut [u8], count: usize, number: u16) -> usize
    ensures { Put (refused_line number) (text_of count text.old) (text_of result text.new) }
{
    let a = text::put_bytes(text, count, b"refused");
    let b = text::put_column(text, a, number as u32);
    text::put_byte(text, b, 10)
}

fn put_erred(text: &mut [u8], count: usize, slots: u32, erred: u32) -> usize
    ensures { Put (first_line (Erred erred) slots) (text_of count text.old) (text_of result text.new) }
{
    let a = text::put_bytes(text, count, b"yard");
    let b = text::put_column(text, a, slots);
    let c = text::put_bytes(text, b, b" erred");
    let d = text::put_column(text, c, erred);
    text::put_byte(text, d, 10)
}

fn put_yes_or_no(text: &mut [u8], count: usize, flag: bool) -> usize
    ensures { Put (yes_or_no flag) (text_of count text.old) (text_of result text.new) }
{
    if flag {
        text::put_bytes(text, count, b"yes")
    } else {
        text::put_bytes(text, count, b"no")
    }
}

fn put_done(text: &mut [u8], count: usize, slots: u32, deadlock: bool, next: u16) -> usize
    ensures { Put (first_line (Done deadlock next) slots) (text_of count text.old) (text_of result text.new) }
{
    let a = text::put_bytes(text, count, b"yard");
    let b = text::put_column(text, a, slots);
    let c = text::put_bytes(text, b, b" deadlock ");
    let d = put_yes_or_no(text, c, deadlock);
    let e = text::put_bytes(text, d, b" next");
    let f = text::put_column(text, e, next as u32);
    text::put_byte(text, f, 10)
}

// ---- the sheet

// A refused check has one line.
fn put_check(text: &mut [u8], answer: Answer, yard: &[u8], report: &[u8], links: u32) -> usize
    requires { NotRefused (slot_count yard.now ≤ 63) (answered_of answer) }
    ensures { Put (check_lines (checked_of answer yard.now report.now) links) (text_of 0 text.old) (text_of result text.new) }
{
    let slots = yard::slot_count(yard);
    match answer {
        Answer::Refused(r) => put_refused(text, 0, r.number),
        Answer::Erred(k) => {
            let n = put_erred(text, 0, slots, k);
            put_slot_lines(text, n, yard, report, links, slots as u16)
        }
        Answer::Done { deadlock, next } => {
            let n = put_done(text, 0, slots, deadlock, next);
            put_slot_lines(text, n, yard, report, links, slots as u16)
        }
    }
}

// Room is lent for the parts of the bundle. The yard is a copy, since a check changes it.
fn put_checked(
    text: &mut [u8],
    bundle: &[u8],
    occ: &mut [u16],
    blocking: &mut [u32],
    yard: &mut [u8],
    report: &mut [u8],
) -> usize
    requires { Lent bundle.now occ.old blocking.old yard.old report.old }
    ensures { Put (check_lines (checked_bundle bundle.now) (occupancy_count bundle.now)) (text_of 0 text.old) (text_of result text.new) }
{
    bundle::read_occupancy(occ, bundle);
    bundle::read_blocking(blocking, bundle);
    bundle::copy_from(yard, bundle, octets::u32_at(bundle, 20) as usize);
    let answer = check::check_deadlock(
        yard,
        occ,
        blocking,
        NarrowTrainIdx(octets::u16_at(bundle, 24)),
        octets::u16_at(bundle, 26),
        octets::u16_at(bundle, 30) == 1,
        octets::u16_at(bundle, 28),
        report,
    );
    put_check(text, answer, yard, report, octets::u32_at(bundle, 8))
}

// ---- room for the yard and the report

fn yard_room() -> [u8; 65504]
    ensures { 65504 ≡ length result }
{
    [0u8; 65504]
}

fn blank_report() -> [u8; 1260]
    ensures { result ≡ replicate 1260 0 }
{
    [0u8; 1260]
}

fn put_bundle(text: &mut [u8], bundle: &[u8]) -> usize
    requires { bundle_fits bundle.now ≡ true }
    ensures { Put (check_lines (checked_bundle bundle.now) (occupancy_count bundle.now)) (text_of 0 text.old) (text_of result text.new) }
{
    let mut occ = bundle::occupancy_room();
    let mut blocking = bundle::blocking_room();
    let mut yard = yard_room();
    let mut report = blank_report();
    let links = octets::u32_at(bundle, 8) as usize;
    let count = octets::u32_at(bundle, 16) as usize;
    let at = octets::u32_at(bundle, 20) as usize;
    let size = bundle.len() - at;
    let rows = 20 * (bundle::report_slots(&bundle[at..]) as usize);
    put_checked(
        text,
        bundle,
        &mut occ[..links],
        &mut blocking[..count],
        &mut yard[..size],
        &mut report[..rows],
    )
}

// Writes the sheet of a bundle to the start of `text`, as much as there is room for, and tells how many bytes it wrote. 4,096 bytes hold every sheet.
pub fn sheet(bundle: &[u8], text: &mut [u8]) -> usize
    ensures { text_of result text.new ≡ written (sheet_text bundle.now) text.old }
{
    if bundle::bundle_fits(bundle) {
        return put_bundle(text, bundle);
    }
    put_refused(text, 0, 17)
}
