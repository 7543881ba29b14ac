// check_deadlock (document 01, Check; dispatch.rs 45-91): the refusals, the visits to the slots, the report, the answer.
// A slot is worked by update_free_path alone, of which only the promise is used. One loop over the slots serves the check over u16 entries, which takes
// narrow images, and the one over u32 entries, which takes both widths (document 02, Q-6). Lent room for an image it tells which slots changed (Q-10).
ghost use Rattle.std.specs.Prelude.{◌≡◌, true, false, cond, not, ◌&&◌, List, [], ℕ, ◌+◌, ◌*◌, ◌^◌, ◌≤◌, ◌<◌, leb, eqb, length};
ghost use Rattle.image.specs.Image.{is_wide, largest_of};
ghost use Rattle.image_fault.specs.ImageFault.{fault_with};
ghost use Rattle.image_fault.specs.declared.Widths.{Widths};
ghost use Rattle.image_fault.specs.declared.Widths.TheVariants.{Narrow, Either};
ghost use Rattle.link_rules.specs.Refusals.{no_refusal, or_else, raised};
ghost use Rattle.update_definition.specs.UpdateImage.{call_fault, given_fault, updated_image_in};
ghost use Rattle.update_free_path.specs.Updates as Updates;
ghost use Rattle.yard_check.specs.Yard.{slot_count, part_of};
ghost use Rattle.yard_check.specs.Check as Check;
ghost use Rattle.yard_check.specs.Checks.{args_of, asked, row_of, answered_of, checked_of, WatchedAs, stays_row, ColumnsFit, tallied_of, NextTurn, Visits, SlotVisited, Spans, SpanVisited, AllVisited};

use crate::{bytes, yard};
use free_path::columns;
use image::codec;
use image_fault;
use image_fault::Widths;
use image_reader;
use link_rules::link_idx::{NarrowTrainIdx, TrainIdx};
use link_rules::octets;
use link_rules::refusal::{Refusal, refuse_unless};
use update_free_path;
use update_free_path::answer::{Status, Updated};
use update_free_path::call;
use wide_occupancy::trains;

// Three outcomes, so no Result.
#[derive(Clone, Copy)]
pub enum Answer {
    Refused(Refusal),
    Erred(u32),
    Done { deadlock: bool, next: u16 },
}

// What a check is given beside the slices.
#[derive(Clone, Copy)]
pub struct Args {
    pub moved: TrainIdx,
    pub begin: u16,
    pub local: bool,
    pub limit: u16,
}

// What a visit is given beside the image: the images that the call takes, the occupancy and the blocking links, and the numbers.
#[derive(Clone, Copy)]
pub(crate) struct Given<'a> {
    pub widths: Widths,
    pub occ: &'a [u32],
    pub blocking: &'a [u32],
    pub args: Args,
}

// A record of the report: its columns are numbers, as the report has them and the definitions read them.
#[derive(Clone, Copy)]
pub(crate) struct Row {
    pub code: u16,
    pub place: u16,
    pub rounds: u16,
    pub holder: TrainIdx,
    pub strays: u32,
    pub faults: u32,
    pub met: TrainIdx,
}

// A visit: its record of the report, and whether the image was seen to change.
#[derive(Clone, Copy)]
pub(crate) struct Seen {
    pub row: Row,
    pub changed: bool,
}

// The slots that erred, those that are blocked, the first one that is not finished, and the set of those whose image changed.
#[derive(Clone, Copy)]
pub(crate) struct Counts {
    pub erred: u32,
    pub blocked: u32,
    pub next: u16,
    pub changed: u64,
}

// The slots that a loop visits, those behind from up to until, and the width of the report's records.
#[derive(Clone, Copy)]
pub(crate) struct Span {
    pub from: u16,
    pub until: u16,
    pub wide: bool,
}

// The answer, and the set of the slots whose image changed: slot t is the bit 2^t.
#[derive(Clone, Copy)]
pub struct Watched {
    pub answer: Answer,
    pub changed: u64,
}

// ---- the widths of the images of a yard (document 02, Q-6)

// How many of the images of slots 1 to n are wide.
fn wide_count(yard: &[u8], n: u32) -> u32
    ensures { result ≡ Check.how_many (λ t. is_wide (part_of yard.now t)) n }
{
    let mut k = 0;
    for i in 0..n {
        k += u32::from(codec::is_wide(yard::part(yard, TrainIdx(i + 1))));
    }
    k
}

// Whether the records of the report are wide.
fn wide_rows(yard: &[u8], w: Widths) -> bool
    ensures { result ≡ Check.wide_rows w yard.now }
{
    match w {
        Widths::Narrow => false,
        Widths::Either => wide_count(yard, yard::slot_count(yard)) != 0,
    }
}

pub(crate) fn largest_of(wide: bool) -> u32
    ensures { result ≡ largest_of wide }
{
    if wide { 999999 } else { 65535 }
}

// The bytes of n records.
fn rows_length(wide: bool, n: u32) -> usize
    ensures { result ≡ Check.row_size wide * n }
{
    let one = if wide { 24 } else { 20 };
    one * (n as usize)
}

// ---- refusals 2, 4, 5, 14, 22, 15 and 16, in this order

// Whether moved and begin are within the slots, or begin is the one behind them.
fn slots_fit(slots: u32, a: Args) -> bool
    ensures { result ≡ (leb a.moved.0 slots && (leb 1 a.begin && leb a.begin (slots + 1))) }
{
    a.moved.0 <= slots && 1 <= a.begin && a.begin as u32 - 1 <= slots
}

// 15, 16; long is the length of the report.
pub(crate) fn slots_or_report_fault(
    wide: bool,
    slots: u32,
    a: Args,
    long: usize,
) -> Result<(), Refusal>
    ensures { (w : Widths) → result ≡ raised (or_else (Check.slots_fault slots (args_of w [] a)) (Check.report_fault wide slots long)) }
{
    refuse_unless(slots_fit(slots, a), 15)?;
    refuse_unless(long == rows_length(wide, slots), 16)
}

// 22, 15, 16 of a yard past 14, over u32 entries. Its images are counted once.
fn held_or_late_fault(yard: &[u8], occ: &[u32], a: Args, long: usize) -> Result<(), Refusal>
    ensures { result ≡ raised (or_else (Check.held_fault Either yard.now occ.now)
        (or_else (Check.slots_fault (slot_count yard.now) (args_of Either [] a)) (Check.report_fault (Check.wide_rows Either yard.now) (slot_count yard.now) long))) }
{
    let slots = yard::slot_count(yard);
    let wide = wide_count(yard, slots);
    trains::large_train_fault(occ, TrainIdx(0), largest_of(wide == slots))?;
    slots_or_report_fault(wide != 0, slots, a, long)
}

// The refusal of a check over u16 entries. Of the occupancy only the length is asked; long is the length of the report.
pub fn check_fault(
    yard: &[u8],
    l: usize,
    blocking: &[u32],
    a: Args,
    long: usize,
) -> Result<(), Refusal>
    ensures { (occ : List ℕ) → length occ ≡ l → result ≡ raised (Check.check_fault yard.now occ (args_of Narrow blocking.now a) long) }
{
    call::call_fault(l, blocking, a.moved, a.limit)?;
    refuse_unless(yard::yard_fits(yard), 14)?;
    slots_or_report_fault(false, yard::slot_count(yard), a, long)
}

// The refusal of a check over u32 entries.
pub fn check_wide_fault(
    yard: &[u8],
    occ: &[u32],
    blocking: &[u32],
    a: Args,
    long: usize,
) -> Result<(), Refusal>
    ensures { result ≡ raised (Check.check_fault yard.now occ.now (args_of Either blocking.now a) long) }
{
    call::call_fault(occ.len(), blocking, a.moved, a.limit)?;
    refuse_unless(yard::yard_fits(yard), 14)?;
    held_or_late_fault(yard, occ, a, long)
}

// ---- the report's records

fn plain_row(code: u16) -> Row
    ensures { row_of result ≡ Check.plain_row code }
{
    Row {
        code,
        place: 0,
        rounds: 0,
        holder: TrainIdx(0),
        strays: 0,
        faults: 0,
        met: TrainIdx(0),
    }
}

fn refused_row(f: Refusal, rounds: u16, strays: u32) -> Row
    requires { f.number ≤ 22 }
    ensures { row_of result ≡ Check.refused_row f rounds strays }
{
    Row {
        code: 16 + f.number,
        place: f.place,
        rounds,
        holder: TrainIdx(0),
        strays,
        faults: 0,
        met: TrainIdx(0),
    }
}

// Success, blocked or faulty.
fn worked_row(code: u16, u: Updated, holder: TrainIdx, faults: u32) -> Row
    requires { u.tally.strays < 4294967296 }
    ensures { row_of result ≡ record { code = code; place = 0; rounds = u.tally.rounds; holder = holder.0; strays = u.tally.strays; faults = faults; met = u.met.0 } }
{
    Row {
        code,
        place: 0,
        rounds: u.tally.rounds,
        holder,
        strays: u.tally.strays as u32,
        faults,
        met: u.met,
    }
}

fn updated_row(u: Updated) -> Row
    requires { ColumnsFit (Updates.status_of u.status) u.tally.strays }
    ensures { row_of result ≡ Check.updated_row (Updates.answer_of u) }
{
    match u.status {
        Status::Success => worked_row(3, u, TrainIdx(0), 0),
        Status::Blocked(holder) => worked_row(4, u, holder, 0),
        Status::Faulty(n) => worked_row(5, u, TrainIdx(0), n as u32),
        Status::Refused(f) => refused_row(f, u.tally.rounds, u.tally.strays as u32),
    }
}

// Of a holder above 65,535 the low 16 bits are written. Not one function with put_wide_row: holder and met stand in other places.
fn put_narrow_row(report: &mut [u8], at: usize, r: Row)
    requires { at ≤ 1488 }
    ensures { report.new ≡ Check.put_row false (row_of r) at report.old }
{
    octets::put_u16(report, at, r.code);
    octets::put_u16(report, at + 2, r.place);
    octets::put_u16(report, at + 4, r.rounds);
    octets::put_u16(report, at + 6, (r.holder.0 % 65536) as u16);
    octets::put_u32(report, at + 8, r.strays);
    octets::put_u32(report, at + 12, r.faults);
    octets::put_u32(report, at + 16, r.met.0);
}

fn put_wide_row(report: &mut [u8], at: usize, r: Row)
    requires { at ≤ 1488 }
    ensures { report.new ≡ Check.put_row true (row_of r) at report.old }
{
    octets::put_u16(report, at, r.code);
    octets::put_u16(report, at + 2, r.place);
    octets::put_u16(report, at + 4, r.rounds);
    octets::put_u16(report, at + 6, 0);
    octets::put_u32(report, at + 8, r.strays);
    octets::put_u32(report, at + 12, r.faults);
    octets::put_u32(report, at + 16, r.holder.0);
    octets::put_u32(report, at + 20, r.met.0);
}

fn put_row(report: &mut [u8], wide: bool, at: usize, r: Row)
    requires { at ≤ 1488 }
    ensures { report.new ≡ Check.put_row wide (row_of r) at report.old }
{
    if wide {
        put_wide_row(report, at, r);
        return;
    }
    put_narrow_row(report, at, r);
}

// ---- the visit to a slot (dispatch.rs 61-81)

// is_finished (train_disp/mod.rs 75-77): free equals N.
fn is_finished(img: &[u8]) -> bool
    ensures { result ≡ Check.is_finished img.now }
{
    image_reader::free_of(img) as u32 == codec::path_count(img)
}

// The row of a slot that is not updated: refused by 6 to 9 or 22, else this code.
fn stays_row(img: &[u8], w: Widths, links: usize, code: u16) -> Row
    requires { links ≤ 4000 }
    ensures { row_of result ≡ stays_row (fault_with w no_refusal img.now links).number (fault_with w no_refusal img.now links) code }
{
    match image_fault::fault_with(img, links as u32, w, Ok(())) {
        Ok(()) => plain_row(code),
        Err(f) => refused_row(f, 0, 0),
    }
}

// The update of an image of one of these widths.
fn update_in(img: &mut [u8], g: &Given) -> Updated
    ensures { Updates.updated_of result img.new ≡ updated_image_in g.now.widths img.old g.now.occ.now g.now.blocking.now g.now.args.moved.0 g.now.args.local g.now.args.limit }
{
    let a = g.args;
    match g.widths {
        Widths::Narrow => update_free_path::update_over(
            img, g.occ, g.blocking, a.moved, a.local, a.limit,
        ),
        Widths::Either => update_free_path::update_wide(
            img, g.occ, g.blocking, a.moved, a.local, a.limit,
        ),
    }
}

// Of slot t, img being its part of the yard. Finished and moved are asked before the update.
fn visit(img: &mut [u8], g: &Given, t: u16) -> Row
    requires { ((call_fault g.now.occ.now g.now.blocking.now g.now.args.moved.0 g.now.args.limit).number ≡ 0) × (given_fault g.now.widths img.old g.now.occ.now g.now.args.moved.0 ≡ no_refusal) }
    ensures { Check.visit (row_of result) img.new ≡ Check.visited g.now.occ.now (asked g.now) t img.old }
{
    if is_finished(img) {
        return stays_row(img, g.widths, g.occ.len(), 1);
    }
    let a = g.args;
    if t as u32 == a.moved.0 {
        return stays_row(img, g.widths, g.occ.len(), 2);
    }
    updated_row(update_in(img, g))
}

// The image is copied before the visit, where the room holds it, and compared after it (document 02, Q-10).
fn seen_visit(img: &mut [u8], g: &Given, t: u16, room: &mut [u8]) -> Seen
    requires { ((call_fault g.now.occ.now g.now.blocking.now g.now.args.moved.0 g.now.args.limit).number ≡ 0) × (given_fault g.now.widths img.old g.now.occ.now g.now.args.moved.0 ≡ no_refusal) }
    ensures { (Check.visit (row_of result.row) img.new ≡ Check.visited g.now.occ.now (asked g.now) t img.old)
        × (result.changed ≡ Check.is_seen (length room.old) img.old img.new) }
{
    octets::put_bytes(room, 0, img);
    let row = visit(img, g, t);
    Seen {
        row,
        changed: bytes::differs(img, room),
    }
}

// The slot's own part of the yard is lent to the visit. Slots below begin are not visited.
fn slot_visit(yard: &mut [u8], g: &Given, t: u16, room: &mut [u8]) -> Seen
    requires { Visits yard.old g.now.occ.now (asked g.now) t }
    ensures { SlotVisited yard.old g.now.occ.now (asked g.now) t (length room.old) result yard.new }
{
    if t < g.args.begin {
        return Seen {
            row: plain_row(0),
            changed: false,
        };
    }
    let from = yard::part_from(yard, t as u32);
    let until = yard::part_until(yard, t as u32);
    seen_visit(&mut yard[from..until], g, t, room)
}

// ---- all slots

// It moves on where it stands at a finished slot (78-80).
fn next_begin(next: u16, finished: bool, t: u16) -> u16
    requires { t ≤ 63 }
    ensures { result ≡ cond (finished && eqb next t) (t + 1) next }
{
    if finished && next == t { t + 1 } else { next }
}

// The set of slot t alone, or the empty one.
fn bit_if(b: bool, t: u16) -> u64
    requires { t ≤ 63 }
    ensures { result ≡ cond b (2 ^ t) 0 }
{
    if b { 1 << (t as u32) } else { 0 }
}

fn tallied(y: Counts, s: Seen, t: u16) -> Counts
    requires { NextTurn y t }
    ensures { result ≡ tallied_of y (row_of s.row) s.changed t }
{
    Counts {
        erred: u32::from(5 <= s.row.code) + y.erred,
        blocked: u32::from(s.row.code == 4) + y.blocked,
        next: next_begin(y.next, s.row.code == 1, t),
        changed: bit_if(s.changed, t) + y.changed,
    }
}

// Every slot of the span, after a blocked, faulty or refused one too. y has the counts of those before it.
pub(crate) fn visits(
    yard: &mut [u8],
    g: &Given,
    s: Span,
    y: Counts,
    report: &mut [u8],
    room: &mut [u8],
) -> Counts
    requires { Spans yard.old g.now.occ.now (asked g.now) s y }
    ensures { SpanVisited yard.old g.now.occ.now (asked g.now) s (length room.old) y report.old result yard.new report.new }
{
    let mut x = y;
    for n in s.from..s.until {
        let r = slot_visit(yard, g, n + 1, room);
        put_row(report, s.wide, rows_length(s.wide, n as u32), r.row);
        x = tallied(x, r, n + 1);
    }
    x
}

// All slots.
fn visits_all(yard: &mut [u8], g: &Given, report: &mut [u8], room: &mut [u8]) -> Counts
    requires { (Check.check_fault yard.old g.now.occ.now (asked g.now) (length report.old)).number ≡ 0 }
    ensures { AllVisited yard.old g.now.occ.now (asked g.now) report.old (length room.old) result yard.new report.new }
{
    let s = Span {
        from: 0,
        until: yard::slot_count(yard) as u16,
        wide: wide_rows(yard, g.widths),
    };
    let none = Counts {
        erred: 0,
        blocked: 0,
        next: g.args.begin,
        changed: 0,
    };
    visits(yard, g, s, none, report, room)
}

// Of a check over u16 entries: the occupancy is widened once for all slots, into room of its length.
fn visits_widened(
    yard: &mut [u8],
    occ: &[u16],
    wide: &mut [u32],
    blocking: &[u32],
    a: Args,
    report: &mut [u8],
    room: &mut [u8],
) -> Counts
    requires { ((Check.check_fault yard.old occ.now (args_of Narrow blocking.now a) (length report.old)).number ≡ 0) × (length wide.old ≡ length occ.now) }
    ensures { AllVisited yard.old occ.now (args_of Narrow blocking.now a) report.old (length room.old) result yard.new report.new }
{
    columns::widen(occ, wide);
    let g = Given {
        widths: Widths::Narrow,
        occ: wide,
        blocking,
        args: a,
    };
    visits_all(yard, &g, report, room)
}

// Room for N links: of a small occupancy less room is cleared.
fn visits_within<const N: usize>(
    yard: &mut [u8],
    occ: &[u16],
    blocking: &[u32],
    a: Args,
    report: &mut [u8],
    room: &mut [u8],
) -> Counts
    requires { ((Check.check_fault yard.old occ.now (args_of Narrow blocking.now a) (length report.old)).number ≡ 0) × (length occ.now ≤ N) × (N ≤ 4000) }
    ensures { AllVisited yard.old occ.now (args_of Narrow blocking.now a) report.old (length room.old) result yard.new report.new }
{
    let mut wide = [0u32; N];
    let n = occ.len();
    visits_widened(yard, occ, &mut wide[..n], blocking, a, report, room)
}

// ---- the answer

pub(crate) fn answered(y: Counts) -> Answer
    ensures { answered_of result ≡ Check.answer_by y.erred (not (eqb y.blocked 0)) y.next }
{
    if y.erred != 0 {
        Answer::Erred(y.erred)
    } else {
        Answer::Done {
            deadlock: y.blocked != 0,
            next: y.next,
        }
    }
}

// With the set of changed slots.
fn all_watched(y: Counts) -> Watched
    ensures { (answered_of result.answer ≡ Check.answer_by y.erred (not (eqb y.blocked 0)) y.next) × (result.changed ≡ y.changed) }
{
    Watched {
        answer: answered(y),
        changed: y.changed,
    }
}

fn refused(f: Refusal) -> Watched
    ensures { (answered_of result.answer ≡ Check.Refused f) × (result.changed ≡ 0) }
{
    Watched {
        answer: Answer::Refused(f),
        changed: 0,
    }
}

// check_deadlock, and which images changed, of those that the room holds (document 02, Q-10). The room's bytes are scratch.
pub fn check_watched(
    yard: &mut [u8],
    occ: &[u16],
    blocking: &[u32],
    a: Args,
    report: &mut [u8],
    room: &mut [u8],
) -> Watched
    ensures { WatchedAs Narrow yard.old occ.now blocking.now a report.old (length room.old) result yard.new report.new }
{
    if let Err(f) = check_fault(yard, occ.len(), blocking, a, report.len()) {
        return refused(f);
    }
    if 512 < occ.len() {
        return all_watched(visits_within::<4000>(yard, occ, blocking, a, report, room));
    }
    all_watched(visits_within::<512>(yard, occ, blocking, a, report, room))
}

// check_wide, and which images changed.
pub fn check_wide_watched(
    yard: &mut [u8],
    occ: &[u32],
    blocking: &[u32],
    a: Args,
    report: &mut [u8],
    room: &mut [u8],
) -> Watched
    ensures { WatchedAs Either yard.old occ.now blocking.now a report.old (length room.old) result yard.new report.new }
{
    if let Err(f) = check_wide_fault(yard, occ, blocking, a, report.len()) {
        return refused(f);
    }
    let g = Given {
        widths: Widths::Either,
        occ,
        blocking,
        args: a,
    };
    all_watched(visits_all(yard, &g, report, room))
}

// Visits every slot from begin on, over u16 entries. Refused by 2, 4, 5, 14, 15 and 16: then nothing is changed.
pub fn check_deadlock(
    yard: &mut [u8],
    occ: &[u16],
    blocking: &[u32],
    moved: NarrowTrainIdx,
    begin: u16,
    local: bool,
    limit: u16,
    report: &mut [u8],
) -> Answer
    ensures { checked_of result yard.new report.new ≡ Check.checked yard.old occ.now blocking.now moved.0 begin local limit report.old }
{
    let a = Args {
        moved: TrainIdx(moved.0 as u32),
        begin,
        local,
        limit,
    };
    let mut none = [0u8; 1];
    let x = check_watched(yard, occ, blocking, a, report, &mut none[..0]);
    x.answer
}

// The check over u32 entries, of images of either width (document 02, Q-6). Refused by 2, 4, 5, 14, 22, 15 and 16: then nothing is changed.
pub fn check_wide(
    yard: &mut [u8],
    occ: &[u32],
    blocking: &[u32],
    moved: TrainIdx,
    begin: u16,
    local: bool,
    limit: u16,
    report: &mut [u8],
) -> Answer
    ensures { checked_of result yard.new report.new ≡ Check.checked_wide yard.old occ.now blocking.now moved.0 begin local limit report.old }
{
    let a = Args {
        moved,
        begin,
        local,
        limit,
    };
    let mut none = [0u8; 1];
    let x = check_wide_watched(yard, occ, blocking, a, report, &mut none[..0]);
    x.answer
}
