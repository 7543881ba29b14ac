// The calls for C and Rust. A function named `lavtoeu_` and so on is exported under that name, takes numbers and slices (a pointer
// and a length), is total for every argument, and, but lavtoeu_version, calls one proved function of another crate; the others serve these.
#![tactic(auto)]

pub mod carried;
pub mod index;
pub mod recorded;
pub mod version;
pub mod wide;

ghost use Rattle.std.specs.Prelude.{◌≡◌, ℕ, Bool, set, []};
ghost use Rattle.link_rules.specs.AdvanceRewind.{mark_of};
ghost use Rattle.image_fault.specs.ImageFault.{fault_with};
ghost use Rattle.image_fault.specs.declared.Widths.TheVariants.{Either};
ghost use Rattle.link_rules.specs.Refusals.{no_refusal, raised_with};
ghost use Rattle.link_rules.specs.declared.refusal.Refusal.{Refusal};
ghost use Rattle.track_profile.specs.Profile.{profile_fault};
ghost use Rattle.ceiling.specs.Ceiling.{ceiling_of, yard_ceiling_of};
ghost use Rattle.game.specs.Game.{verdict_of};
ghost use Rattle.train_disp.specs.TrainDisp.{laid_out};
ghost use Rattle.update_definition.specs.Update.{holder_in};
ghost use Rattle.update_definition.specs.UpdateImage.{updated_image};
ghost use Rattle.update_free_path.specs.Updates.{status_of, updated_of};
ghost use Rattle.yard_check.specs.Check.{checked};
ghost use Rattle.yard_check.specs.Checks.{answered_of};
ghost use Rattle.sheet_text.specs.Sheet.{sheet_text};
ghost use Rattle.text.specs.Text.{text_of, written};
ghost use Rattle.path_page.specs.Page.{drawing_rule, page_fault, page_after};
ghost use Rattle.sitting.specs.Replay.{replay_of};
ghost use Rattle.free_path_c.specs.Words.{game_with, ToldGame};
ghost use Rattle.candidate.specs.Candidate.{view_of, act_of};
ghost use Rattle.free_path_c.specs.Words.{ToldView, Plain};
ghost use Rattle.free_path_c.specs.Words.{answer_word, fault_word, settings_of, flag_of, status_word, code_of, errors_of, update_words, Told, ceiling_words, ToldCeiling, check_word, bit_of, three_words, check_words, ToldCheck, ToldReplay};

use candidate;
use ceiling;
use disp_structs::Metres;
use game;
use image_fault;
use image_fault::Widths;
use link_rules::advance_rewind;
use link_rules::link_idx::{LinkIdx, NarrowTrainIdx, TrainIdx};
use link_rules::refusal::Refusal;
use path_page;
use sheet_text::sheet;
use sitting;
use train_disp::Settings;
use update_free_path;
use update_free_path::answer::{Status, Updated};
use yard_check::check;

// Marks a link for a train, or releases it with train 0. Answers 0, or the refusal's number with its place in the upper 16 bits.
#[unsafe(no_mangle)]
pub extern "C" fn lavtoeu_mark(table: &[u8], occupancy: &mut [u16], link: u32, train: u16) -> u32
    ensures { (result ≡ answer_word (mark_of table.now occupancy.old (record { 0 = link }) (record { 0 = train })).answer)
        × (occupancy.new ≡ (mark_of table.now occupancy.old (record { 0 = link }) (record { 0 = train })).occupancy) }
{
    answer_word(advance_rewind::mark(table, occupancy, LinkIdx(link), NarrowTrainIdx(train)))
}

fn answer_word(answer: Result<(), Refusal>) -> u32
    ensures { result ≡ answer_word answer }
{
    match answer {
        Ok(()) => 0,
        Err(r) => fault_word(r),
    }
}

// The first refusal of an image of either width over a number of links by 6 to 9 and 22, since it is given no occupancy: 0, or the number with its
// place in the upper 16 bits.
#[unsafe(no_mangle)]
pub extern "C" fn lavtoeu_image_fault(image: &[u8], links: u32) -> u32
    ensures { result ≡ fault_word (fault_with Either no_refusal image.now links) }
{
    answer_word(image_fault::fault_with(image, links, Widths::Either, Ok(())))
}

fn fault_word(f: Refusal) -> u32
    ensures { result ≡ fault_word f }
{
    (f.number as u32) + 65536 * (f.place as u32)
}

// The first refusal of an image of either width by 6 to 9 and 22 over 4,000 links, then 29 where a distance or an offset is outside the training track profile. Answers as lavtoeu_image_fault does.
#[unsafe(no_mangle)]
pub extern "C" fn lavtoeu_profile(image: &[u8]) -> u32
    ensures { result ≡ fault_word (profile_fault image.now) }
{
    answer_word(track_profile::profile_fault(image))
}

// The ceiling of search steps in a round of an update of the image, of either width: refused by 6 to 9 and 22 over 4,000 links, else the first word of
// `answer` gets it.
// Answers as lavtoeu_image_fault does; a refused call leaves `answer`.
#[unsafe(no_mangle)]
pub extern "C" fn lavtoeu_ceiling(image: &[u8], answer: &mut [u64]) -> u32
    ensures { ToldCeiling (ceiling_of image.now) result answer.old answer.new }
{
    put_value(answer, ceiling::ceiling(image))
}

// The ceiling of search steps in a check of the yard with this round limit: refused by 5 (limit 0), then 14, else the first word of `answer` gets it.
// Answers as lavtoeu_image_fault does; a refused call leaves `answer`.
#[unsafe(no_mangle)]
pub extern "C" fn lavtoeu_yard_ceiling(yard: &[u8], limit: u16, answer: &mut [u64]) -> u32
    ensures { ToldCeiling (yard_ceiling_of yard.now limit) result answer.old answer.new }
{
    put_value(answer, ceiling::yard_ceiling(yard, limit))
}

// The first word, and the word that is returned; a refused call leaves the words as they were.
fn put_value(answer: &mut [u64], value: Result<u64, Refusal>) -> u32
    ensures { (f : Refusal) (n : ℕ) → value ≡ raised_with f n → Plain f → (result ≡ fault_word f) × (answer.new ≡ ceiling_words f.number n answer.old) }
{
    match value {
        Ok(n) => {
            put_word(answer, 0, n);
            0
        }
        Err(f) => fault_word(f),
    }
}

// The same of a flag, told by 1 or 0.
fn put_flag(answer: &mut [u64], flag: Result<bool, Refusal>) -> u32
    ensures { (f : Refusal) (b : Bool) → flag ≡ raised_with f b → Plain f → (result ≡ fault_word f) × (answer.new ≡ ceiling_words f.number (bit_of b) answer.old) }
{
    match flag {
        Ok(b) => put_value(answer, Ok(bit_of(b))),
        Err(f) => put_value(answer, Err(f)),
    }
}

// Lays a new train out in an image buffer: est records, the train, dist_disp_path_search, dist_fixed_max, Q and L. Answers as lavtoeu_mark does.
#[unsafe(no_mangle)]
pub extern "C" fn lavtoeu_lay_out(
    est: &[u8],
    train: u16,
    search: f64,
    fixed: f64,
    room: u32,
    links: u32,
    image: &mut [u8],
) -> u32
    ensures { (result ≡ answer_word (laid_out est.now (settings_of train search fixed room links) image.old).answer)
        × (image.new ≡ (laid_out est.now (settings_of train search fixed room links) image.old).image) }
{
    let settings = Settings {
        train_idx: NarrowTrainIdx(train),
        dist_disp_path_search: Metres(search),
        dist_fixed_max: Metres(fixed),
        diverge_room: room,
        links: links,
    };
    answer_word(train_disp::lay_out(est, settings, image))
}

// Updates the train of an image. Answers 0, or the refusal's number with its place in the upper 16 bits, and puts into the first seven words of `answer`
// document 01's code (3 success, 4 blocked, 5 faulty, 16 + n refused by n), the number of errors, the rounds, the strays, the search steps,
// the train that holds a blocked one, else 0, and the train met in the first round, else 0. Any local but 0 is yes.
#[unsafe(no_mangle)]
pub extern "C" fn lavtoeu_update(
    image: &mut [u8],
    occupancy: &[u16],
    blocking: &[u32],
    moved: u16,
    local: u32,
    limit: u16,
    answer: &mut [u64],
) -> u32
    ensures { Told (updated_image image.old occupancy.now blocking.now moved (flag_of local) limit) result image.new answer.old answer.new }
{
    let x = update_free_path::update_free_path(
        image,
        occupancy,
        blocking,
        NarrowTrainIdx(moved),
        flag_of(local),
        limit,
    );
    put_update(answer, x)
}

// The seven words, and the word that is returned.
fn put_update(answer: &mut [u64], x: Updated) -> u32
    ensures { (result ≡ status_word (status_of x.status)) × (answer.new ≡ update_words (updated_of x []) answer.old) }
{
    let s = x.status;
    put_word(answer, 0, code_of(s));
    put_word(answer, 1, errors_of(s));
    put_word(answer, 2, x.tally.rounds as u64);
    put_word(answer, 3, x.tally.strays);
    put_word(answer, 4, x.tally.steps);
    put_word(answer, 5, holder_in(s));
    put_word(answer, 6, x.met.0 as u64);
    status_word(s)
}

fn flag_of(n: u32) -> bool
    ensures { result ≡ flag_of n }
{
    0 < n
}

fn put_word(answer: &mut [u64], at: usize, x: u64)
    ensures { answer.new ≡ set answer.old at x }
{
    if at < answer.len() {
        answer[at] = x;
    }
}

fn status_word(s: Status) -> u32
    ensures { result ≡ status_word (status_of s) }
{
    match s {
        Status::Success => 0,
        Status::Blocked(holder) => 0,
        Status::Faulty(n) => 0,
        Status::Refused(r) => fault_word(r),
    }
}

fn code_of(s: Status) -> u64
    ensures { result ≡ code_of (status_of s) }
{
    match s {
        Status::Success => 3,
        Status::Blocked(holder) => 4,
        Status::Faulty(n) => 5,
        Status::Refused(r) => 16 + (r.number as u64),
    }
}

fn errors_of(s: Status) -> u64
    ensures { result ≡ errors_of (status_of s) }
{
    match s {
        Status::Success => 0,
        Status::Blocked(holder) => 0,
        Status::Faulty(n) => n,
        Status::Refused(r) => 0,
    }
}

fn holder_in(s: Status) -> u64
    ensures { result ≡ holder_in (status_of s) }
{
    match s {
        Status::Success => 0,
        Status::Blocked(holder) => holder.0 as u64,
        Status::Faulty(n) => 0,
        Status::Refused(r) => 0,
    }
}

// Checks a yard: the occupancy, the blocking list, the moved train, the slot to begin with, local (0 is no), the round limit; the report gets 20 bytes for each slot. Of the
// answer's words the first gets the number of slots that erred, the second 1 where there is a deadlock, the third the next begin. Answers 0, or the refusal as lavtoeu_mark does;
// a refused check leaves the answer's words as they were.
#[unsafe(no_mangle)]
pub extern "C" fn lavtoeu_check(
    yard: &mut [u8],
    occupancy: &[u16],
    blocking: &[u32],
    moved: u16,
    begin: u16,
    local: u32,
    limit: u16,
    report: &mut [u8],
    answer: &mut [u64],
) -> u32
    ensures { ToldCheck (checked yard.old occupancy.now blocking.now moved begin (flag_of local) limit report.old)
        result yard.new report.new answer.old answer.new }
{
    let x = check::check_deadlock(
        yard,
        occupancy,
        blocking,
        NarrowTrainIdx(moved),
        begin,
        flag_of(local),
        limit,
        report,
    );
    put_check(answer, x);
    check_word(x)
}

fn check_word(x: check::Answer) -> u32
    ensures { result ≡ check_word (answered_of x) }
{
    match x {
        check::Answer::Refused(r) => fault_word(r),
        check::Answer::Erred(n) => 0,
        check::Answer::Done { deadlock, next } => 0,
    }
}

fn bit_of(b: bool) -> u64
    ensures { result ≡ bit_of b }
{
    if b { 1 } else { 0 }
}

fn put_words(answer: &mut [u64], a: u64, b: u64, c: u64)
    ensures { answer.new ≡ three_words a b c answer.old }
{
    put_word(answer, 0, a);
    put_word(answer, 1, b);
    put_word(answer, 2, c);
}

fn put_check(answer: &mut [u64], x: check::Answer)
    ensures { answer.new ≡ check_words (answered_of x) answer.old }
{
    match x {
        check::Answer::Refused(r) => {}
        check::Answer::Erred(n) => put_words(answer, n as u64, 0, 0),
        check::Answer::Done { deadlock, next } => put_words(
            answer,
            0,
            bit_of(deadlock),
            next as u64,
        ),
    }
}

// Whether the closer of a lesson game can force the final update of an image of either width to end Blocked: refused by 2, 5 to 10 and 22, then 28, else the first
// word of `answer` gets 1 or 0. Answers as lavtoeu_image_fault does; a refused call leaves `answer`. Any local but 0 is yes.
#[unsafe(no_mangle)]
pub extern "C" fn lavtoeu_closer_can_force(
    image: &[u8],
    occupancy: &[u32],
    moved: u32,
    local: u32,
    limit: u16,
    links: &[u32],
    turns: u32,
    answer: &mut [u64],
) -> u32
    ensures { ToldGame (verdict_of (game_with image.now occupancy.now moved (flag_of local) limit links.now) turns)
        result answer.old answer.new }
{
    let v = game::closer_can_force(
        image,
        occupancy,
        TrainIdx(moved),
        flag_of(local),
        limit,
        links,
        turns,
    );
    put_flag(answer, v)
}

// Plays a recording over a yard and an occupancy: entry i of the list gets the refusal of step i, 0 if there is none, and the replay goes on. Answers 0, or 19 for a
// malformed recording or a list that has not an entry for each step, which leaves all as it was.
#[unsafe(no_mangle)]
pub extern "C" fn lavtoeu_replay(
    recording: &[u8],
    table: &[u8],
    yard: &mut [u8],
    occupancy: &mut [u16],
    list: &mut [u16],
) -> u32
    ensures { ToldReplay (replay_of recording.now table.now yard.old occupancy.old list.old)
        result yard.new occupancy.new list.new }
{
    answer_word(sitting::replay(recording, table, yard, occupancy, list))
}

// Writes the sheet of a bundle to the text, as many bytes as it has room for, and answers how many. 4,096 bytes hold every sheet.
#[unsafe(no_mangle)]
pub extern "C" fn lavtoeu_sheet(bundle: &[u8], text: &mut [u8]) -> usize
    ensures { text_of result text.new ≡ written (sheet_text bundle.now) text.old }
{
    sheet::sheet(bundle, text)
}

// Writes the page of the path of an image of either width: a line of 40 bytes for each node. Answers as lavtoeu_mark does.
#[unsafe(no_mangle)]
pub extern "C" fn lavtoeu_page(image: &[u8], page: &mut [u8]) -> u32
    ensures { (result ≡ fault_word (page_fault image.now page.old)) × (page.new ≡ page_after drawing_rule image.now page.old) }
{
    answer_word(path_page::page(image, page))
}

// ---- a candidate's calls

// Shows a candidate the path record of a node of the train in their slot: as many of its 32 bytes as `bytes` has room for; the first word of `answer` gets 1
// where the record is an Arrive whose link is taken, else 0. Answers as lavtoeu_mark does; a refused call leaves `bytes` and `answer`.
#[unsafe(no_mangle)]
pub extern "C" fn lavtoeu_view(
    table: &[u8],
    occupancy: &[u32],
    yard: &[u8],
    slot: u16,
    node: u32,
    bytes: &mut [u8],
    answer: &mut [u64],
) -> u32
    ensures { ToldView (view_of table.now occupancy.now yard.now slot node bytes.old)
        result bytes.new answer.old answer.new }
{
    let seen = candidate::view(table, occupancy, yard, slot, node, bytes);
    put_flag(answer, seen)
}

// Marks a link of the path for the train in the candidate's slot, or releases it where marks is 0, whoever holds it. Answers as lavtoeu_mark does.
#[unsafe(no_mangle)]
pub extern "C" fn lavtoeu_act(
    table: &[u8],
    occupancy: &mut [u32],
    yard: &[u8],
    slot: u16,
    link: u32,
    marks: u32,
) -> u32
    ensures { (result ≡ answer_word (act_of table.now occupancy.old yard.now slot (record { 0 = link }) (flag_of marks)).answer)
        × (occupancy.new ≡ (act_of table.now occupancy.old yard.now slot (record { 0 = link }) (flag_of marks)).occupancy) }
{
    answer_word(candidate::act(table, occupancy, yard, slot, LinkIdx(link), flag_of(marks)))
}
