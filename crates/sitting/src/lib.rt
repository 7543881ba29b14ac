// Replay of a sitting (change request Q-2): the recorded marks, releases and checks of a candidate, made one by one over the starting yard.
// Every function here is proved, the crate assumes nothing of its own, and no public function has a `requires`.
#![tactic(auto)]

ghost use Rattle.std.specs.Prelude.{◌≡◌, ◌≤◌, ◌<◌, length};
ghost use Rattle.link_rules.specs.Network.{all_below, table_fits};
ghost use Rattle.yard_check.specs.Checks.{answered_of};
ghost use Rattle.sitting.specs.Replay.{step_at, mark_fits, check_fits, step_fits, recording_fits, mark_number, check_number, links_from, report_length, replay_of};
ghost use Rattle.sitting.specs.Steps.{Judges, CheckMade, MarkMade, StepMade, AllMade, replayed_of};

use link_rules::link_idx::{LinkIdx, NarrowTrainIdx};
use link_rules::refusal::Refusal;
use link_rules::{advance_rewind, network, octets};
use sheet_text::bundle;
use yard_check::check;

// A record of the recording, its numbers as document 02 lays them out: kind 0 is a mark or release of link `first` for `train`, kind 1 a check with `count` blocking links from index `first` on, moved train `train`.
#[derive(Clone, Copy)]
pub struct Step {
    pub kind: u32,
    pub first: u32,
    pub count: u32,
    pub train: u16,
    pub begin: u16,
    pub limit: u16,
    pub local: u16,
}

// What is found before the first step: whether the table is accepted, and how long a check's report is.
#[derive(Clone, Copy)]
pub(crate) struct Judged {
    pub table: bool,
    pub report: usize,
}

// ---- 19: a malformed recording

fn step_at(recording: &[u8], i: u32) -> Step
    ensures { result ≡ step_at recording.now i }
{
    let at = 12 + 20 * (i as usize);
    Step {
        kind: octets::u32_at(recording, at),
        first: octets::u32_at(recording, at + 4),
        count: octets::u32_at(recording, at + 8),
        train: octets::u16_at(recording, at + 12),
        begin: octets::u16_at(recording, at + 14),
        limit: octets::u16_at(recording, at + 16),
        local: octets::u16_at(recording, at + 18),
    }
}

// What a mark does not use is 0.
fn mark_fits(s: Step) -> bool
    ensures { result ≡ mark_fits s }
{
    s.count == 0 && s.begin == 0 && s.limit == 0 && s.local == 0
}

// The sum is taken in 64 bits, where it cannot wrap.
fn check_fits(s: Step, links: u32) -> bool
    ensures { result ≡ check_fits links s }
{
    s.kind == 1 && s.local <= 1 && (s.first as u64) + (s.count as u64) <= links as u64
}

fn step_fits(s: Step, links: u32) -> bool
    ensures { result ≡ step_fits links s }
{
    if s.kind == 0 {
        mark_fits(s)
    } else {
        check_fits(s, links)
    }
}

fn steps_fit(recording: &[u8], n: u32, links: u32) -> bool
    ensures { result ≡ all_below n (λ i. step_fits links (step_at recording.now i)) }
{
    (0..n).all(|i| step_fits(step_at(recording, i), links))
}

// Whether the recording is as document 02 lays it out.
fn recording_fits(recording: &[u8]) -> bool
    ensures { result ≡ recording_fits recording.now }
{
    let n = octets::u32_at(recording, 4);
    let links = octets::u32_at(recording, 8);
    octets::u32_at(recording, 0) as usize == recording.len()
        && recording.len() == 12 + 20 * (n as usize) + 4 * (links as usize)
        && steps_fit(recording, n, links)
}

// ---- the refusal of a step, 0 if there is none: numbers, as the list of document 02 has them

fn mark_number(answer: Result<(), Refusal>) -> u16
    ensures { result ≡ mark_number answer }
{
    match answer {
        Ok(()) => 0,
        Err(r) => r.number,
    }
}

fn check_number(answer: check::Answer) -> u16
    ensures { result ≡ check_number (answered_of answer) }
{
    match answer {
        check::Answer::Refused(r) => r.number,
        _ => 0,
    }
}

// ---- a check

// The links from index `first` on, as many as there is room for.
fn read_links(blocking: &mut [u32], recording: &[u8], first: u32)
    ensures { blocking.new ≡ links_from recording.now first (length blocking.old) }
{
    let at = 12 + 20 * (octets::u32_at(recording, 4) as usize) + 4 * (first as usize);
    for (i, x) in blocking.iter_mut().enumerate() {
        *x = octets::u32_at(recording, at + 4 * i);
    }
}

// Room is lent for the blocking links and for a report that nobody reads.
fn check_read(
    recording: &[u8],
    s: Step,
    yard: &mut [u8],
    occupancy: &[u16],
    blocking: &mut [u32],
    report: &mut [u8],
) -> u16
    ensures { CheckMade recording.now s (length blocking.old) (length report.old) yard.old occupancy.now result yard.new }
{
    read_links(blocking, recording, s.first);
    check_number(check::check_deadlock(
        yard,
        occupancy,
        blocking,
        NarrowTrainIdx(s.train),
        s.begin,
        s.local == 1,
        s.limit,
        report,
    ))
}

fn links_room() -> [u32; 4001]
    ensures { 4001 ≡ length result }
{
    [0u32; 4001]
}

// A record of 20 bytes for each of 63 slots.
fn report_room() -> [u8; 1260]
    ensures { 1260 ≡ length result }
{
    [0u8; 1260]
}

// One link more than a check takes is read: a longer list is refused as one of 4,001 is.
fn check_step(recording: &[u8], s: Step, rows: usize, yard: &mut [u8], occupancy: &[u16]) -> u16
    requires { rows ≤ 1260 }
    ensures { CheckMade recording.now s s.count rows yard.old occupancy.now result yard.new }
{
    let mut blocking = links_room();
    let mut report = report_room();
    let n = s.count.min(4001) as usize;
    check_read(
        recording,
        s,
        yard,
        occupancy,
        &mut blocking[..n],
        &mut report[..rows],
    )
}

// ---- a mark or release

fn mark_step(table: &[u8], fits: bool, occupancy: &mut [u16], s: Step) -> u16
    requires { fits ≡ table_fits table.now }
    ensures { MarkMade table.now s occupancy.old result occupancy.new }
{
    mark_number(advance_rewind::mark_judged(
        table,
        fits,
        occupancy,
        LinkIdx(s.first),
        NarrowTrainIdx(s.train),
    ))
}

// ---- all steps

fn make_step(
    recording: &[u8],
    s: Step,
    table: &[u8],
    j: Judged,
    yard: &mut [u8],
    occupancy: &mut [u16],
) -> u16
    requires { Judges table.now j }
    ensures { StepMade recording.now j.report s table.now occupancy.old yard.old result occupancy.new yard.new }
{
    if s.kind == 0 {
        mark_step(table, j.table, occupancy, s)
    } else {
        check_step(recording, s, j.report, yard, occupancy)
    }
}

// A refused step changes nothing, and the replay goes on.
fn make_steps(
    recording: &[u8],
    table: &[u8],
    j: Judged,
    yard: &mut [u8],
    occupancy: &mut [u16],
    list: &mut [u16],
)
    requires { Judges table.now j × (length list.old < 4294967296) }
    ensures { AllMade recording.now j.report table.now occupancy.old yard.old list.old occupancy.new yard.new list.new }
{
    for (i, number) in list.iter_mut().enumerate() {
        let s = step_at(recording, i as u32);
        *number = make_step(recording, s, table, j, yard, occupancy);
    }
}

// How long the report of a check of this yard is; none where 14 refuses the yard.
fn report_length(yard: &[u8]) -> usize
    ensures value { result ≡ report_length yard.now }
    ensures upper_bound { result ≤ 1260 }
{
    20 * (bundle::report_slots(yard) as usize)
}

// Plays a recording over a yard and an occupancy: each step's refusal goes to the list, 0 if there is none. Refused by 19 alone, a malformed recording or a list
// that has not an entry for each step: then nothing is changed. The table is judged once.
pub fn replay(
    recording: &[u8],
    table: &[u8],
    yard: &mut [u8],
    occupancy: &mut [u16],
    list: &mut [u16],
) -> Result<(), Refusal>
    ensures { replayed_of result yard.new occupancy.new list.new
        ≡ replay_of recording.now table.now yard.old occupancy.old list.old }
{
    if octets::u32_at(recording, 4) as usize != list.len() || !recording_fits(recording) {
        return Err(Refusal::new(19));
    }
    let j = Judged {
        table: network::table_fits(table),
        report: report_length(yard),
    };
    make_steps(recording, table, j, yard, occupancy, list);
    Ok(())
}
