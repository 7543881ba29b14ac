// The check over the images of two yards (document 02, Q-7): slots 1 to count lie in a second yard, the others in the first. The loop over the slots is
// check's, once in each yard, the second first.
ghost use Rattle.std.specs.Prelude.{◌≡◌, true, not, [], ◌+◌, eqb, length};
ghost use Rattle.image.specs.Image.{is_wide};
ghost use Rattle.image_fault.specs.declared.Widths.TheVariants.{Either};
ghost use Rattle.link_rules.specs.Network.{all_below};
ghost use Rattle.link_rules.specs.Refusals.{raised};
ghost use Rattle.yard_check.specs.Yard.{yard_fits};
ghost use Rattle.yard_check.specs.Check.{answer_by};
ghost use Rattle.yard_check.specs.Checks.{args_of};
ghost use Rattle.yard_check.specs.Pair.{pair_image, part_lies, second_lies, late_fault, pair_fault, pair_of, pair_done, pair_checked, pair_checked_of};

use crate::check::{Answer, Args, Counts, Given, Span};
use crate::{check, yard};
use image::codec;
use image_fault::Widths;
use link_rules::link_idx::TrainIdx;
use link_rules::octets;
use link_rules::refusal::{Refusal, refuse_unless};
use update_free_path::call;
use wide_occupancy::trains;

// ---- 24: the count, and where the parts of the second yard lie

fn part_lies(yard: &[u8], t: u32) -> bool
    ensures { result ≡ part_lies yard.now t }
{
    64 <= yard::part(yard, TrainIdx(t)).len()
}

fn parts_lie(yard: &[u8], slots: u32) -> bool
    ensures { result ≡ all_below slots (λ i. part_lies yard.now (i + 1)) }
{
    (0..slots).all(|i| part_lies(yard, i + 1))
}

fn second_lies(yard: &[u8], second: &[u8], count: u32) -> bool
    requires { yard_fits yard.now ≡ true }
    ensures { result ≡ second_lies yard.now second.now count }
{
    let slots = yard::slot_count(yard);
    1 <= count
        && count < slots
        && yard::slot_count(second) == slots
        && octets::u32_at(second, 0) as usize == second.len()
        && octets::u32_at(second, 8) == 8 + 4 * slots
        && parts_lie(second, slots)
}

// ---- 22: the largest train that every image holds

fn slot_wide(yard: &[u8], second: &[u8], count: u32, t: u32) -> bool
    ensures { result ≡ is_wide (pair_image yard.now second.now count t) }
{
    let own = if t <= count { second } else { yard };
    codec::is_wide(yard::part(own, TrainIdx(t)))
}

fn all_wide(yard: &[u8], second: &[u8], count: u32, slots: u32) -> bool
    ensures { result ≡ all_below slots (λ i. is_wide (pair_image yard.now second.now count (i + 1))) }
{
    (0..slots).all(|i| slot_wide(yard, second, count, i + 1))
}

// ---- refusals 2, 4, 5, 14, 24, 22, 15 and 16, in this order

// 22, 15, 16; long is the length of the report.
fn late_fault(
    yard: &[u8],
    second: &[u8],
    count: u32,
    occ: &[u32],
    a: Args,
    long: usize,
) -> Result<(), Refusal>
    ensures { result ≡ raised (late_fault yard.now second.now count occ.now (args_of Either [] a) long) }
{
    let slots = yard::slot_count(yard);
    let top = check::largest_of(all_wide(yard, second, count, slots));
    trains::large_train_fault(occ, TrainIdx(0), top)?;
    check::slots_or_report_fault(true, slots, a, long)
}

fn pair_fault(
    yard: &[u8],
    second: &[u8],
    count: u32,
    occ: &[u32],
    blocking: &[u32],
    a: Args,
    long: usize,
) -> Result<(), Refusal>
    ensures { result ≡ raised (pair_fault yard.now second.now count occ.now (args_of Either blocking.now a) long) }
{
    call::call_fault(occ.len(), blocking, a.moved, a.limit)?;
    refuse_unless(yard::yard_fits(yard), 14)?;
    refuse_unless(second_lies(yard, second, count), 24)?;
    late_fault(yard, second, count, occ, a, long)
}

// ---- the visits

// Slots 1 to count in the second yard, then the others in the first, with the counts of those.
fn visits_pair(
    yard: &mut [u8],
    second: &mut [u8],
    count: u32,
    occ: &[u32],
    blocking: &[u32],
    a: Args,
    report: &mut [u8],
    room: &mut [u8],
) -> Counts
    requires { (pair_fault yard.old second.old count occ.now (args_of Either blocking.now a) (length report.old)).number ≡ 0 }
    ensures { pair_of (answer_by result.erred (not (eqb result.blocked 0)) result.next) yard.new second.new report.new
        ≡ pair_done yard.old second.old count occ.now (args_of Either blocking.now a) report.old }
{
    let low = Span {
        from: 0,
        until: count as u16,
        wide: true,
    };
    let high = Span {
        from: count as u16,
        until: yard::slot_count(yard) as u16,
        wide: true,
    };
    let none = Counts {
        erred: 0,
        blocked: 0,
        next: a.begin,
        changed: 0,
    };
    let g = Given {
        widths: Widths::Either,
        occ,
        blocking,
        args: a,
    };
    let y = check::visits(second, &g, low, none, report, room);
    check::visits(yard, &g, high, y, report, room)
}

// Visits every slot from begin on, each in its yard. Refused by 2, 4, 5, 14, 24, 22, 15 and 16: then nothing is changed.
pub fn check_pair(
    yard: &mut [u8],
    second: &mut [u8],
    count: u32,
    occ: &[u32],
    blocking: &[u32],
    a: Args,
    report: &mut [u8],
) -> Answer
    ensures { pair_checked_of result yard.new second.new report.new
        ≡ pair_checked yard.old second.old count occ.now (args_of Either blocking.now a) report.old }
{
    if let Err(f) = pair_fault(yard, second, count, occ, blocking, a, report.len()) {
        return Answer::Refused(f);
    }
    let mut none = [0u8; 1];
    let y = visits_pair(
        yard,
        second,
        count,
        occ,
        blocking,
        a,
        report,
        &mut none[..0],
    );
    check::answered(y)
}
