// The check of a bundle's yard in the bundle, for those who want to see what a check did: the bundle's yard becomes the one that the check leaves, so that
// the bundle can be drawn or checked again. Assumes nothing; no public function has a `requires`.
#![tactic(auto)]

ghost use Rattle.std.specs.Prelude.{◌≡◌, true, ◌≤◌, length, take};
ghost use Rattle.sheet_text.specs.Sheet.{bundle_fits};
ghost use Rattle.bundle_check.specs.BundleCheck.{Lends, report_length, numbers_of, checked_from, leaves, checked_in_bundle, bundle_checked, bundle_of};

use link_rules::link_idx::NarrowTrainIdx;
use link_rules::octets;
use link_rules::refusal::Refusal;
use sheet_text::bundle;
use yard_check::check;
use yard_check::check::Answer;

// The numbers of a check.
#[derive(Clone, Copy)]
pub struct Numbers {
    pub moved: NarrowTrainIdx,
    pub begin: u16,
    pub local: bool,
    pub limit: u16,
}

// How many bytes the report of a bundle's yard takes, at most 1,260; none where 14 refuses the yard.
pub fn report_length(bundle: &[u8]) -> usize
    ensures value { result ≡ report_length bundle.now }
    ensures upper_bound { result ≤ 1260 }
{
    let at = octets::u32_at(bundle, 20) as usize;
    if bundle.len() < at {
        return 0;
    }
    20 * (bundle::report_slots(&bundle[at..]) as usize)
}

fn numbers_of(bundle: &[u8]) -> Numbers
    ensures { result ≡ numbers_of bundle.now }
{
    Numbers {
        moved: NarrowTrainIdx(octets::u16_at(bundle, 24)),
        begin: octets::u16_at(bundle, 26),
        local: octets::u16_at(bundle, 30) == 1,
        limit: octets::u16_at(bundle, 28),
    }
}

// The check of the yard that stands in the bytes from `at` on.
fn check_from(
    bytes: &mut [u8],
    at: usize,
    occ: &[u16],
    blocking: &[u32],
    n: Numbers,
    report: &mut [u8],
) -> Answer
    requires { at ≤ length bytes.old }
    ensures { bundle_of result bytes.new report.new ≡ leaves (take at bytes.old) (checked_from at bytes.old occ.now blocking.now n report.old) }
{
    check::check_deadlock(
        &mut bytes[at..],
        occ,
        blocking,
        n.moved,
        n.begin,
        n.local,
        n.limit,
        report,
    )
}

// Room is lent for the occupancy and the blocking links.
fn check_read(bundle: &mut [u8], occ: &mut [u16], blocking: &mut [u32], report: &mut [u8]) -> Answer
    requires { Lends bundle.old occ.old blocking.old }
    ensures { bundle_of result bundle.new report.new ≡ checked_in_bundle bundle.old report.old }
{
    bundle::read_occupancy(occ, bundle);
    bundle::read_blocking(blocking, bundle);
    let n = numbers_of(bundle);
    let at = octets::u32_at(bundle, 20) as usize;
    check_from(bundle, at, occ, blocking, n, report)
}

fn check_fitting(bundle: &mut [u8], report: &mut [u8]) -> Answer
    requires { bundle_fits bundle.old ≡ true }
    ensures { bundle_of result bundle.new report.new ≡ checked_in_bundle bundle.old report.old }
{
    let mut occ = bundle::occupancy_room();
    let mut blocking = bundle::blocking_room();
    let links = octets::u32_at(bundle, 8) as usize;
    let count = octets::u32_at(bundle, 16) as usize;
    check_read(bundle, &mut occ[..links], &mut blocking[..count], report)
}

// Checks the yard of a bundle in place: 17 for a bad bundle, 16 for a report that has not `report_length` bytes, the others as a check has them.
pub fn check_bundle(bundle: &mut [u8], report: &mut [u8]) -> Answer
    ensures { bundle_of result bundle.new report.new ≡ bundle_checked bundle.old report.old }
{
    if !bundle::bundle_fits(bundle) {
        return Answer::Refused(Refusal::new(17));
    }
    check_fitting(bundle, report)
}
