// The answer of an update, and the image that it leaves (free_path.rs 636-637).
ghost use Rattle.std.specs.Prelude.{◌≡◌, false, List, ℕ};
ghost use Rattle.free_path.specs.Halts.{number_of, answered};
ghost use Rattle.link_rules.specs.Refusals.{refused};
ghost use Rattle.update_definition.specs.Update as Update;
ghost use Rattle.update_definition.specs.UpdateImage.{left_image, refused_answer};
ghost use Rattle.update_definition.specs.ImageTrain.{train_of};
ghost use Rattle.update_free_path.specs.Updates.{status_of, updated_of, is_refusal, errors_of, judged_by, status_by, StoreFits, AnswerFits, Answers};

use crate::rounds::{Ran, Stop};
use free_path::halt::Halt;
use image::codec::PathHeader;
use image_store;
use link_rules::link_idx::TrainIdx;
use link_rules::refusal::Refusal;
use tally;
use tally::Tally;
use validate;

#[derive(Clone, Copy)]
pub enum Status {
    Success,
    // By a train.
    Blocked(TrainIdx),
    Faulty(u64),
    Refused(Refusal),
}

// The train met is that of the first round.
#[derive(Clone, Copy)]
pub struct Updated {
    pub status: Status,
    pub tally: Tally,
    pub met: TrainIdx,
}

// A refusal within an update has place 0.
fn refusal_of(why: Halt) -> Refusal
    ensures { result ≡ refused (number_of why) 0 }
{
    match why {
        Halt::NoRoom => Refusal::new(11),
        Halt::Panic => Refusal::new(13),
    }
}

// Refused before anything is counted.
pub(crate) fn refused(f: Refusal) -> Updated
    ensures { (img : List ℕ) → updated_of result img ≡ refused_answer f img }
{
    Updated {
        status: Status::Refused(f),
        tally: tally::started(0),
        met: TrainIdx(0),
    }
}

// By the number of errors of the free path.
fn judged(errors: Result<u64, Halt>) -> Status
    ensures { status_of result ≡ judged_by (answered errors) }
{
    match errors {
        Ok(0) => Status::Success,
        Ok(n) => Status::Faulty(n),
        Err(why) => Status::Refused(refusal_of(why)),
    }
}

fn status_by(img: &[u8], occ: &[u32], stop: Stop, h: PathHeader) -> Status
    ensures { status_of result ≡ status_by stop (errors_of img.now occ.now h) }
{
    match stop {
        Stop::Halted(why) => Status::Refused(refusal_of(why)),
        Stop::OverLimit => Status::Refused(Refusal::new(12)),
        Stop::Blocked(holder) => Status::Blocked(holder),
        Stop::Ended => judged(validate::validate_free_path(img, h.path_count, occ, h.free as u32)),
    }
}

fn is_refusal(s: Status) -> bool
    ensures { result ≡ is_refusal s }
{
    matches!(s, Status::Refused(_))
}

// The errors that a status tells.
fn faults_in(s: Status) -> u64
    ensures { result ≡ Update.faults_in (status_of s) }
{
    match s {
        Status::Faulty(n) => n,
        _ => 0,
    }
}

// Of the train met a refused update keeps none.
fn met_in(s: Status, met: TrainIdx) -> TrainIdx
    ensures { result ≡ Update.met_in (status_of s) met }
{
    match s {
        Status::Refused(_) => TrainIdx(0),
        _ => met,
    }
}

// The train goes to the image unless the update is refused, without its path where the image has that.
fn leave(image: &mut [u8], img: &[u8], s: Status, h: PathHeader, same: bool, dt: &[u32], dn: &[u32])
    requires { is_refusal s ≡ false → StoreFits image.old img.now h same }
    ensures { image.new ≡ left_image (status_of s) (train_of img.now dt.now dn.now h) image.old }
{
    if is_refusal(s) {
        return;
    }
    if same {
        image_store::store_diverges(image, h, dt, dn);
        return;
    }
    image_store::store(image, img, h, dt, dn);
}

// The rounds have ended: what the update answers, and the image that it leaves.
pub(crate) fn answered(
    image: &mut [u8],
    img: &[u8],
    occ: &[u32],
    r: Ran,
    dt: &[u32],
    dn: &[u32],
) -> Updated
    requires { AnswerFits image.old img.now r }
    ensures { Answers image.old img.now occ.now dt.now dn.now r result image.new }
{
    let stop = r.stop;
    let h = r.header;
    let s = status_by(img, occ, stop, h);
    let t = r.tally;
    leave(image, img, s, h, r.same_path, dt, dn);
    Updated {
        status: s,
        tally: tally::counted_faults(t, faults_in(s)),
        met: met_in(s, r.met),
    }
}
