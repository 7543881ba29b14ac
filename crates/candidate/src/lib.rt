// Examiner and candidate (change request Q-11): a candidate runs the train of one slot. They see its path, a record at a time, and of each Arrive link on it
// whether it is taken; they mark or release those links for that train and learn whether it was done.
// Every function here is proved, the crate assumes nothing of its own, and no public function has a `requires`.
#![tactic(auto)]

ghost use Rattle.std.specs.Prelude.{◌≡◌, ◌||◌, min};
ghost use Rattle.link_rules.specs.Refusals.{raised};
ghost use Rattle.link_rules.specs.AdvanceRewind.{marked};
ghost use Rattle.image.specs.Image.{path_count_of, node_at};
ghost use Rattle.image_fault.specs.ImageFault.{arrives_on, arrived};
ghost use Rattle.yard_check.specs.Yard.{image_in};
ghost use Rattle.candidate.specs.Candidate.{node_bytes, sitting_fault, view_fault, act_fault, link_taken, shown, seen_as, view_of, train_given, act_of};

use disp_structs::{LinkEvent, events};
use image::codec;
use image_fault;
use link_rules::link_idx::{LinkIdx, TrainIdx};
use link_rules::network;
use link_rules::refusal::{Refusal, refuse_unless};
use text;
use wide_occupancy::{advance_rewind, trains};
use yard_check::yard;

// Shows the path record of a node, as many of its 32 bytes as `buffer` has room for, and tells whether its link is taken. Refused by 1, 2, 22, 14, 26, 27: then
// `buffer` stays.
pub fn view(
    table: &[u8],
    occupancy: &[u32],
    yard: &[u8],
    slot: u16,
    node: u32,
    buffer: &mut [u8],
) -> Result<bool, Refusal>
    ensures { seen_as (view_of table.now occupancy.now yard.now slot node buffer.old) result buffer.new }
{
    view_fault(table, occupancy, yard, slot, node)?;
    let image = candidate_image(yard, slot);
    show(image, node, buffer);
    Ok(node_taken(occupancy, image, node))
}

// Marks a link for the train of the slot, or releases it whoever holds it. Refused by 1, 2, 22, 14, 26, 27: then nothing is changed.
pub fn act(
    table: &[u8],
    occupancy: &mut [u32],
    yard: &[u8],
    slot: u16,
    link: LinkIdx,
    marks: bool,
) -> Result<(), Refusal>
    ensures { marked result occupancy.new ≡ act_of table.now occupancy.old yard.now slot link marks }
{
    act_fault(table, occupancy, yard, slot, link)?;
    advance_rewind::update_links_blocked(table, occupancy, link, train_of(slot, marks));
    Ok(())
}

// ---- refusals

// 1, 2, 22, 14, 26.
fn sitting_fault(table: &[u8], occupancy: &[u32], yard: &[u8], slot: u16) -> Result<(), Refusal>
    ensures { result ≡ raised (sitting_fault table.now occupancy.now yard.now slot) }
{
    let links = network::link_count(table);
    refuse_unless(network::table_fits(table), 1)?;
    refuse_unless(occupancy.len() == links as usize, 2)?;
    trains::large_train_fault(occupancy, TrainIdx(0), 999999)?;
    refuse_unless(yard::yard_fits(yard), 14)?;
    refuse_unless(
        image_fault::is_accepted(candidate_image(yard, slot), links),
        26,
    )
}

// Then 27: a node beyond the path.
fn view_fault(
    table: &[u8],
    occupancy: &[u32],
    yard: &[u8],
    slot: u16,
    node: u32,
) -> Result<(), Refusal>
    ensures { result ≡ raised (view_fault table.now occupancy.now yard.now slot node) }
{
    sitting_fault(table, occupancy, yard, slot)?;
    refuse_unless(node < codec::path_count(candidate_image(yard, slot)), 27)
}

// Then 27: a link that is none of the path's Arrive links. A refused image's path is not walked.
fn act_fault(
    table: &[u8],
    occupancy: &[u32],
    yard: &[u8],
    slot: u16,
    link: LinkIdx,
) -> Result<(), Refusal>
    ensures { result ≡ raised (act_fault table.now occupancy.now yard.now slot link) }
{
    sitting_fault(table, occupancy, yard, slot)?;
    refuse_unless(arrives(candidate_image(yard, slot), link), 27)
}

// ---- the candidate's image

fn candidate_image(yard: &[u8], slot: u16) -> &[u8]
    ensures { result.now ≡ image_in yard.now slot }
{
    yard::image_in(yard, TrainIdx(slot as u32))
}

// One of the path's nodes is an Arrive on the link.
fn arrives(image: &[u8], link: LinkIdx) -> bool
    ensures { result ≡ arrived image.now link (path_count_of image.now) }
{
    let n = codec::path_count(image);
    let mut found = false;
    for i in 0..n {
        found = either(found, arrives_on(codec::node_link_event(image, i), link));
    }
    found
}

fn either(a: bool, b: bool) -> bool
    ensures { result ≡ (a || b) }
{
    if a {
        return true;
    }
    b
}

fn arrives_on(event: LinkEvent, link: LinkIdx) -> bool
    ensures { result ≡ arrives_on link event }
{
    let t = event.est_type;
    if events::is_arrive(t) {
        return event.link_idx.0 == link.0;
    }
    false
}

// ---- what is shown, and for whom is marked

fn show(image: &[u8], node: u32, buffer: &mut [u8])
    ensures { buffer.new ≡ shown image.now node buffer.old }
{
    text::put_bytes(buffer, 0, node_bytes(image, node));
}

// The 32 bytes of a path record; fewer where the image ends before.
fn node_bytes(image: &[u8], node: u32) -> &[u8]
    ensures { result.now ≡ node_bytes image.now node }
{
    let at = codec::node_place(codec::est_count(image), node);
    let a = at_most(at, image.len());
    let e = at_most(at + 32, image.len());
    &image[a..e]
}

fn at_most(a: usize, b: usize) -> usize
    ensures { result ≡ min a b }
{
    if a < b {
        return a;
    }
    b
}

fn node_taken(occupancy: &[u32], image: &[u8], node: u32) -> bool
    ensures { result ≡ link_taken occupancy.now (node_at image.now node).link_event }
{
    let event = codec::node_link_event(image, node);
    let t = event.est_type;
    if events::is_arrive(t) {
        return advance_rewind::train_at(occupancy, event.link_idx.0) != 0;
    }
    false
}

// The slot's own train, or 0 for a release.
fn train_of(slot: u16, marks: bool) -> TrainIdx
    ensures { result ≡ train_given slot marks }
{
    if marks {
        return TrainIdx(slot as u32);
    }
    TrainIdx(0)
}
