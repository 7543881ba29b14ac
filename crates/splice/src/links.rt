// links_on_path as flags: the links of the old nodes go, and those of the new ones come (free_path.rs 698-711).
ghost use Rattle.std.specs.Prelude.{◌≡◌, List, [], ◌≤◌, get_or, set, IfOk};
ghost use Rattle.link_rules.specs.declared.link_idx.LinkIdx.{LinkIdx};
ghost use Rattle.image.specs.Image.{node_at};
ghost use Rattle.free_path.specs.LinkOptType.{links_on_path};
ghost use Rattle.free_path.specs.Halts.{answered};
ghost use Rattle.disp_structs.specs.Listed.{listed};
ghost use Rattle.splice.specs.Flags.{links_of, flag_event, Holds, Gives, Below, exchanged, exchange_links};
ghost use Rattle.splice.specs.Answers.{AllBelow, ExchangesRange};

use disp_structs::{LinkEvent, events};
use free_path::halt::Halt;
use image::codec;
use link_rules::link_idx::LinkIdx;

fn flag_at(flags: &[u8], l: LinkIdx) -> u8
    ensures { result ≡ get_or flags.now l.0 0 }
{
    flags.get(l.0 as usize).copied().unwrap_or(0)
}

// With get_mut the goals stayed open, and the test is as plain.
fn put_flag(flags: &mut [u8], l: LinkIdx, x: u8)
    ensures { flags.new ≡ set flags.old l.0 x }
{
    let i = l.0 as usize;
    if i < flags.len() {
        flags[i] = x;
    }
}

// The link of an Arrive node is on the path.
fn flag_event(flags: &mut [u8], e: LinkEvent)
    ensures { flags.new ≡ flag_event e flags.old }
{
    if events::is_arrive(e.est_type) {
        put_flag(flags, e.link_idx, 1);
    }
}

// links_on_path of a path, over flags of 0.
fn flag_path(flags: &mut [u8], img: &[u8], n: u32)
    ensures { Holds flags.old [] → Holds flags.new (links_on_path (listed n (node_at img.now))) }
{
    for i in 0..n {
        flag_event(flags, codec::node_link_event(img, i));
    }
}

// The link of an Arrive node goes into the set, or out of it: a panic where it was there or not there before.
fn exchange_event(flags: &mut [u8], e: LinkEvent, there: bool) -> Result<(), Halt>
    ensures { (on : List LinkIdx) → Holds flags.old on → Below e → Gives result flags.new (exchanged there (links_of e) on) }
{
    if !events::is_arrive(e.est_type) {
        return Ok(());
    }
    let l = e.link_idx;
    let x = u8::from(there);
    if flag_at(flags, l) == x {
        return Err(Halt::Panic);
    }
    put_flag(flags, l, x);
    Ok(())
}

// The same for the nodes from a up to e.
fn exchange_range(flags: &mut [u8], img: &[u8], a: u32, e: u32, there: bool) -> Result<(), Halt>
    ensures { ExchangesRange flags.old img.now a e there result flags.new }
{
    for i in a..e {
        exchange_event(flags, codec::node_link_event(img, i), there)?;
    }
    Ok(())
}

// The links of the nodes from split up to base go, and those of the new path come.
pub(crate) fn exchange_links(
    img: &[u8],
    n: u32,
    split: u32,
    base: u32,
    fresh: &[u8],
    k: u32,
) -> Result<(), Halt>
    requires { AllBelow img.now n × AllBelow fresh.now k }
    ensures { (answered result ≡ exchange_links (listed n (node_at img.now)) (listed k (node_at fresh.now)) split base) × IfOk result (λ _. split ≤ base) }
{
    if base < split || n < base {
        return Err(Halt::Panic);
    }
    let mut flags = [0u8; 4000];
    flag_path(&mut flags, img, n);
    exchange_range(&mut flags, img, split, base, false)?;
    exchange_range(&mut flags, fresh, 0, k, true)
}
