// Reads a sitting on standard input (docs/LAYOUTS.md), plays its recording over its yard and occupancy, and prints the refusal of each step (0 if there is none), then
// each slot with its free node and the number of its path nodes, then each occupied link with its train; or `refused 19` for a malformed sitting or recording.
// At most 262,145 bytes are read: a longer input is refused by 19 as those are.
#![tactic(auto)]

ghost use Rattle.std.specs.Prelude.{◌≡◌, length};

use image::codec;
use image_fault;
use image_reader;
use link_rules::link_idx::TrainIdx;
use link_rules::octets;
use sheet_text::bundle;
use sitting;
use std::io;
use whole_input::read_full;
use yard_check::yard;

// ---- room

fn input_room() -> [u8; 262145]
    ensures { 262145 ≡ length result }
{
    [0u8; 262145]
}

fn yard_room() -> [u8; 262144]
    ensures { 262144 ≡ length result }
{
    [0u8; 262144]
}

fn occupancy_room() -> [u16; 4000]
    ensures { 4000 ≡ length result }
{
    [0u16; 4000]
}

// As many steps as 262,144 bytes can have.
fn list_room() -> [u16; 13107]
    ensures { 13107 ≡ length result }
{
    [0u16; 13107]
}

// ---- lines

fn print_refused(rt: &impl Print, number: u16) -> io::Result<()> {
    println!(rt; "refused {number}")
}

fn print_step(rt: &impl Print, step: u64, number: u16) -> io::Result<()> {
    println!(rt; "step {step} {number}")
}

// Steps count from 1.
fn print_steps(rt: &impl Print, list: &[u16]) -> io::Result<()> {
    for (i, number) in list.iter().enumerate() {
        print_step(rt, (i as u64) + 1, *number)?;
    }
    Ok(())
}

fn print_columns(rt: &impl Print, free: u16, nodes: u32) -> io::Result<()> {
    println!(rt; " {free} {nodes}")
}

// Finished where free is the number of path nodes.
fn print_free(rt: &impl Print, free: u16, nodes: u32) -> io::Result<()> {
    if free as u32 == nodes {
        rt.print(" finished")?;
        return print_columns(rt, free, nodes);
    }
    rt.print(" unfinished")?;
    print_columns(rt, free, nodes)
}

// An image that 6 to 9 refuse over so many links has no columns but 0.
fn print_slot(rt: &impl Print, t: u32, image: &[u8], links: u32) -> io::Result<()> {
    print!(rt; "slot {t}")?;
    if let Err(fault) = image_fault::image_fault(image, links) {
        print!(rt; " refused-{}", fault.number)?;
        return print_columns(rt, 0, 0);
    }
    print_free(rt, image_reader::free_of(image), codec::path_count(image))
}

// None of a yard that 14 refuses.
fn print_slots(rt: &impl Print, yard: &[u8], links: u32) -> io::Result<()> {
    for i in 0..bundle::report_slots(yard) {
        print_slot(rt, i + 1, yard::part(yard, TrainIdx(i + 1)), links)?;
    }
    Ok(())
}

fn print_link(rt: &impl Print, link: u64, train: u16) -> io::Result<()> {
    if train == 0 {
        return Ok(());
    }
    println!(rt; "link {link} by {train}")
}

fn print_links(rt: &impl Print, occupancy: &[u16]) -> io::Result<()> {
    for (l, train) in occupancy.iter().enumerate() {
        print_link(rt, l as u64, *train)?;
    }
    Ok(())
}

fn print_played(
    rt: &impl Print,
    yard: &[u8],
    occupancy: &[u16],
    list: &[u16],
    links: u32,
) -> io::Result<()> {
    print_steps(rt, list)?;
    print_slots(rt, yard, links)?;
    print_links(rt, occupancy)
}

// ---- the sitting

// Room is lent for the yard, the occupancy and the list.
fn play_parts(
    rt: &impl Print,
    file: &[u8],
    table: &[u8],
    start: &[u8],
    recording: &[u8],
    yard: &mut [u8],
    occupancy: &mut [u16],
    list: &mut [u16],
) -> io::Result<()> {
    bundle::read_occupancy(occupancy, file);
    octets::put_bytes(yard, 0, start);
    let links = octets::u32_at(file, 8);
    match sitting::replay(recording, table, yard, occupancy, list) {
        Ok(()) => print_played(rt, yard, occupancy, list, links),
        Err(r) => print_refused(rt, r.number),
    }
}

// Size, the occupancy's place and count, the table's place, 8 spare bytes.
fn header_fits(file: &[u8]) -> bool {
    if 262144 < file.len() {
        return false;
    }
    if octets::u32_at(file, 0) as usize != file.len() {
        return false;
    }
    if octets::u32_at(file, 4) != 32 {
        return false;
    }
    if octets::u32_at(file, 12) as usize != 32 + 2 * (octets::u32_at(file, 8) as usize) {
        return false;
    }
    octets::u64_at(file, 24) == 0
}

fn play(rt: &impl Print, file: &[u8]) -> io::Result<()> {
    let mut yard_left = yard_room();
    let mut occupancy = occupancy_room();
    let mut list = list_room();
    let links = octets::u32_at(file, 8) as usize;
    let table = octets::u32_at(file, 12) as usize;
    let yard = octets::u32_at(file, 16) as usize;
    let recording = octets::u32_at(file, 20) as usize;
    let steps = octets::u32_at(file, recording + 4) as usize;
    if !header_fits(file) || yard < table || recording < yard || file.len() < recording {
        return print_refused(rt, 19);
    }
    let size = recording - yard;
    if 262144 < size || 4000 < links || 13107 < steps {
        return print_refused(rt, 19);
    }
    play_parts(
        rt,
        file,
        &file[table..yard],
        &file[yard..recording],
        &file[recording..],
        &mut yard_left[..size],
        &mut occupancy[..links],
        &mut list[..steps],
    )
}

fn main(rt: HostRuntime) -> io::Result<()> {
    let mut file = input_room();
    let got = read_full(&mut rt.reader(), &mut file)?;
    if play(&rt, &file[..got]).is_ok() {
        return Ok(());
    }
    rt.eprintln("replay: standard output cannot be written")
}
