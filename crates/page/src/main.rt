// Reads an image on standard input and prints the page of its path (requests Q-1 and Q-8), or `refused` and the number.
// The largest image, a wide one, has 41,024 bytes. One more is read, so that a longer input is refused by 6.
#![tactic(auto)]

ghost use Rattle.std.specs.Prelude.{◌≡◌, length};

use image::codec;
use path_page;
use std::io;
use whole_input::read_full;

fn input_room() -> [u8; 41025]
    ensures { 41025 ≡ length result }
{
    [0u8; 41025]
}

// 512 lines, as many as a path has nodes.
fn page_room() -> [u8; 20480]
    ensures { 20480 ≡ length result }
{
    [0u8; 20480]
}

fn main(rt: HostRuntime) -> io::Result<()> {
    let mut image = input_room();
    let mut page = page_room();
    let got = read_full(&mut rt.reader(), &mut image)?;
    if print_page(&rt, &image[..got], &mut page).is_ok() {
        return Ok(());
    }
    rt.eprintln("page: standard output cannot be written")
}

fn print_page(rt: &impl Print, image: &[u8], page: &mut [u8]) -> io::Result<()> {
    match path_page::page(image, page) {
        Ok(()) => {
            let long = 40 * (codec::path_count(image) as usize);
            rt.write_all(&page[..long])
        }
        Err(fault) => print_refused(rt, fault.number),
    }
}

fn print_refused(rt: &impl Print, number: u16) -> io::Result<()> {
    println!(rt; "refused {number}")
}
