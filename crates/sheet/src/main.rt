// Reads a bundle on standard input and prints its sheet (document 01, Program sheet).
// At most 65,537 bytes are read: a longer input is refused by 17 as those are.
#![tactic(auto)]

ghost use Rattle.std.specs.Prelude.{◌≡◌, length};

use sheet_text::sheet;
use std::io;
use whole_input::read_full;

fn input_room() -> [u8; 65537]
    ensures { 65537 ≡ length result }
{
    [0u8; 65537]
}

// 4,096 bytes, which hold every sheet.
fn text_room() -> [u8; 4096]
    ensures { 4096 ≡ length result }
{
    [0u8; 4096]
}

fn main(rt: HostRuntime) -> io::Result<()> {
    let mut bundle = input_room();
    let mut text = text_room();
    let got = read_full(&mut rt.reader(), &mut bundle)?;
    let long = sheet::sheet(&bundle[..got], &mut text);
    if rt.write_all(&text[..long]).is_ok() {
        return Ok(());
    }
    rt.eprintln("sheet: standard output cannot be written")
}
