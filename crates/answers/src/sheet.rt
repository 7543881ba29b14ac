// The sheet of a bundle.
ghost use Rattle.std.specs.Prelude.{◌≡◌, length};

use crate::{case, print};
use sheet_text::sheet;
use std::io;

// 4,096 bytes hold every sheet.
fn text_room() -> [u8; 4096]
    ensures { 4096 ≡ length result }
{
    [0u8; 4096]
}

pub(crate) fn answer(rt: &impl Print, head: &[u8], body: &[u8], sums: bool) -> io::Result<()> {
    let mut text = text_room();
    let long = sheet::sheet(case::first_input(head, body), &mut text);
    if sums {
        return print::sum_line(rt, "sheet ", case::part(&text, 0, long));
    }
    print::bytes(rt, case::part(&text, 0, long))
}
