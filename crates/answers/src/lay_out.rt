// A lay out or a conversion: an image is written over the second input. Arguments of a lay out: train, room for diverge nodes, links, and the
// halves of the two distance settings.
use crate::{case, print};
use conversion;
use disp_structs::{Metres, floats};
use link_rules::link_idx::NarrowTrainIdx;
use link_rules::octets;
use link_rules::refusal::Refusal;
use std::io;
use train_disp::Settings;

pub(crate) fn answer(rt: &impl Print, head: &[u8], body: &[u8], sums: bool) -> io::Result<()> {
    let mut room = case::no_bytes();
    let n = case::second_input(head, body).len();
    if 65536 < n {
        return print::unread(rt);
    }
    answer_in(rt, head, body, &mut room[..n], sums)
}

fn answer_in(
    rt: &impl Print,
    head: &[u8],
    body: &[u8],
    image: &mut [u8],
    sums: bool,
) -> io::Result<()> {
    octets::put_bytes(image, 0, case::second_input(head, body));
    print_written(
        rt,
        written(head, case::first_input(head, body), image),
        image,
        sums,
    )
}

fn written(head: &[u8], from: &[u8], image: &mut [u8]) -> Result<(), Refusal> {
    if case::operation(head) == case::WIDEN {
        return conversion::widen(from, image);
    }
    if case::operation(head) == case::NARROW {
        return conversion::narrow(from, image);
    }
    train_disp::lay_out(from, settings_of(head), image)
}

pub(crate) fn settings_of(head: &[u8]) -> Settings {
    Settings {
        train_idx: NarrowTrainIdx((case::argument(head, 0) % 65536) as u16),
        dist_disp_path_search: Metres(setting(case::argument(head, 3), case::argument(head, 4))),
        dist_fixed_max: Metres(setting(case::argument(head, 5), case::argument(head, 6))),
        diverge_room: case::argument(head, 1),
        links: case::argument(head, 2),
    }
}

fn print_written(
    rt: &impl Print,
    f: Result<(), Refusal>,
    image: &[u8],
    sums: bool,
) -> io::Result<()> {
    print::answer(rt, f)?;
    if sums {
        return print::sum_line(rt, " image ", image);
    }
    print::end(rt)
}

// A float from the halves of its pattern; a NaN's becomes one that is not finite, which 7 refuses as well.
fn setting(low: u32, high: u32) -> f64 {
    let b = (low as u64) + 4294967296 * (high as u64);
    if b % 0x8000_0000_0000_0000 <= 0x7ff0_0000_0000_0000 {
        return floats::real_of(b);
    }
    floats::real_of(0x7ff0_0000_0000_0000)
}
