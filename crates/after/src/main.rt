// Reads a bundle on standard input, checks its yard, and writes the bundle that the check leaves and behind it the check's report; or `refused` and the number.
// At most 65,537 bytes are read: a longer input is refused by 17 as those are.
#![tactic(auto)]

ghost use Rattle.std.specs.Prelude.{◌≡◌, length};

use std::io;
use whole_input::read_full;
use yard_check::check::Answer;

fn input_room() -> [u8; 65537]
    ensures { 65537 ≡ length result }
{
    [0u8; 65537]
}

fn report_room() -> [u8; 1260]
    ensures { 1260 ≡ length result }
{
    [0u8; 1260]
}

fn print_left(rt: &impl Print, bundle: &[u8], report: &[u8]) -> io::Result<()> {
    rt.write_all(bundle)?;
    rt.write_all(report)
}

fn print_refused(rt: &impl Print, number: u16) -> io::Result<()> {
    println!(rt; "refused {number}")
}

fn check_and_print(rt: &impl Print, bundle: &mut [u8], report: &mut [u8]) -> io::Result<()> {
    match bundle_check::check_bundle(bundle, report) {
        Answer::Refused(r) => print_refused(rt, r.number),
        Answer::Erred(_) => print_left(rt, bundle, report),
        Answer::Done { .. } => print_left(rt, bundle, report),
    }
}

fn main(rt: HostRuntime) -> io::Result<()> {
    let mut bundle = input_room();
    let mut report = report_room();
    let got = read_full(&mut rt.reader(), &mut bundle)?;
    let rows = bundle_check::report_length(&bundle[..got]);
    if check_and_print(&rt, &mut bundle[..got], &mut report[..rows]).is_ok() {
        return Ok(());
    }
    rt.eprintln("after: standard output cannot be written")
}
