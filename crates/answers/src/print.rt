// Answers on standard output. As soon as something cannot be written, no more is.
ghost use Rattle.std.specs.Prelude.{◌<◌};

use link_rules::refusal::Refusal;
use std::io;

pub(crate) fn bytes(rt: &impl Print, bytes: &[u8]) -> io::Result<()> {
    rt.write_all(bytes)
}

pub(crate) fn end(rt: &impl Print) -> io::Result<()> {
    rt.print("\n")
}

pub(crate) fn line(rt: &impl Print, words: &str) -> io::Result<()> {
    rt.println(words)
}

// A file or a case that cannot be read.
pub(crate) fn unread(rt: &impl Print) -> io::Result<()> {
    line(rt, "cannot be read")
}

pub(crate) fn number(rt: &impl Print, words: &str, n: u64) -> io::Result<()> {
    print!(rt; "{words}{n}")
}

// A line that ends in a number.
pub(crate) fn number_line(rt: &impl Print, words: &str, n: u64) -> io::Result<()> {
    println!(rt; "{words}{n}")
}

pub(crate) fn refused(rt: &impl Print, f: Refusal) -> io::Result<()> {
    number(rt, "refused ", f.number as u64)?;
    number(rt, " at ", f.place as u64)
}

pub(crate) fn answer(rt: &impl Print, answer: Result<(), Refusal>) -> io::Result<()> {
    match answer {
        Ok(()) => rt.print("done"),
        Err(r) => refused(rt, r),
    }
}

// ---- checksums: from 1 on, each byte is added to the sum by 16,777,619, modulo the prime 4,294,967,291

pub(crate) fn with(sum: u64, byte: u8) -> u64
    requires { sum < 4294967291 }
    ensures { result < 4294967291 }
{
    (sum * 16777619 + (byte as u64)) % 4294967291
}

pub(crate) fn sum_of(bytes: &[u8]) -> u64 {
    let mut sum: u64 = 1;
    for byte in bytes {
        sum = with(sum, *byte);
    }
    sum
}

// Of the bytes of numbers of 16 bits, the lower one first.
pub(crate) fn sum_of_u16s(col: &[u16], n: usize) -> u64 {
    let mut sum: u64 = 1;
    for i in 0..n {
        if col.len() <= i {
            return sum;
        }
        let low = with(sum, (col[i] % 256) as u8);
        sum = with(low, (col[i] / 256 % 256) as u8);
    }
    sum
}

// Of the bytes of numbers of 32 bits.
pub(crate) fn sum_of_u32s(col: &[u32]) -> u64 {
    let mut sum: u64 = 1;
    for n in col {
        sum = with_u32(sum, *n);
    }
    sum
}

fn with_u32(sum: u64, n: u32) -> u64
    requires { sum < 4294967291 }
    ensures { result < 4294967291 }
{
    let low = with(sum, (n % 256) as u8);
    let second = with(low, (n / 256 % 256) as u8);
    let third = with(second, (n / 65536 % 256) as u8);
    with(third, (n / 16777216 % 256) as u8)
}

// Of the bytes of numbers of 64 bits.
pub(crate) fn sum_of_u64s(col: &[u64]) -> u64 {
    let mut sum: u64 = 1;
    for n in col {
        let low = with_u32(sum, (*n % 4294967296) as u32);
        sum = with_u32(low, (*n / 4294967296 % 4294967296) as u32);
    }
    sum
}

// The checksum of a buffer at the end of a line.
pub(crate) fn sum_line(rt: &impl Print, words: &str, bytes: &[u8]) -> io::Result<()> {
    number_line(rt, words, sum_of(bytes))
}
