// A case of tools/oracle/README.md, in its head and the buffers behind it. Its answer and the outputs are not read, but for the calls of a list.
ghost use Rattle.std.specs.Prelude.{◌≡◌, ◌^◌, ◌<◌, length};

use link_rules::octets;

pub(crate) const MARK: u32 = 1;

pub(crate) const LAY_OUT: u32 = 2;

pub(crate) const UPDATE: u32 = 3;

pub(crate) const CHECK: u32 = 4;

pub(crate) const SHEET: u32 = 5;

pub(crate) const LIST: u32 = 12;

pub(crate) const PAGE: u32 = 13;

pub(crate) const PROFILE: u32 = 14;

pub(crate) const CEILING: u32 = 15;

pub(crate) const YARD_CEILING: u32 = 16;

pub(crate) const GAME: u32 = 22;

pub(crate) const VIEW: u32 = 24;

pub(crate) const ACT: u32 = 25;

pub(crate) const WIDE_MARK: u32 = 17;

pub(crate) const WIDE_UPDATE: u32 = 18;

pub(crate) const WIDE_CHECK: u32 = 19;

pub(crate) const WIDEN: u32 = 20;

pub(crate) const NARROW: u32 = 21;

pub(crate) const RECORDED_CHECK: u32 = 26;

pub(crate) const WIDE_RECORDED_CHECK: u32 = 27;

pub(crate) const UNDO: u32 = 28;

pub(crate) const INDEX: u32 = 29;

pub(crate) const INDEXED_CHECK: u32 = 30;

pub(crate) const WIDE_INDEXED_CHECK: u32 = 31;

pub(crate) const RECORDED_INDEXED_CHECK: u32 = 32;

pub(crate) const WIDE_RECORDED_INDEXED_CHECK: u32 = 33;

pub(crate) const INDEXED_LAY_OUT: u32 = 34;

pub(crate) const INDEXED_UNDO: u32 = 35;

pub(crate) const CARRY: u32 = 36;

pub(crate) const HALF_CHECK: u32 = 37;

// ---- the head: size, operation, tag, line, 8 arguments, 4 lengths of inputs, 8 numbers of the answer, 2 lengths of outputs

pub(crate) fn operation(head: &[u8]) -> u32 {
    octets::u32_at(head, 4)
}

pub(crate) fn argument(head: &[u8], i: u32) -> u32 {
    octets::u32_at(head, 16 + 4 * (i as usize))
}

fn input_len(head: &[u8], i: u32) -> u32 {
    octets::u32_at(head, 48 + 4 * (i as usize))
}

// How many bytes follow the head; a size below the head's counts as none.
pub(crate) fn body_size(head: &[u8]) -> usize {
    let size = octets::u32_at(head, 0) as usize;
    if size < 104 {
        return 0;
    }
    size - 104
}

// Do the inputs lie within the size?
pub(crate) fn is_whole(head: &[u8]) -> bool {
    if octets::u32_at(head, 0) < 104 {
        return false;
    }
    outputs_at(head) <= body_size(head)
}

// ---- the buffers

// Room for an image, a yard or a report, for an occupancy, for a blocking list and for an index.
pub(crate) fn no_bytes() -> [u8; 65536]
    ensures { 65536 ≡ length result }
{
    [0u8; 65536]
}

pub(crate) fn no_trains() -> [u16; 8192]
    ensures { 8192 ≡ length result }
{
    [0u16; 8192]
}

pub(crate) fn no_links() -> [u32; 8192]
    ensures { 8192 ≡ length result }
{
    [0u32; 8192]
}

pub(crate) fn no_entries() -> [u64; 8192]
    ensures { 8192 ≡ length result }
{
    [0u64; 8192]
}

// Fills a column with the u16 numbers that begin at `first` and stand `step` bytes apart; past the bytes they are 0.
pub(crate) fn u16s(to: &mut [u16], bytes: &[u8], first: usize, step: usize) {
    let mut at = first;
    for i in 0..to.len() {
        to[i] = octets::u16_at(bytes, at);
        at = std::num::wrapping_add_usize(at, step);
    }
}

// Fills a column with u32 numbers; past the bytes they are 0.
pub(crate) fn u32s(to: &mut [u32], bytes: &[u8]) {
    let mut at: usize = 0;
    for i in 0..to.len() {
        to[i] = octets::u32_at(bytes, at);
        at = std::num::wrapping_add_usize(at, 4);
    }
}

// Fills a column with u64 numbers; past the bytes they are 0.
pub(crate) fn u64s(to: &mut [u64], bytes: &[u8]) {
    let mut at: usize = 0;
    for i in 0..to.len() {
        to[i] = octets::u64_at(bytes, at);
        at = std::num::wrapping_add_usize(at, 8);
    }
}

// n bytes from a on; none where they do not lie within the slice.
pub(crate) fn part(s: &[u8], a: usize, n: usize) -> &[u8] {
    if s.len() < a {
        return &s[0..0];
    }
    if s.len() - a < n {
        return &s[0..0];
    }
    let e = a + n;
    &s[a..e]
}

pub(crate) fn first_input<'a>(head: &[u8], body: &'a [u8]) -> &'a [u8] {
    part(body, 0, input_len(head, 0) as usize)
}

pub(crate) fn second_input<'a>(head: &[u8], body: &'a [u8]) -> &'a [u8] {
    part(
        body,
        input_len(head, 0) as usize,
        input_len(head, 1) as usize,
    )
}

// How many bytes the first two inputs have.
fn two_inputs_len(head: &[u8]) -> usize
    ensures { result < 2 ^ 33 }
{
    (input_len(head, 0) as usize) + (input_len(head, 1) as usize)
}

pub(crate) fn third_input<'a>(head: &[u8], body: &'a [u8]) -> &'a [u8] {
    part(body, two_inputs_len(head), input_len(head, 2) as usize)
}

// How many bytes the first three inputs have.
fn three_inputs_len(head: &[u8]) -> usize
    ensures { result < 2 ^ 34 }
{
    two_inputs_len(head) + (input_len(head, 2) as usize)
}

pub(crate) fn fourth_input<'a>(head: &[u8], body: &'a [u8]) -> &'a [u8] {
    part(body, three_inputs_len(head), input_len(head, 3) as usize)
}

// Where the outputs begin.
fn outputs_at(head: &[u8]) -> usize
    ensures { result < 2 ^ 35 }
{
    three_inputs_len(head) + (input_len(head, 3) as usize)
}

// The calls of a list: its first output.
pub(crate) fn calls<'a>(head: &[u8], body: &'a [u8]) -> &'a [u8] {
    part(body, outputs_at(head), octets::u32_at(head, 96) as usize)
}
