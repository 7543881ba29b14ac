// The page of a path (requests Q-1, Q-8 and Q-6): a line of 40 bytes for each node, read through the image's reader, its offset in whole metres from the bits.
// Every function here is proved, and the crate assumes nothing of its own. No public function has a `requires`.
#![tactic(auto)]

ghost use Rattle.std.specs.Prelude.{◌≡◌, true, ◌++◌, ℕ, ◌<◌};
ghost use Rattle.disp_structs.specs.Floats.{in_reach};
ghost use Rattle.link_rules.specs.Refusals.{raised};
ghost use Rattle.text.specs.Text.{text_of, Put};
ghost use Rattle.text.specs.Columns.{right_in};
ghost use Rattle.image.specs.Image.{node_at};
ghost use Rattle.path_page.specs.Page.{drawing_rule, field, kind_field, before_link, after_link, line_of, page_lines, page_fault, page_after};

use disp_structs::{DispNode, EstType};
use image::codec;
use image_fault;
use image_fault::Widths;
use image_reader;
use link_rules::refusal::{Refusal, refuse_unless};
use metres::{Ties, WholeMetres};
use text;

pub mod metres;

// ---- a line

// To the right in 5 columns, and a blank.
fn put_field(text: &mut [u8], count: usize, n: u32) -> usize
    ensures { Put (field n) (text_of count text.old) (text_of result text.new) }
{
    let a = text::put_signed(text, count, 5, false, n as u64);
    text::put_byte(text, a, 32)
}

// To the left in 6 columns, and a blank.
fn put_kind(text: &mut [u8], count: usize, kind: EstType) -> usize
    ensures { Put (kind_field kind) (text_of count text.old) (text_of result text.new) }
{
    match kind {
        EstType::Arrive => text::put_bytes(text, count, b"Arrive "),
        EstType::Clear => text::put_bytes(text, count, b"Clear  "),
        EstType::Fake => text::put_bytes(text, count, b"Fake   "),
    }
}

fn put_line(text: &mut [u8], count: usize, i: u32, x: DispNode, offset: WholeMetres) -> usize
    ensures { Put (before_link i x ++ (right_in 5 x.link_event.link_idx.0 ++ after_link offset)) (text_of count text.old) (text_of result text.new) }
{
    let est = x.est_idx;
    let event = x.link_event;
    let kind = event.est_type;
    let link = event.link_idx;
    let a = put_field(text, count, i);
    let b = put_field(text, a, est.0);
    let c = put_kind(text, b, kind);
    let d = put_field(text, c, link.0);
    let e = text::put_signed(text, d, 14, offset.minus, offset.metres);
    text::put_byte(text, e, 10)
}

// The line of node i, whose offset refusal 7 lets through.
fn put_node_line(ties: Ties, text: &mut [u8], count: usize, image: &[u8], i: u32) -> usize
    requires { in_reach (node_at image.now i).offset.0 ≡ true }
    ensures { Put (line_of ties i (node_at image.now i)) (text_of count text.old) (text_of result text.new) }
{
    let x = image_reader::node_of(image, i);
    let o = x.offset;
    let offset = metres::whole_metres(ties, o.0);
    put_line(text, count, i, x, offset)
}

// ---- the page

// The lines of the first n nodes.
fn put_lines(ties: Ties, text: &mut [u8], image: &[u8], n: u32) -> usize
    requires { (i : ℕ) → i < n → in_reach (node_at image.now i).offset.0 ≡ true }
    ensures { Put (page_lines ties (node_at image.now) n) (text_of 0 text.old) (text_of result text.new) }
{
    let mut count = 0;
    for i in 0..n {
        count = put_node_line(ties, text, count, image, i);
    }
    count
}

// The page of the path of an image of either width, or the refusal; a refused call leaves the page.
pub fn page(image: &[u8], page: &mut [u8]) -> Result<(), Refusal>
    ensures { (result ≡ raised (page_fault image.now page.old)) × (page.new ≡ page_after drawing_rule image.now page.old) }
{
    image_fault::fault_with(image, 4000, Widths::Either, Ok(()))?;
    let n = codec::path_count(image);
    refuse_unless(40 * (n as usize) <= page.len(), 18)?;
    put_lines(Ties::Even, page, image, n);
    Ok(())
}
