// Going wide and going narrow (document 02, Q-6): an image is read, and written in the other width.
// Every function here is proved, the crate assumes nothing of its own, and no public function has a `requires`.
#![tactic(auto)]

ghost use Rattle.std.specs.Prelude.{◌≡◌, true, false, ℕ, ◌≤◌, ◌<◌, length, get_or};
ghost use Rattle.link_rules.specs.Network.{all_below};
ghost use Rattle.link_rules.specs.Refusals.{no_refusal, refused_unless, or_else, raised};
ghost use Rattle.disp_structs.specs.Listed.{listed};
ghost use Rattle.image.specs.Image.{est_count, diverge_room, is_wide, image_size, diverge_at};
ghost use Rattle.image.specs.Codec.{decoded, encoded};
ghost use Rattle.image_fault.specs.ImageFault.{fault_with};
ghost use Rattle.image_fault.specs.declared.Widths.TheVariants.{Either};
ghost use Rattle.image_store.specs.Stored.{diverges_into};
ghost use Rattle.conversion.specs.Conversion.{out_fault, widen_fault, narrow_fault, fits_narrow, after_widen, after_narrow};

use image::codec;
use image_fault;
use image_fault::Widths;
use link_rules::octets;
use link_rules::refusal::{Refusal, refuse_unless};

// The first n bytes of an image.
fn copy_front(image: &[u8], out: &mut [u8], n: usize)
    requires { (n ≤ length image.now) × (n ≤ length out.old) }
    ensures { (length out.new ≡ length out.old)
        × ((i : ℕ) → i < n → get_or out.new i 0 ≡ get_or image.now i 0)
        × ((i : ℕ) → n ≤ i → get_or out.new i 0 ≡ get_or out.old i 0) }
{
    out[..n].copy_from_slice(&image[..n]);
}

// The first diverge nodes of one image go to another.
fn put_diverges(image: &[u8], out: &mut [u8], count: u32)
    ensures { out.new ≡ diverges_into (is_wide out.old) (listed count (diverge_at image.now)) out.old }
{
    for i in 0..count {
        let d = codec::diverge_at(image, i);
        codec::put_diverge(out, i, d);
    }
}

// Every byte of out is written: all before the diverge records is the same but for the size and the width.
fn convert(image: &[u8], out: &mut [u8], wide: bool)
    requires { ((fault_with Either no_refusal image.now 4000).number ≡ 0) × (length out.old ≡ image_size wide (est_count image.now) (diverge_room image.now)) }
    ensures { out.new ≡ encoded wide (decoded image.now) }
{
    let e = codec::est_count(image);
    let size = codec::diverge_place(wide, e, codec::diverge_room(image)) as u32;
    codec::zero_all(out);
    copy_front(image, out, codec::diverge_place(wide, e, 0));
    octets::put_u32(out, 0, size);
    octets::put_u16(out, 42, wide as u16);
    put_diverges(image, out, codec::diverge_count(image));
}

// 6: the output of an image of a width has the wrong size.
fn out_fault(image: &[u8], wide: bool, size: usize) -> Result<(), Refusal>
    ensures { result ≡ raised (out_fault wide image.now size) }
{
    let e = codec::est_count(image);
    let q = codec::diverge_room(image);
    refuse_unless(size == codec::diverge_place(wide, e, q), 6)
}

// Writes a narrow image wide. Refused by 6 to 9: then out is not changed.
pub fn widen(image: &[u8], out: &mut [u8]) -> Result<(), Refusal>
    ensures { (result ≡ raised (widen_fault image.now (length out.old)))
        × (out.new ≡ after_widen image.now out.old) }
{
    let own = out_fault(image, true, out.len());
    image_fault::fault_with(image, 4000, Widths::Narrow, own)?;
    convert(image, out, true);
    Ok(())
}

fn fits_narrow(image: &[u8], i: u32) -> bool
    ensures { result ≡ fits_narrow image.now i }
{
    let d = codec::diverge_at(image, i);
    d.train_idx.0 <= 65535
}

fn trains_fit(image: &[u8], m: u32) -> bool
    ensures { result ≡ all_below m (fits_narrow image.now) }
{
    (0..m).all(|i| fits_narrow(image, i))
}

// 6: going narrow of a narrow image, or the output's size.
fn narrow_own(image: &[u8], size: usize) -> Result<(), Refusal>
    ensures { result ≡ raised (or_else (refused_unless (is_wide image.now) 6) (out_fault false image.now size)) }
{
    refuse_unless(codec::is_wide(image), 6)?;
    out_fault(image, false, size)
}

// Refusals 6 to 9, 22 and 23, which is asked of an image that has none of the others: until then its count may be any number.
fn narrow_fault(image: &[u8], size: usize) -> Result<(), Refusal>
    ensures { result ≡ raised (narrow_fault image.now size) }
{
    let own = narrow_own(image, size);
    image_fault::fault_with(image, 4000, Widths::Either, own)?;
    refuse_unless(trains_fit(image, codec::diverge_count(image)), 23)
}

// Writes a wide image narrow. Refused by 6 to 9, 22 and 23: then out is not changed.
pub fn narrow(image: &[u8], out: &mut [u8]) -> Result<(), Refusal>
    ensures { (result ≡ raised (narrow_fault image.now (length out.old)))
        × (out.new ≡ after_narrow image.now out.old) }
{
    narrow_fault(image, out.len())?;
    convert(image, out, false);
    Ok(())
}
