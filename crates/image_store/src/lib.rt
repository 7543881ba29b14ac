// An updated train goes back to the caller's image.
// Every function here is proved, the crate assumes nothing of its own, and no public function has a `requires`.
#![tactic(auto)]

ghost use Rattle.std.specs.Prelude.{◌≡◌, ◌^◌, ◌<◌};
ghost use Rattle.disp_structs.specs.Listed.{listed};
ghost use Rattle.free_path.specs.Columns.{div_at};
ghost use Rattle.image.specs.Image.{est_count, is_wide, node_place, node_at, put_node};
ghost use Rattle.image.specs.Codec.{put_each, stored_into};
ghost use Rattle.image_store.specs.Plain.{plain_node};
ghost use Rattle.image_store.specs.Stored.{words_into, diverges_into, stored_diverges, changed_train};

use disp_structs::DivergeNode;
use free_path::columns;
use image::codec;
use image::codec::PathHeader;
use link_rules::link_idx::TrainIdx;
use link_rules::octets;

// Its bytes are those that writing its node makes. An accepted image has no other path records.
fn plain_node(img: &[u8], at: usize) -> bool
    requires { at < 2 ^ 48 }
    ensures { result ≡ plain_node img.now at }
{
    at + 32 <= img.len()
        && octets::u64_at(img, at) % 0x8000_0000_0000_0000 <= 0x7ff0_0000_0000_0000
        && octets::u64_at(img, at + 8) % 0x8000_0000_0000_0000 <= 0x7ff0_0000_0000_0000
        && octets::u64_at(img, at + 24) / 65536 <= 2
}

// The 32 bytes from p on go to the image, from q on, in four words.
fn put_words(image: &mut [u8], q: usize, img: &[u8], p: usize)
    requires { (p < 2 ^ 48) × (q < 2 ^ 48) }
    ensures { image.new ≡ words_into img.now p q image.old }
{
    octets::put_u64(image, q, octets::u64_at(img, p));
    octets::put_u64(image, q + 8, octets::u64_at(img, p + 8));
    octets::put_u64(image, q + 16, octets::u64_at(img, p + 16));
    octets::put_u64(image, q + 24, octets::u64_at(img, p + 24));
}

// Path node i of one image goes to another, field by field.
fn put_fields(image: &mut [u8], img: &[u8], i: u32)
    ensures { image.new ≡ put_node (node_at img.now i) (node_place (est_count image.old) i) image.old }
{
    let x = codec::node_at(img, i);
    codec::put_node(image, i, x);
}

// The same, and as a whole where the record is plain and lies within both images.
fn put_whole(image: &mut [u8], img: &[u8], i: u32)
    ensures { image.new ≡ put_node (node_at img.now i) (node_place (est_count image.old) i) image.old }
{
    let p = codec::node_place(codec::est_count(img), i);
    let q = codec::node_place(codec::est_count(image), i);
    if image.len() < q + 32 {
        put_fields(image, img, i);
        return;
    }
    if plain_node(img, p) {
        put_words(image, q, img, p);
        return;
    }
    put_fields(image, img, i);
}

// The first n path nodes of one image go to another.
fn put_nodes(image: &mut [u8], img: &[u8], n: u32)
    ensures { image.new ≡ put_each put_node 32 (listed n (node_at img.now)) (node_place (est_count image.old) 0) image.old }
{
    for i in 0..n {
        put_whole(image, img, i);
    }
}

// The first m diverge nodes of two columns go to an image.
fn put_diverges(image: &mut [u8], dt: &[u32], dn: &[u32], m: u32)
    ensures { image.new ≡ diverges_into (is_wide image.old) (listed m (div_at dt.now dn.now)) image.old }
{
    let wide = codec::is_wide(image);
    let e = codec::est_count(image);
    for i in 0..m {
        let d = DivergeNode {
            train_idx: TrainIdx(columns::u32_of(dt, i as usize)),
            disp_node_idx: columns::u32_of(dn, i as usize),
        };
        codec::put_diverge_with(image, wide, e, i, d);
    }
}

// The diverge nodes with their unused records, and the header's numbers, go to the image.
pub fn store_diverges(image: &mut [u8], h: PathHeader, dt: &[u32], dn: &[u32])
    ensures { image.new ≡ stored_diverges dt.now dn.now h image.old }
{
    put_diverges(image, dt, dn, h.diverge_count);
    codec::clear_diverges(image, h.diverge_count);
    codec::put_path_header(image, h);
}

// What an update changes goes to the image: the path and the diverge nodes with their unused records, and the header's numbers.
pub fn store(image: &mut [u8], img: &[u8], h: PathHeader, dt: &[u32], dn: &[u32])
    ensures { image.new ≡ stored_into (changed_train img.now dt.now dn.now h image.old) image.old }
{
    put_nodes(image, img, h.path_count);
    codec::clear_nodes(image, h.path_count);
    store_diverges(image, h, dt, dn);
}
