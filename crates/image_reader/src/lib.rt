// A reader over one lent image (document 01): the slice and the index of a path node, and thin methods over the functions of `image`.
// Whoever has a plain slice calls `free_of` or `node_of`.
// The crate assumes nothing of its own, and no public function has a `requires`.
#![tactic(auto)]

ghost use Rattle.std.specs.Prelude.{◌≡◌};
ghost use Rattle.image.specs.Image.{node_at};
ghost use Rattle.image_reader.specs.Reader.{free_of};

use disp_structs::DispNode;
use image::codec;
use link_rules::octets;

#[derive(Clone, Copy)]
pub struct Reader<'a> {
    pub image: &'a [u8],
    pub at: u32,
}

impl<'a> Reader<'a> {
    pub fn new(image: &'a [u8], at: u32) -> Reader<'a>
        ensures { (result.image ≡ image.entry) × (result.at ≡ at) }
    {
        Reader { image, at }
    }

    // The free number of the header.
    pub fn free(self) -> u16
        ensures { result ≡ free_of self.entry.image.now }
    {
        octets::u16_at(self.image, 36)
    }

    // The path node at the reader's index.
    pub fn node(self) -> DispNode
        ensures { result ≡ node_at self.entry.image.now self.entry.at }
    {
        codec::node_at(self.image, self.at)
    }
}

// ---- for whoever has a plain slice

// For the sheet's free column, and for whether a train is finished.
pub fn free_of(image: &[u8]) -> u16
    ensures { result ≡ free_of image.now }
{
    Reader::new(image, 0).free()
}

// Node i of the path, for the page.
pub fn node_of(image: &[u8], i: u32) -> DispNode
    ensures { result ≡ node_at image.now i }
{
    Reader::new(image, i).node()
}
