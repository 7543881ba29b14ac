// Fake nodes of the path of an image, which a save node is none of.
ghost use Rattle.std.specs.Prelude.{◌≡◌, ◌≤◌, IfOk};
ghost use Rattle.free_path.specs.Base.{walk_from};
ghost use Rattle.free_path.specs.Halts.{answered};
ghost use Rattle.update_definition.specs.Moves.{not_fake};
ghost use Rattle.image.specs.Image.{path_of};

use disp_structs::events;
use free_path::halt::Halt;
use image::codec;

// The first node at or after `from` that is no Fake. No `find`: its closure would not know that k is below n, and so fits a u32.
pub fn walk_fakes(img: &[u8], n: u32, from: usize) -> Result<usize, Halt>
    ensures { (answered result ≡ walk_from not_fake (path_of img.now n) from) × IfOk result (λ k. k ≤ n) }
{
    for k in from..n as usize {
        let e = codec::node_link_event(img, k as u32);
        if !events::is_fake(e.est_type) {
            return Ok(k);
        }
    }
    Err(Halt::Panic)
}
