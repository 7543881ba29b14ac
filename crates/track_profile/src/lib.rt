// The training track profile (change request Q-13): whole multiples of 1/1024 metre from 0 to 40,000 metres.
// Every function here is proved, the crate assumes nothing of its own, and no function has a `requires`.
#![tactic(auto)]

ghost use Rattle.std.specs.Prelude.{◌≡◌};
ghost use Rattle.link_rules.specs.Octets.{le_at};
ghost use Rattle.link_rules.specs.Network.{all_below};
ghost use Rattle.link_rules.specs.Refusals.{raised};
ghost use Rattle.disp_structs.specs.Floats.{real_of};
ghost use Rattle.image.specs.Image.{node_place};
ghost use Rattle.track_profile.specs.Profile.{in_profile, image_in_profile, profile_fault};

use disp_structs::floats;
use image::codec;
use image_fault;
use image_fault::Widths;
use link_rules::octets;
use link_rules::refusal::{Refusal, refuse_unless};

// The first refusal of an image of either width by 6 to 9 and 22 over 4,000 links; then 29 where a value of it is outside the profile.
pub fn profile_fault(image: &[u8]) -> Result<(), Refusal>
    ensures { result ≡ raised (profile_fault image.now) }
{
    image_fault::fault_with(image, 4000, Widths::Either, Ok(()))?;
    refuse_unless(image_in_profile(image), 29)
}

// Every est distance, the header's two distances, every path offset.
fn image_in_profile(image: &[u8]) -> bool
    ensures { result ≡ image_in_profile image.now }
{
    let e = codec::est_count(image);
    let search = codec::dist_disp_path_search(image);
    let fixed_max = codec::dist_fixed_max(image);
    records_in_profile(image, 0, e)
        && in_profile(search.0)
        && in_profile(fixed_max.0)
        && records_in_profile(image, e, codec::path_count(image))
}

// Does each of n records behind the first e begin with a value of the profile? Est records, which stand first, begin with their distance, path records with
// their offset.
fn records_in_profile(image: &[u8], e: u32, n: u32) -> bool
    ensures { result ≡ all_below n (λ i. in_profile (real_of (le_at 8 image.now (node_place e i)))) }
{
    (0..n).all(|i| in_profile(floats::real_of(octets::u64_at(image, codec::node_place(e, i)))))
}

// A value of the profile; -0.0 is one. From 2^42 to 2^43 two floats are 1/1024 apart, so that adding 2^42 loses nothing of a multiple of 1/1024, and something
// of any other value from 0 to 40,000.
fn in_profile(x: f64) -> bool
    ensures { result ≡ in_profile x }
{
    0.0 <= x && x <= 40000.0 && x + 4398046511104.0 - 4398046511104.0 == x
}
