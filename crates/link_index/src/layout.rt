// Laying out a train beside an index (document 02, Q-10).
ghost use Rattle.link_rules.specs.Refusals.{raised};
ghost use Rattle.std.specs.Prelude.{◌≡◌, ◌≤◌, ◌<◌, length};
ghost use Rattle.link_index.specs.Indexed.{LaidAs, lay_out_fault, laying, laid_beside};

use crate::slots;
use link_rules::octets;
use link_rules::refusal::{Refusal, refuse_unless};
use train_disp;
use train_disp::Settings;
use yard_check::bytes;

// 5, 6, 25; size and m are the lengths of the image and of the index.
fn lay_out_fault(est: &[u8], settings: Settings, size: usize, m: usize) -> Result<(), Refusal>
    ensures { result ≡ raised (lay_out_fault est.now settings size m) }
{
    let train = settings.train_idx.0;
    refuse_unless(1 <= train, 5)?;
    refuse_unless(train <= 63, 5)?;
    if let Err(own) = train_disp::lay_out_fault(est, settings, size) {
        if own.number == 6 {
            return Err(own);
        }
    }
    refuse_unless(m == settings.links as usize, 25)
}

// The image is copied to the room before the layout, and compared after it.
fn lay_out_watched(
    est: &[u8],
    settings: Settings,
    image: &mut [u8],
    index: &mut [u64],
    room: &mut [u8],
) -> Result<(), Refusal>
    requires { (settings.train_idx.0 < 64) × (length index.old ≤ 4000) × (length image.old ≤ length room.old) }
    ensures { LaidAs est.now settings image.old index.old result image.new index.new }
{
    octets::put_bytes(room, 0, image);
    let r = train_disp::lay_out(est, settings, image);
    if bytes::differs(image, room) {
        slots::build_slot(image, settings.train_idx.0 as u32, index);
    }
    r
}

// lay_out into the image of the train's slot, beside an index: the bits of the slot are as in an index built afresh where its image changed, and all
// others stay. Refused by 5 of a train 0 or above 63, 6, 25, 7, 8, 9 and 11: then nothing is changed.
pub fn lay_out_indexed(
    est: &[u8],
    settings: Settings,
    image: &mut [u8],
    index: &mut [u64],
) -> Result<(), Refusal>
    ensures { laying result image.new index.new ≡ laid_beside est.now settings image.old index.old }
{
    lay_out_fault(est, settings, image.len(), index.len())?;
    let mut room = bytes::image_room();
    lay_out_watched(est, settings, image, index, &mut room[..41024])
}
