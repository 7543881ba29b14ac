// One turn of the search of update_free_path (free_path.rs 345-575), up to ChangeDiverge and Join.
ghost use Rattle.std.specs.Prelude.{◌≡◌, ◌+◌, ◌≤◌, length};
ghost use Rattle.image.specs.Image.{est_place};
ghost use Rattle.search.specs.Read.{arrays};
ghost use Rattle.search.specs.Effects.{leaves, DoesMove, TurnFrom, TurnAt, MoveFits, TurnFits};

use crate::look::Here;
use crate::{Effect, Moved, Place, Round, look, moves, rewind};
use disp_structs::DispNode;
use free_path::halt::Halt;
use update_definition::Move;

// The move, its effect (Stay where the caller has to do the move), where the search stood, and where it stands.
#[derive(Clone, Copy)]
pub struct Turned {
    pub go: Move,
    pub effect: Effect,
    pub here: Here,
    pub place: Place,
}

// ChangeDiverge and Join are left to the caller.
pub fn is_left(go: Move) -> bool
    ensures { result ≡ leaves go }
{
    matches!(go, Move::ChangeDiverge | Move::Join)
}

// The moves that are not left to the caller; the arms of the other two are not reached.
fn do_move(
    go: Move,
    img: &[u8],
    r: Round,
    h: Here,
    p: Place,
    pool: &mut [u32],
    begins: &mut [u32],
    ends: &mut [u32],
    nt: &mut [u32],
    nn: &mut [u32],
) -> Result<Moved, Halt>
    requires { MoveFits go r h p (arrays pool.old begins.old ends.old) nt.old nn.old }
    ensures { DoesMove go img.now r h p (arrays pool.old begins.old ends.old) nt.old nn.old result
        (arrays pool.new begins.new ends.new) nt.new nn.new }
{
    match go {
        Move::Rewind => rewind::rewind(img, r, h, p, pool, begins, ends, nn),
        Move::Alternate => moves::alternate(r, h, p, pool, begins, ends, nt, nn),
        Move::ChangeDiverge => Err(Halt::Panic),
        Move::PushSaved => moves::push_saved(img, r, h, p),
        Move::BlockEmpty => Ok(moves::block_empty(r, h, p, begins, ends)),
        Move::Advance => moves::advance(r, h, p),
        Move::Join => Err(Halt::Panic),
    }
}

// A turn that stands at h, from there on.
fn turn_from(
    img: &[u8],
    occ: &[u32],
    on: &[u8],
    dt: &[u32],
    dn: &[u32],
    r: Round,
    h: Here,
    p: Place,
    pool: &mut [u32],
    begins: &mut [u32],
    ends: &mut [u32],
    nt: &mut [u32],
    nn: &mut [u32],
) -> Result<Turned, Halt>
    requires { TurnFits img.now on.now r p (arrays pool.old begins.old ends.old) nt.old nn.old (h.idx_join_new ≤ p.idx_split + p.new_count) }
    ensures { TurnFrom occ.now img.now dt.now dn.now r h p
        (arrays pool.old begins.old ends.old) nt.old nn.old result
        (arrays pool.new begins.new ends.new) nt.new nn.new }
{
    let s = look::stored_trains(dt, dn, on, r, h, p, pool, begins, ends)?;
    let q = look::occupied_next(occ, r, h, s, pool, begins, ends)?;
    let go = look::move_of(img, on, r, h, q, ends)?;
    if is_left(go) {
        return Ok(Turned {
            go,
            effect: Effect::Stay,
            here: h,
            place: q,
        });
    }
    let x = do_move(go, img, r, h, q, pool, begins, ends, nt, nn)?;
    Ok(Turned {
        go,
        effect: x.effect,
        here: h,
        place: x.place,
    })
}

// curr is the last node of the new path, or else the node before idx_split.
pub(crate) fn turn(
    img: &[u8],
    occ: &[u32],
    on: &[u8],
    dt: &[u32],
    dn: &[u32],
    r: Round,
    p: Place,
    curr: DispNode,
    pool: &mut [u32],
    begins: &mut [u32],
    ends: &mut [u32],
    nt: &mut [u32],
    nn: &mut [u32],
) -> Result<Turned, Halt>
    requires { TurnFits img.now on.now r p (arrays pool.old begins.old ends.old) nt.old nn.old (est_place r.est_count ≤ length img.now) }
    ensures { TurnAt occ.now img.now dt.now dn.now r p curr
        (arrays pool.old begins.old ends.old) nt.old nn.old result
        (arrays pool.new begins.new ends.new) nt.new nn.new }
{
    let h = look::look_here(img, r, p, curr, ends, dn)?;
    turn_from(img, occ, on, dt, dn, r, h, p, pool, begins, ends, nt, nn)
}
