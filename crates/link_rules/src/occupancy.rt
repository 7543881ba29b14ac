// An occupancy table: for each link the train that holds it, 0 for none. Its entries are u16 or u32.
ghost use Rattle.std.specs.Prelude.{◌≡◌, ℕ, ◌==◌, map, slice_index, slice_set};

pub trait Entry: Copy {
    // The train's number.
    ghost number: { Self → ℕ };

    fn none() -> Self
        ensures { number result ≡ 0 };

    fn is_none(self) -> bool
        ensures { result ≡ (number self == 0) };
}

impl Entry for u16 {
    ghost number = { λ t. t };

    fn none() -> u16 {
        0
    }

    fn is_none(self) -> bool {
        self == 0
    }
}

// The test is turned round, so that an edit can name its line.
impl Entry for u32 {
    ghost number = { λ t. t };

    fn none() -> u32 {
        0
    }

    fn is_none(self) -> bool {
        0 == self
    }
}

// Stores a train; a link past the end stays out.
pub(crate) fn hold<E: Entry>(occupancy: &mut [E], l: u32, t: E)
    ensures { map E.number occupancy.new ≡ slice_set (map E.number occupancy.old) l (E.number t) }
{
    let at = l as usize;
    if at < occupancy.len() {
        occupancy[at] = t;
    }
}

// The train of a link; past the end none.
pub fn train_at<E: Entry>(occupancy: &[E], l: u32) -> E
    ensures { E.number result ≡ slice_index (map E.number occupancy.now) l }
{
    let at = l as usize;
    if at < occupancy.len() {
        return occupancy[at];
    }
    E::none()
}
