// Events compared (disp_structs.rs: EstType, LinkEvent).
ghost use Rattle.std.specs.Prelude.{◌≡◌};
ghost use Rattle.disp_structs.specs.Values.{is_arrive, is_fake, same_event};

use crate::{EstType, LinkEvent};

pub fn is_arrive(t: EstType) -> bool
    ensures { result ≡ is_arrive t }
{
    t == EstType::Arrive
}

pub fn is_fake(t: EstType) -> bool
    ensures { result ≡ is_fake t }
{
    t == EstType::Fake
}

pub fn same_event(a: LinkEvent, b: LinkEvent) -> bool
    ensures { result ≡ same_event a b }
{
    a == b
}
