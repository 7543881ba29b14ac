// What a call answers that may be refused: nothing, or its refusal, the first in its chain.
ghost use Rattle.std.specs.Prelude.{◌≡◌};
ghost use Rattle.link_rules.specs.Refusals.{refused, refuse_unless};

// Document 01's number of a refusal, and its place.
#[derive(Clone, Copy, PartialEq, Eq)]
pub struct Refusal {
    pub number: u16,
    pub place: u16,
}

impl Refusal {
    // A refusal with place 0.
    pub fn new(number: u16) -> Refusal
        ensures { result ≡ refused number 0 }
    {
        Refusal { number, place: 0 }
    }
}

// Refusal `number` with place 0 where a test fails.
pub fn refuse_unless(fits: bool, number: u16) -> Result<(), Refusal>
    ensures { result ≡ refuse_unless fits number }
{
    if fits {
        return Ok(());
    }
    Err(Refusal::new(number))
}
