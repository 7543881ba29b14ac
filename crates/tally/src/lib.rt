// The tally of an update (document 01): rounds, strays and faults, lent to one thin function that each round calls; and the steps of its searches (Q-9).
// `count_round` takes the tally lent, `counted_round` by value.
// The crate assumes nothing of its own, and no public function has a `requires`.
#![tactic(auto)]

ghost use Rattle.std.specs.Prelude.{◌≡◌};
ghost use Rattle.tally.specs.Tally.{started, counted_round, counted_faults, counted_steps};

#[derive(Clone, Copy)]
pub struct Tally {
    pub rounds: u16,
    pub strays: u64,
    pub faults: u64,
    pub steps: u64,
}

// An update starts with the strays of the path that it finds.
pub fn started(strays: u64) -> Tally
    ensures { result ≡ started strays }
{
    Tally {
        rounds: 0,
        strays,
        faults: 0,
        steps: 0,
    }
}

// A round has ended: it is counted, with its strays and the faults that were found.
fn count_round(tally: &mut Tally, strays: u64, faults: u64)
    ensures { tally.new ≡ counted_round tally.old strays faults }
{
    tally.rounds = tally.rounds.saturating_add(1);
    tally.strays = tally.strays.saturating_add(strays);
    tally.faults = tally.faults.saturating_add(faults);
}

// The same for whoever has the tally by value: it is lent to `count_round`.
pub fn counted_round(mut t: Tally, strays: u64, faults: u64) -> Tally
    ensures { result ≡ counted_round t strays faults }
{
    count_round(&mut t, strays, faults);
    t
}

// The rounds have ended, and the validation found these errors.
pub fn counted_faults(t: Tally, faults: u64) -> Tally
    ensures { result ≡ counted_faults t faults }
{
    Tally {
        faults: t.faults.saturating_add(faults),
        ..t
    }
}

// The search of a round has ended after so many steps.
pub fn counted_steps(t: Tally, steps: u64) -> Tally
    ensures { result ≡ counted_steps t steps }
{
    Tally {
        steps: t.steps.saturating_add(steps),
        ..t
    }
}
