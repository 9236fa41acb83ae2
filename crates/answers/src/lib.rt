// What the public calls give where they refuse nothing: 3BV and clicks are a number alone, the early count is yes or no.
#![tactic(auto)]

ghost use Rattle.std.specs.Prelude.{◌≡◌};
ghost use Rattle.answers.specs.declared.Unplayed.TheVariants as Unplays;

use keys::Key;
use kinds::Ending;
use refusals::Refusal;

// What a replay gives: moves made, safe cells still closed and the ending.
#[derive(Clone, Copy, Debug, PartialEq, Eq)]
pub struct Played {
    pub made: usize,
    pub closed: usize,
    pub ending: Ending,
}

// Why a replay gives nothing: the place of the bad move, or a refusal.
#[derive(Clone, Copy, Debug, PartialEq, Eq)]
pub enum Unplayed {
    Move(usize),
    Refused(Refusal),
}

impl From<Refusal> for Unplayed {
    ghost from_gives = { λ refusal unplayed. unplayed ≡ Unplays.Refused refusal };

    fn from(refusal: Refusal) -> Unplayed {
        Unplayed::Refused(refusal)
    }
}

// What a random round or search gives: clicks and draw bytes used.
#[derive(Clone, Copy, Debug, PartialEq, Eq)]
pub struct Roll {
    pub clicks: usize,
    pub used: usize,
}

// What a keyed round or search gives: clicks, draw bytes used, and the key after it.
#[derive(Clone, Copy)]
pub struct KeyRoll {
    pub clicks: usize,
    pub used: usize,
    pub key: Key,
}
