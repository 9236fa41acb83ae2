// The kinds of a move and the endings of a game, and the numbers that stand for them.
#![tactic(auto)]

ghost use Rattle.std.specs.Prelude.{◌≡◌};
ghost use Rattle.kinds.specs.Numbers.{Reads, ending_number, kind_number};

// What a move does at its cell.
#[derive(Clone, Copy, PartialEq, Eq, Debug)]
pub enum Kind {
    Left,
    Flag,
    Chord,
    Unflag,
}

// A number that is no kind's.
#[derive(Clone, Copy, PartialEq, Eq, Debug)]
pub struct NoKind;

// How a game ends.
#[derive(Clone, Copy, PartialEq, Eq, Debug)]
pub enum Ending {
    Unfinished,
    Won,
    Lost,
}

impl From<Kind> for u32 {
    ghost from_gives = { λ kind number. number ≡ kind_number kind };

    fn from(kind: Kind) -> Self {
        match kind {
            Kind::Left => 1,
            Kind::Flag => 2,
            Kind::Chord => 3,
            Kind::Unflag => 4,
        }
    }
}

impl TryFrom<u32> for Kind {
    type Error = NoKind;

    ghost try_from_gives = { Reads };

    fn try_from(number: u32) -> Result<Self, NoKind> {
        match number {
            1 => Ok(Kind::Left),
            2 => Ok(Kind::Flag),
            3 => Ok(Kind::Chord),
            4 => Ok(Kind::Unflag),
            _ => Err(NoKind),
        }
    }
}

impl From<Ending> for usize {
    ghost from_gives = { λ ending number. number ≡ ending_number ending };

    fn from(ending: Ending) -> Self {
        match ending {
            Ending::Unfinished => 0,
            Ending::Won => 1,
            Ending::Lost => 2,
        }
    }
}
