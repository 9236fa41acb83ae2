// Why a call, a line, a block or a file is refused, and the refusals' numbers.
#![tactic(auto)]

ghost use Rattle.std.specs.Prelude.{◌≡◌};
ghost use Rattle.game.specs.Calls.{number_of};
ghost use Rattle.refusals.specs.Names.{named};

// A refusal by its name; NUMBER names the lowest cell at fault.
#[derive(Clone, Copy, Debug, PartialEq, Eq)]
pub enum Refusal {
    Shape,
    Board,
    Work,
    Trace,
    Rounds,
    Draws,
    Move,
    Frame,
    Size,
    File,
    Number(usize),
    Key,
}

// A refusal's number.
pub fn number_of(refusal: Refusal) -> u8
    ensures { result ≡ number_of (named refusal) }
{
    match refusal {
        Refusal::Shape => 1,
        Refusal::Board => 2,
        Refusal::Work => 3,
        Refusal::Trace => 4,
        Refusal::Rounds => 5,
        Refusal::Draws => 6,
        Refusal::Move => 7,
        Refusal::Frame => 8,
        Refusal::Size => 9,
        Refusal::File => 10,
        Refusal::Number(_) => 11,
        Refusal::Key => 12,
    }
}
