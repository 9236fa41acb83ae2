// The replay of a list of moves.
ghost use Rattle.std.specs.Prelude.{◌≡◌, false, List, ◌*◌, ◌≤◌, ℤ, length, take};
ghost use Rattle.area.specs.Numbers.{HasCells};
ghost use Rattle.area.specs.Stages.{Moving, Shape};
ghost use Rattle.game.specs.Grid.{Grid};
ghost use Rattle.game.specs.Moves.{replay_from};
ghost use Rattle.game.specs.Position.{Position, Sane, closed_safe, lost as is_lost};
ghost use Rattle.replay.specs.Replays.{Replaying};

use crate::clicks::Remains;
use crate::makes::{ending_of, make};
use kinds::Ending;

// What a list that was played whole comes to: the safe cells still closed, and the ending.
#[derive(Clone, Copy, PartialEq, Eq, Debug)]
pub struct Whole {
    pub closed: usize,
    pub ending: Ending,
}

// The place of the first move that isn't legal.
#[derive(Clone, Copy, PartialEq, Eq, Debug)]
pub struct Stopped {
    pub place: usize,
}

// The first moves of a list, one after the other, from a position that isn't lost, with so many safe cells closed. Stops at the first that isn't legal.
pub fn run(
    work: &mut [i32],
    rows: usize,
    columns: usize,
    list: &[u32],
    count: usize,
    safe: usize,
) -> Result<Whole, Stopped>
    requires shape { Shape rows columns }
    requires has_cells { HasCells work.old (rows * columns) × (count ≤ length list.now) }
    ensures { (g : Grid) (s : Position) (old : List ℤ) → Moving rows columns g s old work.old → Sane g s → is_lost g s ≡ false → safe ≡ closed_safe g s
        → Replaying rows columns g old (replay_from g 0 s (take count list.now)) result work.new }
{
    let mut left = Remains {
        closed: safe,
        lost: false,
    };
    for (place, word) in list[..count].iter().enumerate() {
        left = make(work, rows, columns, *word, left).ok_or(Stopped { place })?;
    }
    Ok(Whole {
        closed: left.closed,
        ending: ending_of(left.closed, left.lost),
    })
}
