// The flags of a square, and whether C may be played.
ghost use Rattle.std.specs.Prelude.{◌≡◌, List, ◌*◌, ◌-◌, ◌<◌, ◌≤◌, ℤ};
ghost use Rattle.area.specs.Numbers.{HasCell, HasCells};
ghost use Rattle.area.specs.Squares.{square_of};
ghost use Rattle.area.specs.Stages.{Moving, Shape};
ghost use Rattle.game.specs.Grid.{Grid};
ghost use Rattle.game.specs.Lists.{bit, count as count_of};
ghost use Rattle.game.specs.Moves.{chordable as may_chord};
ghost use Rattle.game.specs.Position.{Position, Sane};
ghost use Rattle.replay.specs.Clicks.{flagged_at};

use squares::Square;

// 1 for a flagged cell.
fn flagged(work: &[i32], index: usize) -> usize
    requires { HasCell work.now index }
    ensures { result ≡ bit (flagged_at work.now index) }
{
    if area::state(work, index) == 2 { 1 } else { 0 }
}

// The flags in a square.
fn flags_square(work: &[i32], rows: usize, columns: usize, index: usize) -> usize
    requires shape { Shape rows columns }
    requires has_cells { HasCells work.now (rows * columns) × (index < rows * columns) }
    ensures { result ≡ count_of (flagged_at work.now) (square_of rows columns index) }
{
    let mut flags: usize = 0;
    for near in Square::around(rows, columns, index) {
        flags += flagged(work, near);
    }
    flags
}

// Whether C may be played.
pub fn chordable(work: &[i32], rows: usize, columns: usize, index: usize) -> bool
    requires shape { Shape rows columns }
    requires has_cells { HasCells work.now (rows * columns) × (index < rows * columns) }
    ensures { (g : Grid) (s : Position) (old : List ℤ) → Moving rows columns g s old work.now → Sane g s
        → result ≡ may_chord g s index }
{
    if area::state(work, index) != 1 {
        return false;
    }
    let content = area::content(work, index);
    if content == 1 {
        return false;
    }
    let number = content.saturating_sub(1);
    let flags = flags_square(work, rows, columns, index);
    flags == number
}
