// L on the cells of a square: the safe ones opened in one walk, the mines in another.
ghost use Rattle.std.specs.Prelude.{[], ◌∷◌, ◌*◌, ◌<◌, ◌≤◌};
ghost use Rattle.area.specs.Numbers.{HasCells};
ghost use Rattle.area.specs.Squares.{square_of};
ghost use Rattle.area.specs.Stages.{Shape};
ghost use Rattle.replay.specs.Clicks.{Clicked};

use squares::Square;

// What is left after moves: the safe cells still closed, and whether a mine is open.
#[derive(Clone, Copy, PartialEq, Eq, Debug)]
pub struct Remains {
    pub closed: usize,
    pub lost: bool,
}

// L on a closed unflagged cell: opens a mine if mines are to be opened, else a safe cell and what spreads from it; any other cell stays.
pub fn click(
    work: &mut [i32],
    rows: usize,
    columns: usize,
    index: usize,
    mines: bool,
    left: Remains,
) -> Remains
    requires shape { Shape rows columns }
    requires has_cells { HasCells work.old (rows * columns) × (index < rows * columns) }
    ensures { Clicked rows columns mines work.old (index ∷ []) left result work.new }
{
    let closed = left.closed;
    let lost = left.lost;
    if !mines {
        let opened = spread::reveal(work, rows, columns, index);
        return Remains {
            closed: closed.saturating_sub(opened),
            lost,
        };
    }
    if area::content(work, index) != 0 {
        return Remains { closed, lost };
    }
    if area::state(work, index) != 0 {
        return Remains { closed, lost };
    }
    area::put_state(work, index, 3);
    Remains { closed, lost: true }
}

// The same on each cell of a square, by row, then column.
pub fn click_square(
    work: &mut [i32],
    rows: usize,
    columns: usize,
    index: usize,
    mines: bool,
    left: Remains,
) -> Remains
    requires shape { Shape rows columns }
    requires has_cells { HasCells work.old (rows * columns) × (index < rows * columns) }
    ensures { Clicked rows columns mines work.old (square_of rows columns index) left result work.new }
{
    let mut so = left;
    for near in Square::around(rows, columns, index) {
        so = click(work, rows, columns, near, mines, so);
    }
    so
}
