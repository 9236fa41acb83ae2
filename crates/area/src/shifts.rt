// The premiums of a square: each safe cell's, so much up and so much down.
ghost use Rattle.std.specs.Prelude.{◌≡◌, ◌*◌, ◌<◌, ◌≤◌};
ghost use Rattle.game.specs.Lists.{fold};
ghost use Rattle.area.specs.Numbers.{HasCell, HasCells};
ghost use Rattle.area.specs.Squares.{row_cells, shifted, square_of};

use crate::five::{content, premium, put_premium};
use crate::squares::around;

// A safe cell's premium, so much up and so much down.
pub fn shift(work: &mut [i32], index: usize, up: usize, down: usize)
    requires { HasCell work.old index × (up ≤ 1) }
    ensures { work.new ≡ shifted up down work.old index }
{
    if content(work, index) == 0 {
        return;
    }
    let raised = premium(work, index);
    put_premium(work, index, (raised + up).saturating_sub(down));
}

// The safe cells of one row, in the columns `from` to before `to`.
fn shift_row(
    work: &mut [i32],
    rows: usize,
    columns: usize,
    row: usize,
    from: usize,
    to: usize,
    up: usize,
    down: usize,
)
    requires { HasCells work.old (rows * columns) × (row < rows) × (from ≤ to) × (to ≤ columns) × (up ≤ 1) }
    ensures { work.new ≡ fold (shifted up down) work.old (row_cells rows row from to) }
{
    for column in from..to {
        shift(work, column * rows + row, up, down);
    }
}

// The safe cells of a square.
pub fn shift_square(
    work: &mut [i32],
    rows: usize,
    columns: usize,
    index: usize,
    up: usize,
    down: usize,
)
    requires { HasCells work.old (rows * columns) × (index < rows * columns) × (up ≤ 1) }
    ensures { work.new ≡ fold (shifted up down) work.old (square_of rows columns index) }
{
    let sides = around(rows, columns, index);
    for row in sides.first..sides.last {
        shift_row(work, rows, columns, row, sides.from, sides.to, up, down);
    }
}
