// What a mark turns on: a closed 0-cell in a square, a column with one of two labels.
#![tactic(auto)]

ghost use Rattle.std.specs.Prelude.{◌≡◌, List, ◌*◌, ◌<◌, ℤ};
ghost use Rattle.area.specs.Numbers.{HasCell, HasCells};
ghost use Rattle.game.specs.Grid.{Grid};
ghost use Rattle.game.specs.Lists.{some_of};
ghost use Rattle.game.specs.Position.{Position};
ghost use Rattle.area.specs.Squares.{on_grid};
ghost use Rattle.area.specs.Stages.{Shape, Stands};
ghost use Rattle.mark_tests.specs.Tests.{borders_closed, closed_zero_at, column_shares, one_of, shares_at};

// Whether there is a closed 0-cell; past the grid there is none.
fn closed_zero(work: &[i32], cells: usize, index: usize) -> bool
    requires { HasCells work.now cells }
    ensures { result ≡ some_of (closed_zero_at work.now) (on_grid cells index) }
{
    index < cells && area::content(work, index) == 1 && area::state(work, index) == 0
}

// Whether a closed 0-cell stands in the square of the cell.
pub fn borders_closed(work: &[i32], rows: usize, columns: usize, index: usize) -> bool
    requires shape { Shape rows columns }
    requires has_cells { HasCells work.now (rows * columns) × (index < rows * columns) }
    ensures { (g : Grid) (s : Position) (old : List ℤ) → Stands rows columns g s old work.now → result ≡ borders_closed g s index }
{
    let cells = rows * columns;
    for place in 0..9 {
        let near = area::near(rows, columns, index, place / 3, place % 3);
        if closed_zero(work, cells, near) {
            return true;
        }
    }
    false
}

// Whether a label is one of two; 0 is none.
fn one_of(label: usize, first: usize, second: usize) -> bool
    ensures { result ≡ one_of first second label }
{
    // One test after the other: most cells have no label, and as one expression the columns took twice the instructions.
    if label == 0 {
        return false;
    }
    if label == first {
        return true;
    }
    label == second
}

// Whether the cell has one of two labels.
fn shares(work: &[i32], index: usize, first: usize, second: usize) -> bool
    requires { HasCell work.now index }
    ensures { result ≡ shares_at work.now first second index }
{
    if one_of(area::first_label(work, index), first, second) {
        return true;
    }
    one_of(area::second_label(work, index), first, second)
}

// Whether a cell of the column has one of two labels.
pub fn has_label(
    work: &[i32],
    rows: usize,
    columns: usize,
    column: usize,
    first: usize,
    second: usize,
) -> bool
    requires shape { Shape rows columns }
    requires has_cells { HasCells work.now (rows * columns) × (column < columns) }
    ensures { result ≡ column_shares work.now rows first second column }
{
    for row in 0..rows {
        let index = area::cell(rows, columns, row, column);
        if shares(work, index, first, second) {
            return true;
        }
    }
    false
}
