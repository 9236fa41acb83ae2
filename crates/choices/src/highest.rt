// The highest premium of 0 or more in a column.
ghost use Rattle.std.specs.Prelude.{◌≡◌, ◌*◌, ◌<◌};
ghost use Rattle.area.specs.Numbers.{HasCell, HasCells};
ghost use Rattle.area.specs.Stages.{Shape};
ghost use Rattle.choices.specs.Tests.{looked_at};
ghost use Rattle.choices.specs.Tops.{column_top, top_with};

// Whether a step may look at the cell.
pub fn looked(work: &[i32], index: usize, opened_only: bool) -> bool
    requires { HasCell work.now index }
    ensures { result ≡ looked_at opened_only work.now index }
{
    if opened_only {
        return area::state(work, index) == 1;
    }
    true
}

// The higher raised premium so far, once the cell has been looked at.
pub fn better(work: &[i32], index: usize, opened_only: bool, top: usize) -> usize
    requires { HasCell work.now index }
    ensures { result ≡ top_with opened_only work.now top index }
{
    let premium = area::premium(work, index);
    // One test after the other: as one expression the columns took an eighth more instructions.
    if premium <= top {
        return top;
    }
    if looked(work, index, opened_only) {
        return premium;
    }
    top
}

// The highest raised premium of a column, at least 9.
pub fn scan_column(
    work: &[i32],
    rows: usize,
    columns: usize,
    column: usize,
    opened_only: bool,
) -> usize
    requires shape { Shape rows columns }
    requires has_cells { HasCells work.now (rows * columns) × (column < columns) }
    ensures { result ≡ column_top opened_only work.now rows column }
{
    let mut top: usize = 9;
    for row in 0..rows {
        let index = area::cell(rows, columns, row, column);
        top = better(work, index, opened_only, top);
    }
    top
}
