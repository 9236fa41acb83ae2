// Each cell's content is put into the work area.
ghost use Rattle.std.specs.Prelude.{◌≡◌, cond, ◌+◌, ◌*◌, ◌<◌, ◌≤◌, length};
ghost use Rattle.game.specs.Lists.{range, fold};
ghost use Rattle.game.specs.Area.{laid};
ghost use Rattle.area.specs.Numbers.{HasCell, HasCells, grid_of};
ghost use Rattle.area.specs.Squares.{row_cells};
ghost use Rattle.area.specs.Stages.{Shape, loaded_five};
ghost use Rattle.start.specs.Passes.{load_at, load_cell, load_column};

// What tells a cell's content: 0 for a mine, 1 more than its number for a safe cell.
fn content_of(mine: bool, number: usize) -> usize
    requires { number ≤ 9 }
    ensures { result ≡ cond «mine» 0 (1 + number) }
{
    if mine { 0 } else { 1 + number }
}

// A cell before labelling.
pub fn load_cell(work: &mut [i32], index: usize, content: usize)
    requires { HasCell work.old index }
    ensures { work.new ≡ load_at work.old index content }
{
    area::put_first_label(work, index, 0);
    area::put_second_label(work, index, 0);
    area::put_content(work, index, content);
    area::put_state(work, index, 0);
    area::put_premium(work, index, 0);
}

// The cells of a row in the columns `from` to before `to`: the sums of the columns around a cell are carried along.
fn load_row(
    grid: &[i32],
    rows: usize,
    columns: usize,
    work: &mut [i32],
    row: usize,
    from: usize,
    to: usize,
)
    requires shape { Shape rows columns }
    requires grid_len { (length grid.now ≡ rows * columns) × HasCells work.old (rows * columns) × (row < rows) × (from < to) × (to ≤ columns) }
    ensures { work.new ≡ fold (load_cell (grid_of rows columns grid.now)) work.old (row_cells rows row from to) }
{
    let mut sums = mine_sums::sums_before(grid, rows, columns, row, from);
    for column in from..to {
        sums = mine_sums::sums_after(grid, rows, columns, row, column, sums);
        let number = sums.left + sums.here + sums.right;
        let content = content_of(sums.mine, number);
        load_cell(work, column * rows + row, content);
    }
}

// The cells of the columns `from` to before `to`, row by row.
pub fn load_columns(
    grid: &[i32],
    rows: usize,
    columns: usize,
    work: &mut [i32],
    from: usize,
    to: usize,
)
    requires shape { Shape rows columns }
    requires grid_len { (length grid.now ≡ rows * columns) × HasCells work.old (rows * columns) × (from < to) × (to ≤ columns) }
    ensures { work.new ≡ fold (load_column (grid_of rows columns grid.now)) work.old (range from to) }
{
    for row in 0..rows {
        load_row(grid, rows, columns, work, row, from, to);
    }
}

// The cells of the grid: the work area before labelling. 32 columns at a time, since the work area has column after column: what a row of so many touches is still near when the next row comes.
pub fn load(grid: &[i32], rows: usize, columns: usize, work: &mut [i32])
    requires shape { Shape rows columns }
    requires grid_len { (length grid.now ≡ rows * columns) × HasCells work.old (rows * columns) }
    ensures { work.new ≡ laid (loaded_five (grid_of rows columns grid.now)) (rows * columns) work.old }
{
    for from in (0..columns).step_by(32) {
        load_columns(grid, rows, columns, work, from, (from + 32).min(columns));
    }
}
