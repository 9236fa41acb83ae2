// The numbers of a grid, checked: -1 for a mine, and in each safe cell exactly its number.
#![tactic(auto)]

ghost use Rattle.std.specs.Prelude.{◌≡◌, ◌&&◌, not, ◌*◌, ◌<◌, ◌≤◌, pos, get_or, length};
ghost use Rattle.game.specs.Grid.{is_mine, same};
ghost use Rattle.game.specs.Calls.{first_given, strict_checks};
ghost use Rattle.area.specs.Numbers.{grid_of};
ghost use Rattle.area.specs.Stages.{Shape};
ghost use Rattle.refusals.specs.Names.{refusal_of};
ghost use Rattle.number_check.specs.Faults.{FirstWrong, LowestWrong};
ghost use Rattle.number_check.specs.Forms.{form_refusal};

use refusals::Refusal;

// Whether the value at a place is wrong, for a cell with so many mines in its square: it is no mine, and another number.
fn is_wrong(grid: &[i32], at: usize, number: usize) -> bool
    requires { (at < length grid.now) × (number ≤ 9) }
    ensures { result ≡ not (is_mine (get_or grid.now at (pos 0))) && not (same (get_or grid.now at (pos 0)) (pos number)) }
{
    let v = grid[at];
    if v == -1 {
        return false;
    }
    v != number as i32
}

// The first column of a row, of those below a limit, whose value is wrong; the limit where none is.
fn wrong_in_row(grid: &[i32], rows: usize, columns: usize, row: usize, limit: usize) -> usize
    requires shape { Shape rows columns }
    requires grid_len { (length grid.now ≡ rows * columns) × (row < rows) × (limit ≤ columns) }
    ensures { FirstWrong (grid_of rows columns grid.now) row limit result }
{
    let mut sums = mine_sums::sums_before(grid, rows, columns, row, 0);
    for column in 0..limit {
        sums = mine_sums::sums_after(grid, rows, columns, row, column, sums);
        let number = sums.left + sums.here + sums.right;
        if is_wrong(grid, row * columns + column, number) {
            return column;
        }
    }
    limit
}

// The lowest cell whose value is wrong; the number of cells where none is. Past a column with a wrong value no later row is looked at.
fn lowest_wrong(grid: &[i32], rows: usize, columns: usize) -> usize
    requires shape { Shape rows columns }
    requires grid_len { length grid.now ≡ rows * columns }
    ensures { LowestWrong (grid_of rows columns grid.now) result }
{
    let mut limit = columns;
    let mut lowest = rows * columns;
    for row in 0..rows {
        let column = wrong_in_row(grid, rows, columns, row, limit);
        if column < limit {
            limit = column;
            lowest = column * rows + row;
        }
    }
    lowest
}

// SHAPE, BOARD, NUMBER.
pub fn check_numbers(rows: usize, columns: usize, grid: &[i32]) -> Result<(), Refusal>
    ensures { refusal_of result ≡ first_given (strict_checks (grid_of rows columns grid.now)) }
{
    checks::check_board(rows, columns, grid.len())?;
    let cell = lowest_wrong(grid, rows, columns);
    if cell < rows * columns {
        return Err(Refusal::Number(cell));
    }
    Ok(())
}

// SHAPE, BOARD, NUMBER for the strict form of a call; nothing for the present one, which checks for itself (no user calls it).
pub fn check_form(rows: usize, columns: usize, grid: &[i32], strict: bool) -> Result<(), Refusal>
    ensures { refusal_of result ≡ form_refusal «strict» (grid_of rows columns grid.now) }
{
    if strict {
        return check_numbers(rows, columns, grid);
    }
    Ok(())
}
