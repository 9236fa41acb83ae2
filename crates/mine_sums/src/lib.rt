// The mines of a square by its three columns: each column of three is summed once, and the sums are carried along a row, so that a cell reads one new column.
#![tactic(auto)]

ghost use Rattle.std.specs.Prelude.{◌≡◌, false, ◌+◌, ◌-◌, ◌*◌, ◌<◌, ◌≤◌, min, length};
ghost use Rattle.game.specs.Lists.{count, range};
ghost use Rattle.area.specs.Numbers.{grid_of};
ghost use Rattle.area.specs.Stages.{Shape};
ghost use Rattle.mine_sums.specs.Columns.{column_mines, mine_in};
ghost use Rattle.mine_sums.specs.Carried.{After, Before};

// The mines of three columns, each in a row and the rows beside it: of the column to the left of a cell, of its own and of the one to the right; and whether the cell and the one to its right are mines.
#[derive(Drop)]
pub struct Sums {
    pub left: usize,
    pub here: usize,
    pub right: usize,
    pub mine: bool,
    pub next: bool,
}

// 1 for a mine above the cell in a row and a column, else 0; none is above the first row.
fn mine_above(grid: &[i32], rows: usize, columns: usize, row: usize, column: usize) -> usize
    requires shape { Shape rows columns }
    requires columns_in_bounds { (rows * columns ≤ length grid.now) × (row < rows) × (column < columns) }
    ensures { (result ≡ count (mine_in (grid_of rows columns grid.now) column) (range (row - 1) row)) × (result ≤ 1) }
{
    if row == 0 {
        return 0;
    }
    area::mine_in(grid, rows, columns, row - 1, column) as usize
}

// 1 for a mine below the cell in a row and a column, else 0; none is below the last row.
fn mine_below(grid: &[i32], rows: usize, columns: usize, row: usize, column: usize) -> usize
    requires shape { Shape rows columns }
    requires columns_in_bounds { (rows * columns ≤ length grid.now) × (row < rows) × (column < columns) }
    ensures { (result ≡ count (mine_in (grid_of rows columns grid.now) column) (range (row + 1) (min (row + 2) rows))) × (result ≤ 1) }
{
    if row + 1 == rows {
        return 0;
    }
    area::mine_in(grid, rows, columns, row + 1, column) as usize
}

// The mines of a column, in a row and the rows beside it, where `own` tells whether the cell in the row itself is one.
fn sum_of(grid: &[i32], rows: usize, columns: usize, row: usize, column: usize, own: bool) -> usize
    requires shape { Shape rows columns }
    requires columns_in_bounds { (rows * columns ≤ length grid.now) × (row < rows) × (column < columns) }
    requires own_value { «own» ≡ mine_in (grid_of rows columns grid.now) column row }
    ensures { result ≡ column_mines (grid_of rows columns grid.now) row column (column + 1) }
{
    let above = mine_above(grid, rows, columns, row, column);
    let below = mine_below(grid, rows, columns, row, column);
    above + own as usize + below
}

// What is carried before a column of a row is looked at: the sums of the column to its left and of its own, as `here` and `right`, and whether its cell is a mine, as `next`; nothing yet as `left` and `mine`. There is no column left of the first.
pub fn sums_before(grid: &[i32], rows: usize, columns: usize, row: usize, column: usize) -> Sums
    requires shape { Shape rows columns }
    requires columns_in_bounds { (rows * columns ≤ length grid.now) × (row < rows) × (column < columns) }
    ensures { Before (grid_of rows columns grid.now) row column result × (result.left ≡ 0) × (result.mine ≡ false) }
{
    let next = area::mine_in(grid, rows, columns, row, column);
    let right = sum_of(grid, rows, columns, row, column, next);
    if column == 0 {
        return Sums {
            left: 0,
            here: 0,
            right,
            mine: false,
            next,
        };
    }
    let before = area::mine_in(grid, rows, columns, row, column - 1);
    Sums {
        left: 0,
        here: sum_of(grid, rows, columns, row, column - 1, before),
        right,
        mine: false,
        next,
    }
}

// What is carried after a column of a row: the sum of the column that comes in is added, that of the one that goes is dropped. There is no column past the last.
pub fn sums_after(
    grid: &[i32],
    rows: usize,
    columns: usize,
    row: usize,
    column: usize,
    sums: Sums,
) -> Sums
    requires shape { Shape rows columns }
    requires columns_in_bounds { (rows * columns ≤ length grid.now) × (row < rows) × (column < columns) }
    requires before { Before (grid_of rows columns grid.now) row column sums }
    ensures { After (grid_of rows columns grid.now) row column result }
{
    let left = sums.here;
    let here = sums.right;
    let mine = sums.next;
    if column + 1 == columns {
        return Sums {
            left,
            here,
            right: 0,
            mine,
            next: false,
        };
    }
    let next = area::mine_in(grid, rows, columns, row, column + 1);
    let right = sum_of(grid, rows, columns, row, column + 1, next);
    Sums {
        left,
        here,
        right,
        mine,
        next,
    }
}
