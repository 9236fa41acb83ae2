// The values of the cells, by the bits of the mines: -1 for a mine and 0 for a safe cell, in a row and the one below it, and then the row's numbers by sums carried along it.
ghost use Rattle.std.specs.Prelude.{◌≡◌, cond, ◌+◌, ◌*◌, ◌<◌, ◌≤◌, pos, length, set};
ghost use Rattle.game.specs.Lists.{fold, range};
ghost use Rattle.game.specs.Grid.{right_values};
ghost use Rattle.game.specs.Area.{begun};
ghost use Rattle.area.specs.Numbers.{grid_of};
ghost use Rattle.area.specs.Stages.{Shape};
ghost use Rattle.lines.specs.BoardLine.{bit_at, value_of};
ghost use Rattle.mbf_read.specs.Numbers.{bit_grid, put_mine, put_right};

// The value at a place before numbers are counted: -1 for a mine, 0 for a safe cell.
fn mine_value(bits: &[u8], at: usize) -> i32
    requires { (length bits.now ≡ 8192) × (at < 65536) }
    ensures { result ≡ value_of (bit_at bits.now at) }
{
    if mine_bits::is_set(bits, at) {
        return -1;
    }
    0
}

// Puts -1 for a mine and 0 for a safe cell at the places `from` to before `to`.
fn put_mines(bits: &[u8], from: usize, to: usize, grid: &mut [i32])
    requires { (length bits.now ≡ 8192) × (from ≤ to) × (to ≤ 65536) × (to ≤ length grid.old) }
    ensures { grid.new ≡ fold (put_mine bits.now) grid.old (range from to) }
{
    for at in from..to {
        let value = mine_value(bits, at);
        grid[at] = value;
    }
}

// Puts a safe cell's number at its place; a mine's value stays.
fn put_number(grid: &mut [i32], at: usize, mine: bool, number: usize)
    requires { (at < length grid.old) × (number ≤ 9) }
    ensures { grid.new ≡ cond «mine» grid.old (set grid.old at (pos number)) }
{
    if mine {
        return;
    }
    grid[at] = number as i32;
}

// The right values of a row, where mines are told by their values in it and in the rows beside it. A number put does not change what is a mine.
fn number_row(rows: usize, columns: usize, row: usize, grid: &mut [i32])
    requires shape { Shape rows columns }
    requires row_lt_rows { (row < rows) × (rows * columns ≤ length grid.old) }
    ensures { grid.new ≡ fold (put_right (grid_of rows columns grid.old)) grid.old (range (row * columns) (row * columns + columns)) }
{
    let mut sums = mine_sums::sums_before(grid, rows, columns, row, 0);
    for column in 0..columns {
        sums = mine_sums::sums_after(grid, rows, columns, row, column, sums);
        let number = sums.left + sums.here + sums.right;
        put_number(grid, row * columns + column, sums.mine, number);
    }
}

// The values of all cells, at the start of a lent grid. The mines of the row below are put before a row is numbered.
pub fn fill(bits: &[u8], rows: usize, columns: usize, grid: &mut [i32])
    requires shape { Shape rows columns }
    requires bits_len { (length bits.now ≡ 8192) × (rows * columns ≤ length grid.old) }
    ensures { grid.new ≡ begun (right_values (bit_grid rows columns bits.now)) grid.old }
{
    put_mines(bits, 0, columns, grid);
    for row in 0..rows {
        let last = area::upper(row, rows);
        put_mines(bits, (row + 1) * columns, last * columns, grid);
        number_row(rows, columns, row, grid);
    }
}
