// The mines of the grid.
ghost use Rattle.std.specs.Prelude.{◌≡◌, ◌+◌, ◌*◌, ◌<◌, ◌≤◌, length, get_or, pos};
ghost use Rattle.game.specs.Grid.{is_mine, mine};
ghost use Rattle.area.specs.Numbers.{grid_of};
ghost use Rattle.area.specs.Stages.{Shape};

// Whether the value at a place of the grid is a mine.
fn mine_at(grid: &[i32], at: usize) -> bool
    requires { at < length grid.now }
    ensures { result ≡ is_mine (get_or grid.now at (pos 0)) }
{
    grid[at] == -1
}

// Whether the cell in a row and a column is a mine: values stand row after row.
pub fn mine_in(grid: &[i32], rows: usize, columns: usize, row: usize, column: usize) -> bool
    requires shape { Shape rows columns }
    requires columns_in_bounds { (rows * columns ≤ length grid.now) × (row < rows) × (column < columns) }
    ensures { result ≡ mine (grid_of rows columns grid.now) (column * rows + row) }
{
    mine_at(grid, row * columns + column)
}
