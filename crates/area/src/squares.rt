// A cell by its row and column, and the cells of its square.
ghost use Rattle.std.specs.Prelude.{◌≡◌, ◌+◌, ◌*◌, ◌-◌, ◌<◌, ◌≤◌, min, []};
ghost use Rattle.area.specs.Numbers.{grid_of};
ghost use Rattle.area.specs.Squares.{Around, Neighbour};
ghost use Rattle.area.specs.Stages.{Shape};

// The index of the cell in a row and a column.
pub fn cell(rows: usize, columns: usize, row: usize, column: usize) -> usize
    requires { (row < rows) × (column < columns) × (rows ≤ 255) × (columns ≤ 255) }
    ensures { (result ≡ column * rows + row) × (result < rows * columns) }
{
    column * rows + row
}

// The one past the last of the rows or columns beside x, of n.
pub fn upper(x: usize, n: usize) -> usize
    requires { x < n }
    ensures { result ≡ min (x + 2) n }
{
    if x + 1 < n { x + 2 } else { n }
}

// The sides of a square: its rows from `first` to before `last`, its columns from `from` to before `to`.
#[derive(Clone, Copy)]
pub struct Sides {
    pub first: usize,
    pub last: usize,
    pub from: usize,
    pub to: usize,
}

// The sides of a cell's square.
pub fn around(rows: usize, columns: usize, index: usize) -> Sides
    requires { index < rows * columns }
    ensures { Around rows columns index result.first result.last result.from result.to }
{
    let row = index % rows;
    let column = index / rows;
    Sides {
        first: row.saturating_sub(1),
        last: row.saturating_add(2).min(rows),
        from: column.saturating_sub(1),
        to: column.saturating_add(2).min(columns),
    }
}

// The cell so many rows down and columns right in the square of the cell in a row and a column, or a number past the cells where that is off the grid.
pub fn near_at(
    rows: usize,
    columns: usize,
    row: usize,
    column: usize,
    down: usize,
    right: usize,
) -> usize
    requires shape { Shape rows columns }
    requires row_lt_rows { (row < rows) × (column < columns) × (down < 3) × (right < 3) }
    ensures { Neighbour (grid_of rows columns []) (column * rows + row) down right result }
{
    let below = row + down;
    let beside = column + right;
    if below == 0 || below > rows || beside == 0 || beside > columns {
        return rows * columns;
    }
    (beside - 1) * rows + (below - 1)
}

// The same of a cell by its index.
pub fn near(rows: usize, columns: usize, index: usize, down: usize, right: usize) -> usize
    requires shape { Shape rows columns }
    requires index_bound { (index < rows * columns) × (down < 3) × (right < 3) }
    ensures { Neighbour (grid_of rows columns []) index down right result }
{
    near_at(rows, columns, index % rows, index / rows, down, right)
}
