// A grid written as an MBF file: width, height, the mine count, then each mine's column and row, in cell index order.
#![tactic(auto)]

ghost use Rattle.std.specs.Prelude.{◌≡◌, ◌+◌, ◌*◌, ◌<◌, ◌≤◌, length};
ghost use Rattle.std.proofs.lemmas.List.Edits.{sets};
ghost use Rattle.game.specs.Area.{begun};
ghost use Rattle.area.specs.Numbers.{grid_of};
ghost use Rattle.area.specs.Stages.{Shape};
ghost use Rattle.lines.specs.Outputs.{KeepsRun};
ghost use Rattle.mbf_form.specs.Form.{file_of};
ghost use Rattle.mbf_form.specs.Calls.{strict_write_file_call, write_file_call};
ghost use Rattle.mbf_write.specs.Mines.{Listed, RoomFor, bytes_from, mines_from};
ghost use Rattle.mbf_write.specs.Answers.{file_written_answer};

use refusals::Refusal;

// The mines of a column.
fn count_column(rows: usize, columns: usize, grid: &[i32], column: usize) -> usize
    requires shape { Shape rows columns }
    requires grid_len { (length grid.now ≡ rows * columns) × (column < columns) }
    ensures { result ≡ length (mines_from (grid_of rows columns grid.now) (column * rows) (column * rows + rows)) }
{
    let mut mines: usize = 0;
    for row in 0..rows {
        mines += area::mine_in(grid, rows, columns, row, column) as usize;
    }
    mines
}

// The mines of the grid.
fn count_mines(rows: usize, columns: usize, grid: &[i32]) -> usize
    requires shape { Shape rows columns }
    requires grid_len { length grid.now ≡ rows * columns }
    ensures { result ≡ length (mines_from (grid_of rows columns grid.now) 0 (rows * columns)) }
{
    let mut mines: usize = 0;
    for column in 0..columns {
        mines += count_column(rows, columns, grid, column);
    }
    mines
}

// The two bytes of a cell that is a mine, at a place of the file: the next place.
fn put_mine(
    rows: usize,
    columns: usize,
    grid: &[i32],
    row: usize,
    column: usize,
    file: &mut [u8],
    at: usize,
) -> usize
    requires shape { Shape rows columns }
    requires grid_len { (length grid.now ≡ rows * columns) × (row < rows) × (column < columns) × RoomFor (grid_of rows columns grid.now) (column * rows + row) (column * rows + row + 1) file.old at }
    ensures { Listed (grid_of rows columns grid.now) (column * rows + row) (column * rows + row + 1) file.old at file.new result }
{
    if area::mine_in(grid, rows, columns, row, column) {
        file[at] = column as u8;
        file[at + 1] = row as u8;
        return at + 2;
    }
    at
}

// The bytes of a column's mines, at a place of the file: the next place.
fn put_column(
    rows: usize,
    columns: usize,
    grid: &[i32],
    column: usize,
    file: &mut [u8],
    at: usize,
) -> usize
    requires shape { Shape rows columns }
    requires grid_len { (length grid.now ≡ rows * columns) × (column < columns) × RoomFor (grid_of rows columns grid.now) (column * rows) (column * rows + rows) file.old at }
    ensures { Listed (grid_of rows columns grid.now) (column * rows) (column * rows + rows) file.old at file.new result }
{
    let mut next = at;
    for row in 0..rows {
        next = put_mine(rows, columns, grid, row, column, file, next);
    }
    next
}

// The bytes of the grid's mines, after the head.
fn put_mines(rows: usize, columns: usize, grid: &[i32], file: &mut [u8])
    requires shape { Shape rows columns }
    requires grid_len { (length grid.now ≡ rows * columns) × RoomFor (grid_of rows columns grid.now) 0 (rows * columns) file.old 4 }
    ensures { file.new ≡ sets file.old 4 (bytes_from (grid_of rows columns grid.now) 0 (rows * columns)) }
{
    let mut next: usize = 4;
    for column in 0..columns {
        next = put_column(rows, columns, grid, column, file, next);
    }
}

// The file of a grid with so many mines, at the start of a lent run.
fn put_file(rows: usize, columns: usize, grid: &[i32], mines: usize, file: &mut [u8])
    requires shape { Shape rows columns }
    requires grid_len { (length grid.now ≡ rows * columns) × (mines ≡ length (mines_from (grid_of rows columns grid.now) 0 (rows * columns))) × (4 + 2 * mines ≤ length file.old) }
    ensures { file.new ≡ begun (file_of (grid_of rows columns grid.now)) file.old }
{
    file[0] = columns as u8;
    file[1] = rows as u8;
    file[2] = (mines / 256) as u8;
    file[3] = (mines % 256) as u8;
    put_mines(rows, columns, grid, file);
}

// A grid written as an MBF file: how many bytes it has, at the start of the lent run.
pub fn write(rows: usize, columns: usize, grid: &[i32], file: &mut [u8]) -> Result<usize, Refusal>
    ensures { KeepsRun (write_file_call (grid_of rows columns grid.now) file.old) (file_written_answer result) file.new }
{
    checks::check_board(rows, columns, grid.len())?;
    let mines = count_mines(rows, columns, grid);
    if file.len() < 4 + 2 * mines {
        return Err(Refusal::Board);
    }
    put_file(rows, columns, grid, mines, file);
    Ok(4 + 2 * mines)
}

// The same, strictly: only -1 is taken for a mine and, for a safe cell, exactly its number.
pub fn strict_write(
    rows: usize,
    columns: usize,
    grid: &[i32],
    file: &mut [u8],
) -> Result<usize, Refusal>
    ensures { KeepsRun (strict_write_file_call (grid_of rows columns grid.now) file.old) (file_written_answer result) file.new }
{
    number_check::check_numbers(rows, columns, grid)?;
    write(rows, columns, grid, file)
}
