// The cells in index order, until so many units are found or fewer can be.
ghost use Rattle.std.specs.Prelude.{◌≡◌, ◌&&◌, ◌||◌, ◌+◌, ◌-◌, ◌*◌, ◌<◌, ◌≤◌, eqb, leb, ltb, length};
ghost use Rattle.game.specs.Lists.{range, some_of};
ghost use Rattle.area.specs.Numbers.{HasCells, grid_of};
ghost use Rattle.area.specs.Stages.{Shape};
ghost use Rattle.early.specs.Walks.{Glanced, Stopped, Walked, labelled_zero};

use crate::looks;
use crate::looks::Tally;

// Where a walk stopped: the cell that it did not look at any more, and the units then lacking.
#[derive(Clone, Copy)]
pub struct Stop {
    pub cell: usize,
    pub lacking: usize,
}

// Whether it is certain where a walk stopped: no unit lacks, or more than there are cells ahead.
fn certain(stop: Stop, cells: usize) -> bool
    requires { stop.cell ≤ cells }
    ensures { result ≡ (eqb stop.lacking 0 || ltb (cells - stop.cell) stop.lacking) }
{
    stop.lacking == 0 || cells - stop.cell < stop.lacking
}

// Looks at the cells below `limit` in index order until it is certain whether there are so many units, of a grid of so many cells. The work area has the contents of the first columns.
fn walk(
    work: &mut [i32],
    rows: usize,
    columns: usize,
    cells: usize,
    limit: usize,
    units: usize,
) -> Stop
    requires shape { Shape rows columns }
    requires has_cells { HasCells work.old (rows * columns) × (limit ≤ rows * columns) × (limit ≤ cells) }
    ensures { Walked rows columns cells limit units work.old result work.new }
{
    let mut tally = Tally {
        openings: 0,
        lacking: units,
    };
    for index in 0..limit {
        let here = Stop {
            cell: index,
            lacking: tally.lacking,
        };
        if certain(here, cells) {
            return here;
        }
        tally = looks::look(work, rows, columns, tally, index);
    }
    Stop {
        cell: limit,
        lacking: tally.lacking,
    }
}

// Whether a 0-cell of a column has a label.
fn labelled_in(work: &[i32], rows: usize, columns: usize, column: usize) -> bool
    requires shape { Shape rows columns }
    requires has_cells { HasCells work.now (rows * columns) × (column < columns) }
    ensures { result ≡ some_of (labelled_zero work.now) (range (column * rows) (column * rows + rows)) }
{
    let first = column * rows;
    for index in first..first + rows {
        if area::content(work, index) == 1 && area::first_label(work, index) != 0 {
            return true;
        }
    }
    false
}

// Of a grid of 64 columns or more, a walk through the first 16, with no more than 32 loaded. An opening that is labelled and may go on past these leaves it undecided, as any smaller grid does.
fn glance(grid: &[i32], rows: usize, columns: usize, work: &mut [i32], units: usize) -> Stop
    requires shape { Shape rows columns }
    requires grid_len { (length grid.now ≡ rows * columns) × HasCells work.old (rows * columns) }
    ensures { Glanced (grid_of rows columns grid.now) units work.old result work.new }
{
    let undecided = Stop {
        cell: 0,
        lacking: units,
    };
    if columns < 64 {
        return undecided;
    }
    start::load::load_columns(grid, rows, columns, work, 0, 32);
    let stop = walk(work, rows, 32, rows * columns, rows * 16, units);
    if labelled_in(work, rows, 32, 31) {
        return undecided;
    }
    stop
}

// Walks over a grid until it is certain whether it has so many units. Answers where that was, and the units then lacking.
pub fn count_until(
    grid: &[i32],
    rows: usize,
    columns: usize,
    work: &mut [i32],
    units: usize,
) -> Stop
    requires shape { Shape rows columns }
    requires grid_len { (length grid.now ≡ rows * columns) × HasCells work.old (rows * columns) }
    ensures { Stopped (grid_of rows columns grid.now) units work.old result work.new }
{
    let cells = rows * columns;
    let begun = Stop {
        cell: 0,
        lacking: units,
    };
    if certain(begun, cells) {
        return begun;
    }
    let glanced = glance(grid, rows, columns, work, units);
    if certain(glanced, cells) {
        return glanced;
    }
    start::load::load(grid, rows, columns, work);
    walk(work, rows, columns, cells, cells, units)
}
