// Labels of the openings: by functions that call each other up to 512 cells, by waiting cells above.
#![tactic(auto)]

ghost use Rattle.std.specs.Prelude.{◌+◌, ◌*◌, ◌<◌, ◌≤◌, length, ℤ, ◌≡◌, List};
ghost use Rattle.area.specs.Numbers.{HasCells, content_at};
ghost use Rattle.area.specs.Stages.{Shape};
ghost use Rattle.labels.specs.Labels.{Ready, shaped};
ghost use Rattle.openings.specs.Numbering.{Begun, Labelling, Numbered};
ghost use Rattle.labels.specs.Spread.{OpeningLabelled};

use cycle::label_cell;
use labels::fresh;
use waiting::spread;

// Labels the opening of a 0-cell without label, by the form for so many cells.
pub fn label_opening(work: &mut [i32], rows: usize, columns: usize, op: usize, index: usize)
    requires { Ready rows columns op work.old }
    ensures { OpeningLabelled (shaped rows columns) (content_at work.old) op index
        work.old work.new }
{
    if rows * columns > 512 {
        spread(work, rows, columns, op, index);
        return;
    }
    label_cell(work, rows, columns, op, index);
}

// Labels the opening whose lowest 0-cell this is, if one begins here, as the next. Answers how many there are now.
fn begin(work: &mut [i32], rows: usize, columns: usize, count: usize, index: usize) -> usize
    requires ready { Ready rows columns (count + 1) work.old }
    requires index_bound { index < rows * columns }
    ensures { Begun (shaped rows columns) (content_at work.old) count index
        work.old result work.new }
{
    if !fresh(work, rows * columns, index) {
        return count;
    }
    label_opening(work, rows, columns, count + 1, index);
    count + 1
}

// Labels the openings whose lowest 0-cells are in a column, after those of the columns before it. Answers how many there are now.
fn label_column(work: &mut [i32], rows: usize, columns: usize, count: usize, column: usize) -> usize
    requires shape { Shape rows columns }
    requires has_cells { HasCells work.old (rows * columns) × (column < columns) × (count ≤ column * rows) }
    ensures work_len_unchanged { (length work.new ≡ length work.old) × (result ≤ count + rows) }
    ensures numbered { (w₀ : List ℤ) → Numbered rows columns w₀ (column * rows) count work.old → Numbered rows columns w₀ (column * rows + rows) result work.new }
{
    let mut found = count;
    for row in 0..rows {
        let index = area::cell(rows, columns, row, column);
        found = begin(work, rows, columns, found, index);
    }
    found
}

// Labels every opening, numbered from 1 by its lowest 0-cell. Answers how many there are.
pub fn label(work: &mut [i32], rows: usize, columns: usize) -> usize
    requires shape { Shape rows columns }
    requires has_cells { HasCells work.old (rows * columns) }
    ensures { Labelling rows columns work.old result work.new }
{
    let mut count: usize = 0;
    for column in 0..columns {
        count = label_column(work, rows, columns, count, column);
    }
    count
}
