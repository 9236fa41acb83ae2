// One byte a column: 1 more than its highest premium, or 0, a mark that it must be looked at again.
ghost use Rattle.std.specs.Prelude.{◌≡◌, List, ◌+◌, ◌*◌, ◌<◌, ℤ, get_or, length};
ghost use Rattle.area.specs.Numbers.{HasCell, HasCells};
ghost use Rattle.game.specs.Grid.{Grid};
ghost use Rattle.game.specs.Lists.{keep, range};
ghost use Rattle.game.specs.Position.{Position};
ghost use Rattle.game.specs.Rounds.{top_cells};
ghost use Rattle.area.specs.Stages.{Shape, Stands};
ghost use Rattle.choices.specs.Tests.{top_at};
ghost use Rattle.choices.specs.Picks.{found_first};
ghost use Rattle.choices.specs.Tops.{TopsKnown, column_top, first_of, higher_of, kept_of};

use crate::{Best, highest};

// The byte kept of a number.
pub fn kept_of(top: usize) -> u8
    ensures { result ≡ kept_of top }
{
    u8::try_from(top.saturating_add(1)).unwrap_or(0)
}

// The higher premium so far, and the first column that has it, once a column's is known.
fn higher(best: Best, top: usize, column: usize) -> Best
    ensures { result ≡ higher_of best top column }
{
    if top <= best.top {
        return best;
    }
    Best { top, at: column }
}

// A column's highest premium: the kept one, or looked at again and kept.
fn top_of(
    work: &[i32],
    rows: usize,
    columns: usize,
    tops: &mut [u8],
    opened_only: bool,
    column: usize,
) -> usize
    requires shape { Shape rows columns }
    requires has_cells { HasCells work.now (rows * columns) × (column < columns) × TopsKnown opened_only work.now rows columns tops.old }
    ensures value { result ≡ column_top opened_only work.now rows column }
    ensures tops_len_unchanged { (length tops.new ≡ length tops.old) × TopsKnown opened_only work.now rows columns tops.new }
{
    let kept = usize::from(tops[column]);
    if kept > 0 {
        return kept - 1;
    }
    let found = highest::scan_column(work, rows, columns, column, opened_only);
    tops[column] = kept_of(found);
    found
}

// The highest premium of all columns, and the first column that has it.
pub fn first_column(
    work: &[i32],
    rows: usize,
    columns: usize,
    tops: &mut [u8],
    opened_only: bool,
) -> Best
    requires shape { Shape rows columns }
    requires has_cells { HasCells work.now (rows * columns) × TopsKnown opened_only work.now rows columns tops.old }
    ensures value { result ≡ first_of opened_only work.now rows columns columns }
    ensures tops_len_unchanged { (length tops.new ≡ length tops.old) × TopsKnown opened_only work.now rows columns tops.new }
{
    let mut found = Best {
        top: 9,
        at: columns,
    };
    for column in 0..columns {
        let top = top_of(work, rows, columns, tops, opened_only, column);
        found = higher(found, top, column);
    }
    found
}

// Whether a step may look at the cell, and it has the premium.
fn has_top(work: &[i32], index: usize, opened_only: bool, top: usize) -> bool
    requires { HasCell work.now index }
    ensures { result ≡ top_at opened_only top work.now index }
{
    area::premium(work, index) == top && highest::looked(work, index, opened_only)
}

// The first such cell of a column; 0 if there is none.
fn first_row(
    work: &[i32],
    rows: usize,
    columns: usize,
    column: usize,
    opened_only: bool,
    top: usize,
) -> usize
    requires shape { Shape rows columns }
    requires has_cells { HasCells work.now (rows * columns) × (column < columns) }
    ensures { result ≡ get_or (keep (top_at opened_only top work.now) (range (column * rows) (column * rows + rows))) 0 0 }
{
    for row in 0..rows {
        let at = area::cell(rows, columns, row, column);
        if has_top(work, at, opened_only, top) {
            return at;
        }
    }
    0
}

// The lowest of the cells of highest premium, if that is 0 or more: only its column is looked at again, and those marked.
pub fn best(
    work: &[i32],
    rows: usize,
    columns: usize,
    tops: &mut [u8],
    opened_only: bool,
) -> Option<usize>
    requires shape { Shape rows columns }
    requires has_cells { HasCells work.now (rows * columns) × TopsKnown opened_only work.now rows columns tops.old }
    ensures tops_len_unchanged { (length tops.new ≡ length tops.old) × TopsKnown opened_only work.now rows columns tops.new }
    ensures value { (g : Grid) (s : Position) (old : List ℤ) → Stands rows columns g s old work.now → result ≡ found_first (top_cells opened_only g s) }
{
    let first = first_column(work, rows, columns, tops, opened_only);
    let column = first.at;
    if column >= columns {
        return None;
    }
    Some(first_row(work, rows, columns, column, opened_only, first.top))
}
