// Which columns may change: one byte a column is set to 0, a mark, where moves at a cell may change its premiums or its closed units.
#![tactic(auto)]

ghost use Rattle.std.specs.Prelude.{List, ◌+◌, ◌*◌, ◌<◌, ℤ};
ghost use Rattle.area.specs.Numbers.{HasCells};
ghost use Rattle.game.specs.Grid.{Grid};
ghost use Rattle.game.specs.Position.{Position};
ghost use Rattle.area.specs.Stages.{Shape, Stands};
ghost use Rattle.marks.specs.Marks.{Clicked, Marked};

use mark_columns::{mark_left, mark_near, mark_one, mark_right};
use mark_tests::borders_closed;

// Marks the columns whose highest premium the moves at a cell may change: those up to two from its own, and those of its openings if it borders a closed 0-cell.
pub fn mark(work: &[i32], rows: usize, columns: usize, tops: &mut [u8], index: usize)
    requires shape { Shape rows columns }
    requires has_cells { HasCells work.now (rows * columns) × (index < rows * columns) }
    ensures { (g : Grid) (s : Position) (old : List ℤ) → Stands rows columns g s old work.now → Marked g s index tops.old tops.new }
{
    mark_near(tops, index / rows);
    let first = area::first_label(work, index);
    if first == 0 {
        return;
    }
    if !borders_closed(work, rows, columns, index) {
        return;
    }
    let column = index / rows;
    let second = area::second_label(work, index);
    mark_left(
        work,
        rows,
        columns,
        tops,
        column.saturating_sub(2),
        first,
        second,
    );
    mark_right(work, rows, columns, tops, column + 3, first, second);
}

// Marks the columns that one L at a cell may change, where no premium reaches 0: its own, and for a 0-cell those of its opening too.
pub fn mark_click(work: &[i32], rows: usize, columns: usize, tops: &mut [u8], index: usize)
    requires shape { Shape rows columns }
    requires has_cells { HasCells work.now (rows * columns) × (index < rows * columns) }
    ensures { (g : Grid) (s : Position) (old : List ℤ) → Stands rows columns g s old work.now → Clicked g s index tops.old tops.new }
{
    if area::content(work, index) == 1 {
        mark(work, rows, columns, tops, index);
        return;
    }
    mark_one(tops, index / rows);
}
