// Above 512 cells: cells wait in the work area until their squares are visited. No function calls itself.
#![tactic(auto)]

ghost use Rattle.std.specs.Prelude.{◌+◌, ◌*◌, ◌<◌, ◌≤◌};
ghost use Rattle.area.specs.Numbers.{HasCells, content_at};
ghost use Rattle.labels.specs.Labels.{Ready, free_of, shaped};
ghost use Rattle.labels.specs.Spread.{OpeningLabelled};
ghost use Rattle.waiting.specs.Waits.{InSquare, Pushed, Visitable, Waited};

use labels::{border, fresh, put_label};
use squares::Square;

// Labels a 0-cell without label and puts it to wait; any other cell stays as it is. Answers how many wait.
fn wait(work: &mut [i32], cells: usize, op: usize, index: usize, top: usize) -> usize
    requires has_cells { HasCells work.old cells }
    requires cells_bound { cells < 2147483648 }
    requires le_op { (1 ≤ op) × (op < 2147483648) }
    requires work_bound { top + free_of cells work.old ≤ cells }
    ensures { Waited cells op index top work.old result work.new }
{
    if !fresh(work, cells, index) {
        return top;
    }
    put_label(work, index, op);
    area::put_waiting(work, top, index);
    top + 1
}

// Visits the square of a 0-cell, row after row. Answers how many wait.
fn visit_square(
    work: &mut [i32],
    rows: usize,
    columns: usize,
    op: usize,
    index: usize,
    top: usize,
) -> usize
    requires ready { Ready rows columns op work.old }
    requires visitable { Visitable (rows * columns) (content_at work.old) index top work.old }
    ensures { Pushed (shaped rows columns) (content_at work.old) op index
        (InSquare (shaped rows columns) index) work.old top work.new result }
{
    let mut waiting = top;
    for near in Square::around(rows, columns, index) {
        border(work, rows * columns, near, op);
        waiting = wait(work, rows * columns, op, near, waiting);
    }
    waiting
}

// Labels the opening of a 0-cell without label; any other cell stays as it is.
pub fn spread(work: &mut [i32], rows: usize, columns: usize, op: usize, index: usize)
    requires ready { Ready rows columns op work.old }
    requires bound { 512 < rows * columns }
    ensures { OpeningLabelled (shaped rows columns) (content_at work.old) op index
        work.old work.new }
{
    let mut top = wait(work, rows * columns, op, index, 0);
    // A while: a visit sets `top` anew, which no `for` says.
    while 0 < top {
        top -= 1;
        let at = area::waiting(work, top);
        area::put_waiting(work, top, 0);
        top = visit_square(work, rows, columns, op, at, top);
    }
}
