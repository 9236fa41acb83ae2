// Up to 512 cells: a cell function and a neighbour function that call each other.
#![tactic(auto)]

ghost use Rattle.std.specs.Prelude.{◌*◌, ◌<◌, ◌≤◌, ◌≡◌};
ghost use Rattle.area.specs.Numbers.{content_at};
ghost use Rattle.labels.specs.Labels.{Ready, shaped};
ghost use Rattle.labels.specs.Spread.{OpeningLabelled};
ghost use Rattle.cycle.specs.Visits.{Visited};

use labels::{border, fresh, put_label};

// Labels the opening of a 0-cell without label; any other cell stays as it is.
#[cycle(label_cell_visit)]
pub fn label_cell(work: &mut [i32], rows: usize, columns: usize, op: usize, index: usize)
    requires ready { Ready rows columns op work.old }
    requires columns_bound { rows * columns ≤ 512 }
    ensures { OpeningLabelled (shaped rows columns) (content_at work.old) op index
        work.old work.new }
{
    if !fresh(work, rows * columns, index) {
        return;
    }
    put_label(work, index, op);
    visit(work, rows, columns, op, index);
}

// Visits the neighbours of a 0-cell in turn: one of number 1 or more gets the label, a 0-cell without label is labelled in turn.
#[cycle(label_cell_visit)]
fn visit(work: &mut [i32], rows: usize, columns: usize, op: usize, index: usize)
    requires ready { Ready rows columns op work.old }
    requires index_bound { index < rows * columns }
    requires index_value { content_at work.old index ≡ 1 }
    requires columns_bound { rows * columns ≤ 512 }
    ensures { Visited (shaped rows columns) (content_at work.old) op index 9
        work.old work.new }
{
    for k in 0..9 {
        let at = area::near(rows, columns, index, k / 3, k % 3);
        border(work, rows * columns, at, op);
        label_cell(work, rows, columns, op, at);
    }
}
