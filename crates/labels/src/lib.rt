// One cell: its content and labels in the work area, one more label.
#![tactic(auto)]

ghost use Rattle.std.specs.Prelude.{◌≡◌, ◌<◌};
ghost use Rattle.area.specs.Numbers.{HasCell, HasCells};
ghost use Rattle.labels.specs.Labels.{edge_first, edge_second, fresh_cell, bordered, put_label, numbered_of};

// Whether the cell is a 0-cell without label.
pub fn fresh(work: &[i32], cells: usize, index: usize) -> bool
    requires { HasCells work.now cells }
    ensures { result ≡ fresh_cell cells work.now index }
{
    index < cells && area::content(work, index) == 1 && area::first_label(work, index) == 0
}

// Whether the cell is on the grid and no 0-cell.
fn numbered(work: &[i32], cells: usize, index: usize) -> bool
    requires { HasCells work.now cells }
    ensures { result ≡ numbered_of cells work.now index }
{
    index < cells && area::content(work, index) != 1
}

// The first label after op is put.
#[tactic(auto, unfolding(crate::specs::Labels::edge_first))]
fn edge_first(op: usize, first: usize) -> usize
    ensures { result ≡ edge_first op first }
{
    if first == 0 { op } else { first }
}

// The second label after op is put.
#[tactic(auto, unfolding(crate::specs::Labels::edge_second))]
fn edge_second(op: usize, first: usize, second: usize) -> usize
    ensures { result ≡ edge_second op first second }
{
    if first == 0 || first == op || second != 0 {
        second
    } else {
        op
    }
}

// Puts the label op: as the first if there is none, else as the second if there is none and the first is another.
pub fn put_label(work: &mut [i32], index: usize, op: usize)
    requires has_cell { HasCell work.old index }
    requires op_bound { op < 2147483648 }
    ensures { work.new ≡ put_label work.old index op }
{
    let first = area::first_label(work, index);
    let second = area::second_label(work, index);
    area::put_first_label(work, index, edge_first(op, first));
    area::put_second_label(work, index, edge_second(op, first, second));
}

// Puts the label op at a cell of number 1 or more; any other place stays as it is.
pub fn border(work: &mut [i32], cells: usize, index: usize, op: usize)
    requires has_cells { HasCells work.old cells }
    requires op_bound { op < 2147483648 }
    ensures { work.new ≡ bordered cells work.old index op }
{
    if numbered(work, cells, index) {
        put_label(work, index, op);
    }
}
