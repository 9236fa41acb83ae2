// Each cell's premium in any position, set once the moves are made: openings that are still closed are marked, cells laid by their labels, squares raised.
#![tactic(auto)]

ghost use Rattle.std.specs.Prelude.{◌≡◌, List, ◌*◌, ◌<◌, ◌≤◌, eqb, ℤ};
ghost use Rattle.game.specs.Grid.{Grid};
ghost use Rattle.game.specs.Lists.{bit, fold, range};
ghost use Rattle.game.specs.Position.{Position};
ghost use Rattle.area.specs.Numbers.{HasCell, HasCells};
ghost use Rattle.area.specs.Stages.{Moving, Shape, Stands};
ghost use Rattle.late_premiums.specs.Passes.{alone_premium, closed_zero_at, halve_cell, keeper_of, lay_cell, mark_cell, mark_of, raise_near, raising_at};

// Whether there is a 0-cell that is not opened.
fn closed_zero(work: &[i32], index: usize) -> bool
    requires { HasCell work.now index }
    ensures { result ≡ closed_zero_at work.now index }
{
    if area::content(work, index) != 1 {
        return false;
    }
    area::state(work, index) != 1
}

// The cell that keeps the mark of a label.
fn keeper(cells: usize, label: usize) -> usize
    requires { 1 ≤ cells }
    ensures { (result ≡ keeper_of cells label) × (result < cells) }
{
    label.saturating_sub(1).min(cells - 1)
}

// A 0-cell that is not opened marks its opening as closed.
fn mark(work: &mut [i32], cells: usize, index: usize)
    requires { HasCells work.old cells × (index < cells) }
    ensures { work.new ≡ mark_cell cells work.old index }
{
    if !closed_zero(work, index) {
        return;
    }
    let kept = keeper(cells, area::first_label(work, index));
    area::put_premium(work, kept, 1);
}

// The openings that are closed are marked.
fn mark_all(work: &mut [i32], cells: usize)
    requires { HasCells work.old cells }
    ensures { work.new ≡ fold (mark_cell cells) work.old (range 0 cells) }
{
    for index in 0..cells {
        mark(work, cells, index);
    }
}

// The mark of a label: 1 while its opening is closed.
fn mark_of(work: &[i32], cells: usize, label: usize) -> usize
    requires { HasCells work.now cells × (1 ≤ cells) }
    ensures { (result ≡ mark_of cells work.now label) × (result ≤ 1) }
{
    if label == 0 {
        return 0;
    }
    area::premium(work, keeper(cells, label)) % 2
}

// The raised premium of a cell that no flagged mine and no closed unlabelled cell is near, by the closed openings among its labels; 0 for a mine.
fn alone(closed: usize, content: usize, state: usize) -> usize
    requires { closed ≤ 2 }
    ensures { (result ≡ alone_premium closed content state) × (result ≤ 12) }
{
    if content == 0 {
        return 0;
    }
    let opened = (state == 1) as usize;
    (9 + closed + opened).saturating_sub(content)
}

// A cell laid as if it stood alone, beside the mark that it keeps.
fn lay_cell(work: &mut [i32], cells: usize, index: usize)
    requires { HasCells work.old cells × (index < cells) }
    ensures { work.new ≡ lay_cell cells work.old index }
{
    let first = mark_of(work, cells, area::first_label(work, index));
    let second = mark_of(work, cells, area::second_label(work, index));
    let content = area::content(work, index);
    let state = area::state(work, index);
    let kept = area::premium(work, index) % 2;
    let laid = alone(first + second, content, state);
    area::put_premium(work, index, kept + 2 * laid);
}

// All cells laid.
fn lay_all(work: &mut [i32], cells: usize)
    requires { HasCells work.old cells }
    ensures { work.new ≡ fold (lay_cell cells) work.old (range 0 cells) }
{
    for index in 0..cells {
        lay_cell(work, cells, index);
    }
}

// The marks taken away.
fn halve_all(work: &mut [i32], cells: usize)
    requires { HasCells work.old cells }
    ensures { work.new ≡ fold halve_cell work.old (range 0 cells) }
{
    for index in 0..cells {
        let laid = area::premium(work, index);
        area::put_premium(work, index, laid / 2);
    }
}

// Whether there is a flagged mine, or a safe cell without label that is not opened.
fn raising(work: &[i32], index: usize) -> bool
    requires { HasCell work.now index }
    ensures { result ≡ raising_at work.now index }
{
    let state = area::state(work, index);
    if area::content(work, index) == 0 {
        return state == 2;
    }
    if area::first_label(work, index) != 0 {
        return false;
    }
    state != 1
}

// The safe cells of such a cell's square have 1 more.
fn raise_near(work: &mut [i32], rows: usize, columns: usize, index: usize)
    requires { HasCells work.old (rows * columns) × (index < rows * columns) }
    ensures { work.new ≡ raise_near rows columns work.old index }
{
    if !raising(work, index) {
        return;
    }
    area::shift_square(work, rows, columns, index, 1, 0);
}

// All such squares.
fn raise_all(work: &mut [i32], rows: usize, columns: usize)
    requires shape { Shape rows columns }
    requires has_cells { HasCells work.old (rows * columns) }
    ensures { work.new ≡ fold (raise_near rows columns) work.old (range 0 (rows * columns)) }
{
    let cells = rows * columns;
    for index in 0..cells {
        raise_near(work, rows, columns, index);
    }
}

// The premiums of the position that the moves came to.
pub fn lay(work: &mut [i32], rows: usize, columns: usize)
    requires shape { Shape rows columns }
    requires has_cells { HasCells work.old (rows * columns) }
    ensures { (g : Grid) (s : Position) (old : List ℤ) → Moving rows columns g s old work.old → Stands rows columns g s old work.new }
{
    let cells = rows * columns;
    mark_all(work, cells);
    lay_all(work, cells);
    halve_all(work, cells);
    raise_all(work, rows, columns);
}
