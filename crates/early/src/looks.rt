// One cell looked at: an opening that begins there, or a safe cell without label, is a unit.
ghost use Rattle.std.specs.Prelude.{◌≡◌, ◌+◌, ◌*◌, ◌<◌, ◌≤◌};
ghost use Rattle.game.specs.Lists.{some_of};
ghost use Rattle.area.specs.Numbers.{HasCells};
ghost use Rattle.area.specs.Squares.{square_of};
ghost use Rattle.area.specs.Stages.{Shape};
ghost use Rattle.early.specs.Looks.{LooksAt, Meets, lone_at, zero_at};

use labels::fresh;
use squares::Square;

// What goes from cell to cell: the openings labelled so far, and the units still lacking.
#[derive(Drop)]
pub struct Tally {
    pub openings: usize,
    pub lacking: usize,
}

// Whether a 0-cell stands in the square of a cell.
fn zero_near(work: &[i32], rows: usize, columns: usize, index: usize) -> bool
    requires has_cells { HasCells work.now (rows * columns) × (index < rows * columns) }
    requires shape { Shape rows columns }
    ensures { result ≡ some_of (zero_at work.now) (square_of rows columns index) }
{
    for near in Square::around(rows, columns, index) {
        if area::content(work, near) == 1 {
            return true;
        }
    }
    false
}

// Whether there is a safe cell that has no label and will get none: it has none yet, and no 0-cell is near.
#[tactic(auto, unfolding(crate::specs::Looks::lone_at))]
fn lone(work: &[i32], rows: usize, columns: usize, index: usize) -> bool
    requires has_cells { HasCells work.now (rows * columns) × (index < rows * columns) }
    requires shape { Shape rows columns }
    ensures { result ≡ lone_at rows columns work.now index }
{
    premiums::unlabelled(work, index) && !zero_near(work, rows, columns, index)
}

// The opening of a 0-cell without label is met: one unit less lacks, and if any does then, the opening is labelled.
fn meet(work: &mut [i32], rows: usize, columns: usize, tally: Tally, index: usize) -> Tally
    requires has_cells { HasCells work.old (rows * columns) × (index < rows * columns) × (1 ≤ tally.lacking) × (tally.openings ≤ index) }
    requires shape { Shape rows columns }
    ensures { Meets rows columns work.old tally index result work.new }
{
    let lacking = tally.lacking - 1;
    if lacking == 0 {
        return Tally {
            openings: tally.openings,
            lacking,
        };
    }
    let openings = tally.openings + 1;
    openings::label_opening(work, rows, columns, openings, index);
    Tally { openings, lacking }
}

// A cell is looked at. Answers the openings labelled and the units lacking after it.
pub fn look(work: &mut [i32], rows: usize, columns: usize, tally: Tally, index: usize) -> Tally
    requires has_cells { HasCells work.old (rows * columns) × (index < rows * columns) × (1 ≤ tally.lacking) × (tally.openings ≤ index) }
    requires shape { Shape rows columns }
    ensures { LooksAt rows columns work.old tally index result work.new }
{
    if fresh(work, rows * columns, index) {
        return meet(work, rows, columns, tally, index);
    }
    let lone = lone(work, rows, columns, index);
    Tally {
        openings: tally.openings,
        lacking: tally.lacking - lone as usize,
    }
}
