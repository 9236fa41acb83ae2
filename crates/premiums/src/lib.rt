// Each cell's first premium, and the count of the safe cells without label, in a labelled work area.
#![tactic(auto)]

ghost use Rattle.std.specs.Prelude.{◌≡◌, ◌*◌, ◌<◌, ◌≤◌};
ghost use Rattle.game.specs.Lists.{count, range, fold};
ghost use Rattle.area.specs.Numbers.{HasCell, HasCells};
ghost use Rattle.area.specs.Stages.{Shape};
ghost use Rattle.premiums.specs.Laying.{unlabelled_at, alone_premium, lay_cell, raise_near};

// The raised premium of a cell that no unlabelled cell is near, before any move; 0 for a mine.
pub fn alone(labels: usize, content: usize) -> usize
    requires { labels ≤ 2 }
    ensures { result ≡ alone_premium labels content }
{
    if content == 0 {
        0
    } else {
        (9 + labels).saturating_sub(content)
    }
}

// Each cell before any move, as if no unlabelled cell were near. Answers the safe cells without label.
pub fn lay(work: &mut [i32], cells: usize) -> usize
    requires { HasCells work.old cells }
    ensures { (work.new ≡ fold lay_cell work.old (range 0 cells))
        × (result ≡ count (unlabelled_at work.old) (range 0 cells)) × (result ≤ cells) }
{
    let mut found: usize = 0;
    for index in 0..cells {
        found += unlabelled(work, index) as usize;
        let first = area::first_label(work, index) != 0;
        let second = area::second_label(work, index) != 0;
        let content = area::content(work, index);
        area::put_premium(
            work,
            index,
            alone(first as usize + second as usize, content),
        );
        area::put_state(work, index, 0);
    }
    found
}

// Whether there is a safe cell without label.
pub fn unlabelled(work: &[i32], index: usize) -> bool
    requires { HasCell work.now index }
    ensures { result ≡ unlabelled_at work.now index }
{
    area::content(work, index) != 0 && area::first_label(work, index) == 0
}

// The safe cells of a cell's square have 1 more, if it is safe and unlabelled.
pub fn raise_near(work: &mut [i32], rows: usize, columns: usize, index: usize)
    requires { HasCells work.old (rows * columns) × (index < rows * columns) }
    ensures { work.new ≡ raise_near rows columns work.old index }
{
    if unlabelled(work, index) {
        area::shift_square(work, rows, columns, index, 1, 0);
    }
}

// The squares of the grid's unlabelled cells.
pub fn raise_all(work: &mut [i32], rows: usize, columns: usize)
    requires shape { Shape rows columns }
    requires has_cells { HasCells work.old (rows * columns) }
    ensures { work.new ≡ fold (raise_near rows columns) work.old (range 0 (rows * columns)) }
{
    for index in 0..rows * columns {
        raise_near(work, rows, columns, index);
    }
}
