// L on one closed safe cell: it is opened, and what spreads from a 0-cell, around flags. No function calls itself.
#![tactic(auto)]

ghost use Rattle.std.specs.Prelude.{◌≡◌, List, ◌*◌, ◌<◌, ◌≤◌, ℤ};
ghost use Rattle.area.specs.Numbers.{HasCell, HasCells, state_at};
ghost use Rattle.area.specs.Squares.{square_of};
ghost use Rattle.area.specs.Stages.{Moving, Shape};
ghost use Rattle.game.specs.Grid.{Grid};
ghost use Rattle.game.specs.Lists.{fold};
ghost use Rattle.game.specs.Moves.{reveal as revealed};
ghost use Rattle.game.specs.Position.{Position};
ghost use Rattle.spread.specs.Spreads.{Fits, Opens, now_spread, visited};

use squares::Square;

// How many cells wait until their squares are visited, and how many were opened.
#[derive(Clone, Copy)]
struct Progress {
    waiting: usize,
    opened: usize,
}

// Opens a closed cell, and puts it to wait if it is a 0-cell; any other cell stays as it is.
fn visit(work: &mut [i32], index: usize, progress: Progress) -> Progress
    requires has_cell { HasCell work.old index × (progress.waiting ≤ 65025) × (progress.opened ≤ 65025) }
    requires has_cell_2 { state_at work.old index ≡ 0 → HasCell work.old progress.waiting }
    ensures { now_spread work.new result.waiting result.opened
        ≡ visited (now_spread work.old progress.waiting progress.opened) index }
{
    if area::state(work, index) != 0 {
        return progress;
    }
    let content = area::content(work, index);
    area::put_state(work, index, 1);
    let opened = progress.opened + 1;
    if content != 1 {
        return Progress { opened, ..progress };
    }
    area::put_waiting(work, progress.waiting, index);
    Progress {
        waiting: progress.waiting + 1,
        opened,
    }
}

// Visits the cells of a square, row after row.
fn visit_square(
    work: &mut [i32],
    rows: usize,
    columns: usize,
    index: usize,
    progress: Progress,
) -> Progress
    requires shape { Shape rows columns }
    requires has_cells { HasCells work.old (rows * columns) × (index < rows * columns) }
    requires fits { Fits (rows * columns) (now_spread work.old progress.waiting progress.opened) }
    ensures { now_spread work.new result.waiting result.opened
        ≡ fold visited (now_spread work.old progress.waiting progress.opened) (square_of rows columns index) }
{
    let mut so = progress;
    for near in Square::around(rows, columns, index) {
        so = visit(work, near, so);
    }
    so
}

// L on a closed unflagged safe cell: opens it, and for a 0-cell what spreads from it; any other cell stays. Answers how many cells it opened.
pub fn reveal(work: &mut [i32], rows: usize, columns: usize, index: usize) -> usize
    requires shape { Shape rows columns }
    requires has_cells { HasCells work.old (rows * columns) × (index < rows * columns) }
    ensures { (g : Grid) (s : Position) (old : List ℤ) → Moving rows columns g s old work.old
        → Opens rows columns g s (revealed g s index) old result work.new }
{
    if area::content(work, index) == 0 {
        return 0;
    }
    let mut so = visit(
        work,
        index,
        Progress {
            waiting: 0,
            opened: 0,
        },
    );
    // A while: how many cells come to wait shows only as it goes, which no `for` says.
    while 0 < so.waiting {
        let top = so.waiting - 1;
        let at = area::waiting(work, top);
        area::put_waiting(work, top, 0);
        so = visit_square(
            work,
            rows,
            columns,
            at,
            Progress {
                waiting: top,
                opened: so.opened,
            },
        );
    }
    so.opened
}
