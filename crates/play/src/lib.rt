// L, F and C on a work area that stands for a position.
#![tactic(auto)]

ghost use Rattle.std.specs.Prelude.{◌≡◌, ◌+◌, ◌*◌, ◌-◌, ◌^◌, ◌<◌, ◌≤◌, List, T, eqb, ℤ};
ghost use Rattle.area.specs.Numbers.{HasCell, HasCells, first_at};
ghost use Rattle.game.specs.Lists.{bit};
ghost use Rattle.game.specs.Grid.{Grid, mine, zero_cell};
ghost use Rattle.game.specs.Openings.{first_label};
ghost use Rattle.game.specs.Position.{Position, Tidy, closed as is_closed};
ghost use Rattle.game.specs.Moves.{play, flag as flag_move};
ghost use Rattle.area.specs.Stages.{Shape, Stands};
ghost use Rattle.play.specs.Walks.{opened_one, labelled_at, CellSwept, SweptOver, RunSwept, LeftSwept, RightSwept};
ghost use Rattle.play.specs.Promises.{Revealing, Opens, Chording, MinesFlagged, together};

use squares::Square;

// What moves opened: so many units.
#[derive(Drop)]
pub struct Opened {
    pub units: usize,
}

// Opens a closed cell of number 1 or more. Answers whether it is a unit, 1 or 0: it has no label.
fn open_one(work: &mut [i32], rows: usize, columns: usize, index: usize) -> usize
    requires { HasCells work.old (rows * columns) × (index < rows * columns) }
    ensures { (work.new ≡ opened_one rows columns work.old index) × (result ≡ bit (eqb (first_at work.old index) 0)) }
{
    area::put_state(work, index, 1);
    area::shift(work, index, 1, 0);
    let label = area::first_label(work, index);
    if label != 0 {
        return 0;
    }
    area::shift_square(work, rows, columns, index, 0, 1);
    1
}

// Whether the cell has the label.
fn labelled(work: &[i32], index: usize, label: usize) -> bool
    requires { HasCell work.now index }
    ensures { result ≡ labelled_at label work.now index }
{
    area::first_label(work, index) == label || area::second_label(work, index) == label
}

// One cell of a sweep: opened, or one opening less. Answers whether it has the label, 1 or 0.
fn sweep_cell(work: &mut [i32], index: usize, label: usize) -> usize
    requires { HasCell work.old index }
    ensures { CellSwept label work.old index result work.new }
{
    if !labelled(work, index, label) {
        return 0;
    }
    let state = area::state(work, index);
    if state == 0 {
        area::put_state(work, index, 1);
        return 1;
    }
    let premium = area::premium(work, index);
    area::put_premium(work, index, premium.saturating_sub(1));
    1
}

// Every cell of the label from `first` to before `last`. Answers how many have the label.
fn sweep(work: &mut [i32], first: usize, last: usize, label: usize) -> usize
    requires { (first ≤ last) × HasCells work.old last }
    ensures { RunSwept label first last work.old result work.new }
{
    let mut found: usize = 0;
    for index in first..last {
        found += sweep_cell(work, index, label);
    }
    found
}

// The given column, then those to its left until one has no cell of the label.
fn sweep_left(work: &mut [i32], rows: usize, columns: usize, column: usize, label: usize)
    requires shape { Shape rows columns }
    requires has_cells { HasCells work.old (rows * columns) × (column < columns) }
    ensures { LeftSwept rows label column work.old work.new }
{
    for left in (0..column + 1).rev() {
        let first = left * rows;
        let found = sweep(work, first, first + rows, label);
        if found == 0 {
            return;
        }
    }
}

// The columns from the given one on to the right until one has no cell of the label.
fn sweep_right(work: &mut [i32], rows: usize, columns: usize, column: usize, label: usize)
    requires shape { Shape rows columns }
    requires has_cells { HasCells work.old (rows * columns) × (column ≤ columns) }
    ensures { RightSwept rows columns label column work.old work.new }
{
    for right in column..columns {
        let first = right * rows;
        let found = sweep(work, first, first + rows, label);
        if found == 0 {
            return;
        }
    }
}

// Every cell of the opening of a 0-cell: its columns are without gap.
fn sweep_opening(work: &mut [i32], rows: usize, columns: usize, index: usize, label: usize)
    requires shape { Shape rows columns }
    requires has_cells { HasCells work.old (rows * columns) × (index < rows * columns) }
    ensures { (g : Grid) (s : Position) (old : List ℤ) → Stands rows columns g s old work.old
        → T (zero_cell g index) → label ≡ first_label g index → SweptOver label 0 (rows * columns) work.old work.new }
{
    let column = index / rows;
    sweep_left(work, rows, columns, column, label);
    sweep_right(work, rows, columns, column + 1, label);
}

// What two moves opened.
fn both(first: Opened, second: Opened) -> Opened
    requires { first.units + second.units ≤ 2 ^ 63 }
    ensures { result ≡ together first second }
{
    Opened {
        units: first.units + second.units,
    }
}

// A reveal, which opens one unit at most: an opening or a cell without label.
fn uncover(work: &mut [i32], rows: usize, columns: usize, index: usize) -> Opened
    requires shape { Shape rows columns }
    requires has_cells { HasCells work.old (rows * columns) × (index < rows * columns) }
    ensures { (result.units ≤ 1) × ((g : Grid) (s : Position) (old : List ℤ) → Stands rows columns g s old work.old → Tidy g s
        → Revealing rows columns g s old index result work.new) }
{
    let content = area::content(work, index);
    if content == 0 || area::state(work, index) != 0 {
        return Opened { units: 0 };
    }
    if content == 1 {
        let label = area::first_label(work, index);
        sweep_opening(work, rows, columns, index, label);
        return Opened { units: 1 };
    }
    let units = open_one(work, rows, columns, index);
    Opened { units }
}

// L, or nothing unless the cell is closed and safe. Answers what was opened.
pub fn reveal(work: &mut [i32], rows: usize, columns: usize, index: usize) -> Opened
    requires shape { Shape rows columns }
    requires has_cells { HasCells work.old (rows * columns) × (index < rows * columns) }
    ensures { (g : Grid) (s : Position) (old : List ℤ) → Stands rows columns g s old work.old → Tidy g s
        → Revealing rows columns g s old index result work.new }
{
    uncover(work, rows, columns, index)
}

// F on a closed mine.
pub fn flag(work: &mut [i32], rows: usize, columns: usize, index: usize)
    requires shape { Shape rows columns }
    requires has_cells { HasCells work.old (rows * columns) × (index < rows * columns) }
    ensures { (g : Grid) (s : Position) (old : List ℤ) → Stands rows columns g s old work.old
        → T (mine g index) → T (is_closed s index) → Stands rows columns g (play g s (flag_move index)) old work.new }
{
    area::put_state(work, index, 2);
    area::shift_square(work, rows, columns, index, 1, 0);
}

// C where the mines are flagged: a reveal of each cell of the square, by row, then column. Answers what was opened.
pub fn chord(work: &mut [i32], rows: usize, columns: usize, index: usize) -> Opened
    requires shape { Shape rows columns }
    requires has_cells { HasCells work.old (rows * columns) × (index < rows * columns) }
    ensures { (g : Grid) (s : Position) (old : List ℤ) → Stands rows columns g s old work.old → Tidy g s
        → MinesFlagged g s index → Chording rows columns g s old index result work.new }
{
    let mut opened = Opened { units: 0 };
    for near in Square::around(rows, columns, index) {
        let more = uncover(work, rows, columns, near);
        opened = both(opened, more);
    }
    opened
}
