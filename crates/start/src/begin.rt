// The position before any move: contents, labels, first premiums; and the work area handed back.
ghost use Rattle.std.specs.Prelude.{◌≡◌, List, ◌+◌, ◌*◌, ℤ, length};
ghost use Rattle.game.specs.Lists.{count, range};
ghost use Rattle.game.specs.Grid.{Grid, size};
ghost use Rattle.game.specs.Position.{Position, untouched};
ghost use Rattle.game.specs.Area.{area_of};
ghost use Rattle.area.specs.Numbers.{HasCells, grid_of};
ghost use Rattle.area.specs.Stages.{Shape, Stands, held};
ghost use Rattle.premiums.specs.Laying.{safe_at};
ghost use Rattle.start.specs.Setting.{SetOut, Setting};

// The work area stands for the position before any move. Answers the units.
pub fn set_up(grid: &[i32], rows: usize, columns: usize, work: &mut [i32]) -> usize
    requires shape { Shape rows columns }
    requires grid_len { (length grid.now ≡ rows * columns) × HasCells work.old (rows * columns) }
    ensures { Setting (grid_of rows columns grid.now) work.old result work.new }
{
    let cells = rows * columns;
    crate::load::load(grid, rows, columns, work);
    let openings = openings::label(work, rows, columns);
    let unlabelled = premiums::lay(work, cells);
    premiums::raise_all(work, rows, columns);
    openings + unlabelled
}

// The safe cells of a work area with contents.
fn count_safe(work: &[i32], cells: usize) -> usize
    requires { HasCells work.now cells }
    ensures { result ≡ count (safe_at work.now) (range 0 cells) }
{
    let mut safe: usize = 0;
    for index in 0..cells {
        safe += (area::content(work, index) != 0) as usize;
    }
    safe
}

// The work area before the moves of a replay, without premiums. Answers the safe cells.
pub fn set_out(grid: &[i32], rows: usize, columns: usize, work: &mut [i32]) -> usize
    requires shape { Shape rows columns }
    requires grid_len { (length grid.now ≡ rows * columns) × HasCells work.old (rows * columns) }
    ensures { SetOut rows columns (grid_of rows columns grid.now) work.old result work.new }
{
    crate::load::load(grid, rows, columns, work);
    openings::label(work, rows, columns);
    count_safe(work, rows * columns)
}

// The work area is handed back: it holds a position as RULES 6.1 says.
pub fn settle(work: &mut [i32], cells: usize)
    requires { HasCells work.old cells }
    ensures { (g : Grid) (s : Position) (old : List ℤ) → size g ≡ cells → HasCells old (size g) → work.old ≡ held g s old → work.new ≡ area_of g s old }
{
    crate::settle::settle_cells(work, cells);
}

// The position before any move again, from any position: the labels are not found anew.
pub fn reset(work: &mut [i32], rows: usize, columns: usize)
    requires shape { Shape rows columns }
    requires has_cells { HasCells work.old (rows * columns) }
    ensures { (g : Grid) (s : Position) (old : List ℤ) → Stands rows columns g s old work.old → work.new ≡ held g (untouched g) old }
{
    let cells = rows * columns;
    premiums::lay(work, cells);
    premiums::raise_all(work, rows, columns);
}
