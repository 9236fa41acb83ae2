// The checks of every call, in their order.
#![tactic(auto)]

ghost use Rattle.std.specs.Prelude.{◌≡◌, List, [], ◌∷◌, ◌++◌, ◌*◌, ℤ, length};
ghost use Rattle.game.specs.Grid.{Grid, size};
ghost use Rattle.game.specs.Calls.{Check, board_checks, first_given, grid_checks, key_check, keyed_rounds_check, room_check, work_check};
ghost use Rattle.area.specs.Numbers.{grid_of};
ghost use Rattle.keys.specs.Stands.{key_of};
ghost use Rattle.refusals.specs.Names.{refusal_of};
ghost use Rattle.checks.specs.OneMore.{below};

use keys::Key;
use refusals::Refusal;

// SHAPE, BOARD, by how many values the grid has.
pub fn check_board(rows: usize, columns: usize, board: usize) -> Result<(), Refusal>
    ensures { (vs : List ℤ) → length vs ≡ board → refusal_of result ≡ first_given (board_checks (grid_of rows columns vs)) }
{
    if rows == 0 {
        return Err(Refusal::Shape);
    }
    if 255 < rows {
        return Err(Refusal::Shape);
    }
    if columns == 0 {
        return Err(Refusal::Shape);
    }
    if 255 < columns {
        return Err(Refusal::Shape);
    }
    if board != rows * columns {
        return Err(Refusal::Board);
    }
    Ok(())
}

// WORK, by how many cells there are and how many numbers the work area has.
pub fn check_work(cells: usize, area: usize) -> Result<(), Refusal>
    ensures { (g : Grid) (ws : List ℤ) → size g ≡ cells → length ws ≡ area → refusal_of result ≡ first_given (work_check g ws ∷ []) }
{
    if area / 5 < cells {
        return Err(Refusal::Work);
    }
    Ok(())
}

// SHAPE, BOARD, WORK, by the lengths of the grid and the work area.
pub fn check_lengths(rows: usize, columns: usize, board: usize, area: usize) -> Result<(), Refusal>
    ensures { (vs ws : List ℤ) → length vs ≡ board → length ws ≡ area → refusal_of result ≡ first_given (grid_checks (grid_of rows columns vs) ws) }
{
    check_board(rows, columns, board)?;
    check_work(board, area)
}

// SHAPE, BOARD, WORK.
pub fn check(rows: usize, columns: usize, grid: &[i32], work: &[i32]) -> Result<(), Refusal>
    ensures { refusal_of result ≡ first_given (grid_checks (grid_of rows columns grid.now) work.now) }
{
    check_lengths(rows, columns, grid.len(), work.len())
}

// The checks of every call, then one more: a value below its least.
pub fn check_more(
    rows: usize,
    columns: usize,
    grid: &[i32],
    work: &[i32],
    value: usize,
    least: usize,
    refusal: Refusal,
) -> Result<(), Refusal>
    ensures { refusal_of result ≡ first_given (grid_checks (grid_of rows columns grid.now) work.now ++ below value least refusal) }
{
    check(rows, columns, grid, work)?;
    if value < least {
        return Err(refusal);
    }
    Ok(())
}

// SHAPE, BOARD, WORK, and TRACE where there is room for fewer moves than cells.
pub fn check_room(
    rows: usize,
    columns: usize,
    grid: &[i32],
    work: &[i32],
    room: usize,
) -> Result<(), Refusal>
    ensures { refusal_of result ≡ first_given (grid_checks (grid_of rows columns grid.now) work.now ++ room_check (grid_of rows columns grid.now) room ∷ []) }
{
    check_more(rows, columns, grid, work, room, grid.len(), Refusal::Trace)
}

// SHAPE, BOARD, WORK, and ROUNDS where there are none or more than 1,000,000.
pub fn check_keyed_rounds(
    rows: usize,
    columns: usize,
    grid: &[i32],
    work: &[i32],
    rounds: usize,
) -> Result<(), Refusal>
    ensures { refusal_of result ≡ first_given (grid_checks (grid_of rows columns grid.now) work.now ++ keyed_rounds_check rounds ∷ []) }
{
    check(rows, columns, grid, work)?;
    if rounds == 0 {
        return Err(Refusal::Rounds);
    }
    if 1000000 < rounds {
        return Err(Refusal::Rounds);
    }
    Ok(())
}

// What the checks before said, then KEY where the five words of a key are all 0.
pub fn check_key(checked: Result<(), Refusal>, key: Key) -> Result<(), Refusal>
    ensures { (cs : List Check) → refusal_of checked ≡ first_given cs → refusal_of result ≡ first_given (cs ++ key_check (key_of key) ∷ []) }
{
    checked?;
    if keys::is_blank(key) {
        return Err(Refusal::Key);
    }
    Ok(())
}
