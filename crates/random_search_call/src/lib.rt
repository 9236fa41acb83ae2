// The public calls that search over random rounds, by lent bytes or by a key: the least clicks, draw bytes used, and the key after it.
#![tactic(auto)]

ghost use Rattle.std.specs.Prelude.{◌≡◌, List, ◌*◌, ◌^◌, ◌≤◌, ℤ, length};
ghost use Rattle.std.proofs.Math.Option.{Option};
ghost use Rattle.game.specs.Draws.{lent};
ghost use Rattle.game.specs.Keys.{keyed};
ghost use Rattle.game.specs.Grid.{Grid, size};
ghost use Rattle.game.specs.Rounds.{Searched};
ghost use Rattle.game.specs.Calls.{drawn_search, handing, keyed_search_call, random_search_call, search_by};
ghost use Rattle.draws.specs.Answers.{mode_of};
ghost use Rattle.keys.specs.Stands.{key_of};
ghost use Rattle.supplies.specs.Origins.{KeyRoom, Origin, Reads, Somewhere, source_of};
ghost use Rattle.area.specs.Numbers.{HasCells, grid_of};
ghost use Rattle.area.specs.Stages.{Shape};
ghost use Rattle.random.specs.Promises.{HandsOn, Searching, finish_answer};
ghost use Rattle.answers.specs.Answers.{Keeps, key_rolled_answer, rolled_answer};

use answers::{KeyRoll, Roll};
use draws::Mode;
use keys::Key;
use random::Finish;
use refusals::Refusal;
use supplies::Supply;

// A random search's lent memory is handed back: settled, or filled with 0 where the draws ran dry.
fn end_search(finish: Option<Finish>, rows: usize, columns: usize, work: &mut [i32])
    requires shape { Shape rows columns }
    requires has_cells { HasCells work.old (rows * columns) }
    ensures { (g : Grid) (origin : Origin) (o : Option Searched) (old : List ℤ) → size g ≡ rows * columns → HasCells old (size g)
        → Searching rows columns g old origin o work.old finish → Keeps (drawn_search g o old) (finish_answer finish) work.new }
{
    match finish {
        Some(_) => start::begin::settle(work, rows * columns),
        None => clears::clear_area(work, 5 * (rows * columns)),
    }
}

// A random search whose input has been checked, from a supply of draws.
fn search(
    rows: usize,
    columns: usize,
    grid: &[i32],
    work: &mut [i32],
    draws: &[u8],
    mode: Mode,
    supply: Supply,
    rounds: usize,
) -> Option<Finish>
    requires shape { Shape rows columns }
    requires grid_len { (length grid.now ≡ rows * columns) × HasCells work.old (rows * columns) × (1 ≤ rounds) }
    requires key_room { KeyRoom (2 ^ 24 * rounds) supply × Somewhere supply }
    ensures { (origin : Origin) → Reads origin 0 supply → HandsOn origin result
        × Keeps (search_by (source_of (mode_of mode) draws.now origin) rounds (grid_of rows columns grid.now) work.old) (finish_answer result) work.new }
{
    let units = start::begin::set_up(grid, rows, columns, work);
    let finish = random::search(work, rows, columns, draws, mode, units, supply, rounds);
    end_search(finish, rows, columns, work);
    finish
}

// A random search by lent bytes whose input has been checked.
fn search_checked(
    rows: usize,
    columns: usize,
    grid: &[i32],
    work: &mut [i32],
    draws: &[u8],
    mode: Mode,
    rounds: usize,
) -> Result<Roll, Refusal>
    requires shape { Shape rows columns }
    requires grid_len { (length grid.now ≡ rows * columns) × HasCells work.old (rows * columns) × (1 ≤ rounds) }
    ensures { Keeps (search_by (lent (mode_of mode) draws.now) rounds (grid_of rows columns grid.now) work.old) (rolled_answer result) work.new }
{
    let supply = supplies::of_bytes();
    let finish = search(rows, columns, grid, work, draws, mode, supply, rounds);
    finishes::rolled(finish)
}

// A random search by a key whose input has been checked.
fn search_keyed(
    rows: usize,
    columns: usize,
    grid: &[i32],
    work: &mut [i32],
    key: Key,
    mode: Mode,
    rounds: usize,
) -> Result<KeyRoll, Refusal>
    requires shape { Shape rows columns }
    requires grid_len { (length grid.now ≡ rows * columns) × HasCells work.old (rows * columns) × (1 ≤ rounds) × (rounds ≤ 1000000) }
    ensures { Keeps (handing (key_of key) (search_by (keyed (mode_of mode) (key_of key)) rounds (grid_of rows columns grid.now) work.old)) (key_rolled_answer result) work.new }
{
    let none = [0u8; 0];
    let supply = supplies::of_key(key);
    let finish = search(rows, columns, grid, work, &none, mode, supply, rounds);
    finishes::key_rolled(finish, key)
}

// Random search over so many rounds: the least clicks, and the draw bytes used.
pub fn random_search(
    rows: usize,
    columns: usize,
    grid: &[i32],
    work: &mut [i32],
    draws: &[u8],
    mode: Mode,
    rounds: usize,
) -> Result<Roll, Refusal>
    ensures { Keeps (random_search_call (mode_of mode) (grid_of rows columns grid.now) work.old draws.now rounds) (rolled_answer result) work.new }
{
    checks::check_more(rows, columns, grid, work, rounds, 1, Refusal::Rounds)?;
    search_checked(rows, columns, grid, work, draws, mode, rounds)
}

// Random search over so many rounds by a key, at most 1,000,000: the least clicks, the bytes of the key used, and the key after it.
pub fn keyed_search(
    rows: usize,
    columns: usize,
    grid: &[i32],
    work: &mut [i32],
    key: Key,
    mode: Mode,
    rounds: usize,
) -> Result<KeyRoll, Refusal>
    ensures { Keeps (keyed_search_call (mode_of mode) (grid_of rows columns grid.now) work.old (key_of key) rounds) (key_rolled_answer result) work.new }
{
    let counted = checks::check_keyed_rounds(rows, columns, grid, work, rounds);
    checks::check_key(counted, key)?;
    search_keyed(rows, columns, grid, work, key, mode, rounds)
}
