// The public calls that play a single random round, by lent bytes or by a key: clicks, draw bytes used, and the key after it.
#![tactic(auto)]

ghost use Rattle.std.specs.Prelude.{◌≡◌, List, ℕ, ◌*◌, ◌^◌, ◌≤◌, ℤ, length};
ghost use Rattle.game.specs.Draws.{Places, Source, lent};
ghost use Rattle.game.specs.Keys.{keyed};
ghost use Rattle.game.specs.Grid.{Grid, size};
ghost use Rattle.game.specs.Rounds.{random_round};
ghost use Rattle.game.specs.Calls.{handing_listed, keyed_round_call, random_round_call, round_by};
ghost use Rattle.draws.specs.Answers.{mode_of};
ghost use Rattle.keys.specs.Stands.{key_of};
ghost use Rattle.supplies.specs.Origins.{KeyRoom, Origin, Reads, Somewhere, source_of};
ghost use Rattle.area.specs.Numbers.{HasCells, grid_of};
ghost use Rattle.area.specs.Stages.{Shape};
ghost use Rattle.random.specs.Promises.{HandsOn, Rolling, finish_answer};
ghost use Rattle.answers.specs.Answers.{KeepsList, key_rolled_answer, rolled_answer};

use answers::{KeyRoll, Roll};
use draws::Mode;
use keys::Key;
use random::Finish;
use refusals::Refusal;
use supplies::Supply;

// A random round's lent memory is handed back: settled, or filled with 0 where the draws ran dry.
fn end_round(
    finish: Option<Finish>,
    rows: usize,
    columns: usize,
    work: &mut [i32],
    list: &mut [u32],
)
    requires shape { Shape rows columns }
    requires has_cells { HasCells work.old (rows * columns) × (rows * columns ≤ length list.old) }
    ensures { (g : Grid) (source : Source) (origin : Origin) (old : List ℤ) (before : List ℕ) → Places source → size g ≡ rows * columns → HasCells old (size g) → size g ≤ length before
        → Rolling rows columns g old origin (random_round g source 0) before work.old list.old finish
        → KeepsList (round_by source g old before) (finish_answer finish) work.new list.new }
{
    match finish {
        Some(_) => start::begin::settle(work, rows * columns),
        None => {
            clears::clear_area(work, 5 * (rows * columns));
            clears::clear_list(list, rows * columns);
        }
    }
}

// A random round whose input has been checked, from a supply of draws.
fn roll(
    rows: usize,
    columns: usize,
    grid: &[i32],
    work: &mut [i32],
    list: &mut [u32],
    draws: &[u8],
    mode: Mode,
    supply: Supply,
) -> Option<Finish>
    requires shape { Shape rows columns }
    requires grid_len { (length grid.now ≡ rows * columns) × HasCells work.old (rows * columns) × (rows * columns ≤ length list.old) }
    requires key_room { KeyRoom (2 ^ 24) supply × Somewhere supply }
    ensures { (origin : Origin) → Reads origin 0 supply → HandsOn origin result
        × KeepsList (round_by (source_of (mode_of mode) draws.now origin) (grid_of rows columns grid.now) work.old list.old) (finish_answer result) work.new list.new }
{
    let units = start::begin::set_up(grid, rows, columns, work);
    let finish = random::round(work, rows, columns, list, draws, mode, units, supply);
    end_round(finish, rows, columns, work, list);
    finish
}

// A random round by lent bytes whose input has been checked.
fn roll_checked(
    rows: usize,
    columns: usize,
    grid: &[i32],
    work: &mut [i32],
    list: &mut [u32],
    draws: &[u8],
    mode: Mode,
) -> Result<Roll, Refusal>
    requires shape { Shape rows columns }
    requires grid_len { (length grid.now ≡ rows * columns) × HasCells work.old (rows * columns) × (rows * columns ≤ length list.old) }
    ensures { KeepsList (round_by (lent (mode_of mode) draws.now) (grid_of rows columns grid.now) work.old list.old) (rolled_answer result) work.new list.new }
{
    let supply = supplies::of_bytes();
    let finish = roll(rows, columns, grid, work, list, draws, mode, supply);
    finishes::rolled(finish)
}

// A random round by a key whose input has been checked.
fn roll_keyed(
    rows: usize,
    columns: usize,
    grid: &[i32],
    work: &mut [i32],
    list: &mut [u32],
    key: Key,
    mode: Mode,
) -> Result<KeyRoll, Refusal>
    requires shape { Shape rows columns }
    requires grid_len { (length grid.now ≡ rows * columns) × HasCells work.old (rows * columns) × (rows * columns ≤ length list.old) }
    ensures { KeepsList (handing_listed (key_of key) (round_by (keyed (mode_of mode) (key_of key)) (grid_of rows columns grid.now) work.old list.old)) (key_rolled_answer result) work.new list.new }
{
    let none = [0u8; 0];
    let supply = supplies::of_key(key);
    let finish = roll(rows, columns, grid, work, list, &none, mode, supply);
    finishes::key_rolled(finish, key)
}

// A single random round: its clicks, its moves in the list, and the draw bytes used.
pub fn random_round(
    rows: usize,
    columns: usize,
    grid: &[i32],
    work: &mut [i32],
    list: &mut [u32],
    draws: &[u8],
    mode: Mode,
) -> Result<Roll, Refusal>
    ensures { KeepsList (random_round_call (mode_of mode) (grid_of rows columns grid.now) work.old list.old draws.now) (rolled_answer result) work.new list.new }
{
    checks::check_room(rows, columns, grid, work, list.len())?;
    roll_checked(rows, columns, grid, work, list, draws, mode)
}

// A single random round by a key: its clicks, its moves in the list, the bytes of the key used, and the key after it.
pub fn keyed_round(
    rows: usize,
    columns: usize,
    grid: &[i32],
    work: &mut [i32],
    list: &mut [u32],
    key: Key,
    mode: Mode,
) -> Result<KeyRoll, Refusal>
    ensures { KeepsList (keyed_round_call (mode_of mode) (grid_of rows columns grid.now) work.old list.old (key_of key)) (key_rolled_answer result) work.new list.new }
{
    let room = checks::check_room(rows, columns, grid, work, list.len());
    checks::check_key(room, key)?;
    roll_keyed(rows, columns, grid, work, list, key, mode)
}
