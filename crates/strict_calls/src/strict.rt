// The strict form of each call: it takes only -1 for a mine and, for a safe cell, exactly its number. NUMBER names the lowest cell at fault; on any other grid the call does what the present one does.
ghost use Rattle.std.specs.Prelude.{false, true};
ghost use Rattle.game.specs.Calls.{strict_at_least_call, strict_keyed_round_call, strict_keyed_search_call, strict_price_call, strict_random_round_call, strict_random_search_call, strict_replay_call, strict_three_bv_call};
ghost use Rattle.draws.specs.Answers.{mode_of};
ghost use Rattle.keys.specs.Stands.{key_of};
ghost use Rattle.area.specs.Numbers.{grid_of};
ghost use Rattle.answers.specs.Answers.{Keeps, KeepsList, counted_answer, judged_answer, key_rolled_answer, replayed_answer, rolled_answer};

use answers::{KeyRoll, Played, Roll, Unplayed};
use draws::Mode;
use keys::Key;
use refusals::Refusal;

// 3BV of a grid; the work area is left at the position before any move.
pub fn three_bv(
    rows: usize,
    columns: usize,
    grid: &[i32],
    work: &mut [i32],
) -> Result<usize, Refusal>
    ensures { Keeps (strict_three_bv_call (grid_of rows columns grid.now) work.old) (counted_answer result) work.new }
{
    number_check::check_numbers(rows, columns, grid)?;
    count_call::count::three_bv(rows, columns, grid, work)
}

// Whether 3BV of a grid is at least so many units, counted until that is certain; the work area's numbers become 0.
pub fn at_least(
    rows: usize,
    columns: usize,
    grid: &[i32],
    work: &mut [i32],
    units: usize,
) -> Result<bool, Refusal>
    ensures { Keeps (strict_at_least_call (grid_of rows columns grid.now) work.old units) (judged_answer result) work.new }
{
    number_check::check_numbers(rows, columns, grid)?;
    count_call::count::at_least(rows, columns, grid, work, units)
}

// Greedy ZiNi, or openings-first: its clicks, and its moves in the list.
pub fn price(
    rows: usize,
    columns: usize,
    grid: &[i32],
    work: &mut [i32],
    list: &mut [u32],
    openings_first: bool,
) -> Result<usize, Refusal>
    ensures { KeepsList (strict_price_call openings_first (grid_of rows columns grid.now) work.old list.old) (counted_answer result) work.new list.new }
{
    number_check::check_numbers(rows, columns, grid)?;
    price_calls::prices::price(rows, columns, grid, work, list, openings_first)
}

// Greedy ZiNi: its clicks, and its moves in the list.
pub fn greedy(
    rows: usize,
    columns: usize,
    grid: &[i32],
    work: &mut [i32],
    list: &mut [u32],
) -> Result<usize, Refusal>
    ensures { KeepsList (strict_price_call false (grid_of rows columns grid.now) work.old list.old) (counted_answer result) work.new list.new }
{
    price(rows, columns, grid, work, list, false)
}

// Openings-first ZiNi: its clicks, and its moves in the list.
pub fn openings_first(
    rows: usize,
    columns: usize,
    grid: &[i32],
    work: &mut [i32],
    list: &mut [u32],
) -> Result<usize, Refusal>
    ensures { KeepsList (strict_price_call true (grid_of rows columns grid.now) work.old list.old) (counted_answer result) work.new list.new }
{
    price(rows, columns, grid, work, list, true)
}

// A single random round: its clicks, its moves in the list, and the draw bytes used.
pub fn random_round(
    rows: usize,
    columns: usize,
    grid: &[i32],
    work: &mut [i32],
    list: &mut [u32],
    draws: &[u8],
    mode: Mode,
) -> Result<Roll, Refusal>
    ensures { KeepsList (strict_random_round_call (mode_of mode) (grid_of rows columns grid.now) work.old list.old draws.now) (rolled_answer result) work.new list.new }
{
    number_check::check_numbers(rows, columns, grid)?;
    random_round_call::random_round(rows, columns, grid, work, list, draws, mode)
}

// Random search over so many rounds: the least clicks, and the draw bytes used.
pub fn random_search(
    rows: usize,
    columns: usize,
    grid: &[i32],
    work: &mut [i32],
    draws: &[u8],
    mode: Mode,
    rounds: usize,
) -> Result<Roll, Refusal>
    ensures { Keeps (strict_random_search_call (mode_of mode) (grid_of rows columns grid.now) work.old draws.now rounds) (rolled_answer result) work.new }
{
    number_check::check_numbers(rows, columns, grid)?;
    random_search_call::random_search(rows, columns, grid, work, draws, mode, rounds)
}

// A single random round by a key: its clicks, its moves in the list, the bytes of the key used, and the key after it.
pub fn keyed_round(
    rows: usize,
    columns: usize,
    grid: &[i32],
    work: &mut [i32],
    list: &mut [u32],
    key: Key,
    mode: Mode,
) -> Result<KeyRoll, Refusal>
    ensures { KeepsList (strict_keyed_round_call (mode_of mode) (grid_of rows columns grid.now) work.old list.old (key_of key)) (key_rolled_answer result) work.new list.new }
{
    number_check::check_numbers(rows, columns, grid)?;
    random_round_call::keyed_round(rows, columns, grid, work, list, key, mode)
}

// Random search over so many rounds by a key, at most 1,000,000: the least clicks, the bytes of the key used, and the key after it.
pub fn keyed_search(
    rows: usize,
    columns: usize,
    grid: &[i32],
    work: &mut [i32],
    key: Key,
    mode: Mode,
    rounds: usize,
) -> Result<KeyRoll, Refusal>
    ensures { Keeps (strict_keyed_search_call (mode_of mode) (grid_of rows columns grid.now) work.old (key_of key) rounds) (key_rolled_answer result) work.new }
{
    number_check::check_numbers(rows, columns, grid)?;
    random_search_call::keyed_search(rows, columns, grid, work, key, mode, rounds)
}

// The first moves of a list are played on a board: how many were made, the safe cells still closed, and the ending.
pub fn replay(
    rows: usize,
    columns: usize,
    grid: &[i32],
    work: &mut [i32],
    list: &[u32],
    count: usize,
) -> Result<Played, Unplayed>
    ensures { Keeps (strict_replay_call (grid_of rows columns grid.now) work.old list.now count) (replayed_answer result) work.new }
{
    number_check::check_numbers(rows, columns, grid)?;
    replay_call::replays::replay(rows, columns, grid, work, list, count)
}
