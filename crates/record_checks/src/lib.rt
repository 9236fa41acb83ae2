// What the calls over runs of move records decide before and after the flat call: by the run's length whether it is refused, and how many records are written or copied. No user calls these: `record_calls` does.
#![tactic(auto)]

ghost use Rattle.std.specs.Prelude.{◌≡◌, List, ℤ, length};
ghost use Rattle.std.proofs.Math.Option.{some};
ghost use Rattle.game.specs.Calls.{first_given, kept_listed, keyed_round_call, price_call, random_round_call, refuses, replay_call, unless};
ghost use Rattle.area.specs.Numbers.{grid_of};
ghost use Rattle.draws.specs.Answers.{mode_of};
ghost use Rattle.keys.specs.Stands.{key_of};
ghost use Rattle.refusals.specs.Names.{named, refusal_of};
ghost use Rattle.number_check.specs.Forms.{in_form};
ghost use Rattle.answers.specs.Answers.{Keeps, KeepsList, counted_answer, key_rolled_answer, replayed_answer, rolled_answer};
ghost use Rattle.record_checks.specs.Promises.{copied_if, replay_checks, within, written_by};

use answers::{KeyRoll, Played, Roll, Unplayed};
use draws::Mode;
use keys::Key;
use refusals::Refusal;

// Greedy or openings-first for a run of so many records (no user calls it).
pub fn price_within(
    rows: usize,
    columns: usize,
    grid: &[i32],
    work: &mut [i32],
    list: &mut [u32],
    room: usize,
    openings_first: bool,
) -> Result<usize, Refusal>
    ensures { KeepsList (within (grid_of rows columns grid.now) work.old list.old room (price_call openings_first (grid_of rows columns grid.now) work.old list.old)) (counted_answer result) work.new list.new }
{
    checks::check_room(rows, columns, grid, work, room)?;
    zini::prices::price(rows, columns, grid, work, list, openings_first)
}

// A single random round for a run of so many records (no user calls it).
pub fn random_within(
    rows: usize,
    columns: usize,
    grid: &[i32],
    work: &mut [i32],
    list: &mut [u32],
    draws: &[u8],
    mode: Mode,
    room: usize,
) -> Result<Roll, Refusal>
    ensures { KeepsList (within (grid_of rows columns grid.now) work.old list.old room (random_round_call (mode_of mode) (grid_of rows columns grid.now) work.old list.old draws.now)) (rolled_answer result) work.new list.new }
{
    checks::check_room(rows, columns, grid, work, room)?;
    zini::random_calls::random_round(rows, columns, grid, work, list, draws, mode)
}

// A keyed round for a run of so many records (no user calls it).
pub fn keyed_within(
    rows: usize,
    columns: usize,
    grid: &[i32],
    work: &mut [i32],
    list: &mut [u32],
    key: Key,
    mode: Mode,
    room: usize,
) -> Result<KeyRoll, Refusal>
    ensures { KeepsList (within (grid_of rows columns grid.now) work.old list.old room (keyed_round_call (mode_of mode) (grid_of rows columns grid.now) work.old list.old (key_of key))) (key_rolled_answer result) work.new list.new }
{
    checks::check_room(rows, columns, grid, work, room)?;
    zini::random_calls::keyed_round(rows, columns, grid, work, list, key, mode)
}

// Greedy or openings-first for a run of so many records, in the strict form or as it is (no user calls it).
pub fn price_in_form(
    rows: usize,
    columns: usize,
    grid: &[i32],
    work: &mut [i32],
    list: &mut [u32],
    room: usize,
    openings_first: bool,
    strict: bool,
) -> Result<usize, Refusal>
    ensures { KeepsList (in_form «strict» (kept_listed work.old list.old) (grid_of rows columns grid.now) (within (grid_of rows columns grid.now) work.old list.old room (price_call openings_first (grid_of rows columns grid.now) work.old list.old))) (counted_answer result) work.new list.new }
{
    number_check::check_form(rows, columns, grid, strict)?;
    price_within(rows, columns, grid, work, list, room, openings_first)
}

// A single random round for a run of so many records, in the strict form or as it is (no user calls it).
pub fn random_in_form(
    rows: usize,
    columns: usize,
    grid: &[i32],
    work: &mut [i32],
    list: &mut [u32],
    draws: &[u8],
    mode: Mode,
    room: usize,
    strict: bool,
) -> Result<Roll, Refusal>
    ensures { KeepsList (in_form «strict» (kept_listed work.old list.old) (grid_of rows columns grid.now) (within (grid_of rows columns grid.now) work.old list.old room (random_round_call (mode_of mode) (grid_of rows columns grid.now) work.old list.old draws.now))) (rolled_answer result) work.new list.new }
{
    number_check::check_form(rows, columns, grid, strict)?;
    random_within(rows, columns, grid, work, list, draws, mode, room)
}

// A keyed round for a run of so many records, in the strict form or as it is (no user calls it).
pub fn keyed_in_form(
    rows: usize,
    columns: usize,
    grid: &[i32],
    work: &mut [i32],
    list: &mut [u32],
    key: Key,
    mode: Mode,
    room: usize,
    strict: bool,
) -> Result<KeyRoll, Refusal>
    ensures { KeepsList (in_form «strict» (kept_listed work.old list.old) (grid_of rows columns grid.now) (within (grid_of rows columns grid.now) work.old list.old room (keyed_round_call (mode_of mode) (grid_of rows columns grid.now) work.old list.old (key_of key)))) (key_rolled_answer result) work.new list.new }
{
    number_check::check_form(rows, columns, grid, strict)?;
    keyed_within(rows, columns, grid, work, list, key, mode, room)
}

// How many records a refusal writes: one for each cell after DRAWS.
fn written_on(refusal: Refusal, cells: usize) -> usize
    ensures { result ≡ written_by cells (refuses (named refusal)) }
{
    match refusal {
        Refusal::Draws => cells,
        _ => 0,
    }
}

// How many records a round writes (no user calls it).
pub fn written_by(priced: Result<usize, Refusal>, cells: usize) -> usize
    ensures { result ≡ written_by cells (counted_answer priced) }
{
    match priced {
        Ok(clicks) => clicks,
        Err(refusal) => written_on(refusal, cells),
    }
}

// How many records a random round writes (no user calls it).
pub fn written_by_roll(rolled: Result<Roll, Refusal>, cells: usize) -> usize
    ensures { result ≡ written_by cells (rolled_answer rolled) }
{
    match rolled {
        Ok(roll) => roll.clicks,
        Err(refusal) => written_on(refusal, cells),
    }
}

// How many records a keyed round writes (no user calls it).
pub fn written_by_key(rolled: Result<KeyRoll, Refusal>, cells: usize) -> usize
    ensures { result ≡ written_by cells (key_rolled_answer rolled) }
{
    match rolled {
        Ok(key_roll) => key_roll.clicks,
        Err(refusal) => written_on(refusal, cells),
    }
}

// SHAPE, BOARD, WORK by these lengths, and TRACE where the run or the list has fewer than count.
fn check_counts(
    rows: usize,
    columns: usize,
    board: usize,
    area: usize,
    room: usize,
    words: usize,
    count: usize,
) -> Result<(), Refusal>
    ensures { (vs ws : List ℤ) → length vs ≡ board → length ws ≡ area → refusal_of result ≡ first_given (replay_checks (grid_of rows columns vs) ws room words count) }
{
    checks::check_lengths(rows, columns, board, area)?;
    if room < count {
        return Err(Refusal::Trace);
    }
    if words < count {
        return Err(Refusal::Trace);
    }
    Ok(())
}

// Whether a replay of count records is refused, by the grid and the lengths of the work area, the run and the list, in the strict form or as it is (no user calls it).
pub fn check_replay(
    rows: usize,
    columns: usize,
    grid: &[i32],
    area: usize,
    room: usize,
    words: usize,
    count: usize,
    strict: bool,
) -> Result<(), Refusal>
    ensures { (ws : List ℤ) → length ws ≡ area → refusal_of result ≡ in_form «strict» some (grid_of rows columns grid.now) (first_given (replay_checks (grid_of rows columns grid.now) ws room words count)) }
{
    let form = number_check::check_form(rows, columns, grid, strict);
    form?;
    check_counts(rows, columns, grid.len(), area, room, words, count)
}

// How many records are copied for a replay: the count, if nothing is refused (no user calls it).
pub fn copied(checked: Result<(), Refusal>, count: usize) -> usize
    ensures { result ≡ copied_if (refusal_of checked) count }
{
    match checked {
        Ok(()) => count,
        Err(_) => 0,
    }
}

// Replay where nothing is refused (no user calls it).
pub fn replay_unless(
    checked: Result<(), Refusal>,
    rows: usize,
    columns: usize,
    grid: &[i32],
    work: &mut [i32],
    list: &[u32],
    count: usize,
) -> Result<Played, Unplayed>
    ensures { Keeps (unless (refusal_of checked) work.old (replay_call (grid_of rows columns grid.now) work.old list.now count)) (replayed_answer result) work.new }
{
    checked?;
    zini::replays::replay(rows, columns, grid, work, list, count)
}
