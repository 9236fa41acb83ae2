// The rounds and the replay over runs of move records, each as it is and in a strict form: in a round the flat list that is lent beside the run is written by the covered call, and its words become the run's records.
#![tactic(auto)]

ghost use Rattle.std.specs.Prelude.{false, true};
ghost use Rattle.game.specs.Calls.{kept_listed};
ghost use Rattle.draws.specs.Answers.{mode_of};
ghost use Rattle.keys.specs.Stands.{key_of};
ghost use Rattle.area.specs.Numbers.{grid_of};
ghost use Rattle.answers.specs.Answers.{KeepsList, counted_answer, key_rolled_answer, replayed_answer, rolled_answer};
ghost use Rattle.number_check.specs.Forms.{in_form};
ghost use Rattle.record_checks.specs.Promises.{KeepsRecords, kept_records, keyed_records_call, price_records_call, random_records_call, replay_records_call, strict_keyed_records_call, strict_price_records_call, strict_random_records_call, strict_replay_records_call};

use answers::{KeyRoll, Played, Roll, Unplayed};
use draws::Mode;
use keys::Key;
use records::MoveRecord;
use refusals::Refusal;

// Greedy or openings-first over a run, in the strict form or as it is.
fn price_records(
    rows: usize,
    columns: usize,
    grid: &[i32],
    work: &mut [i32],
    list: &mut [u32],
    run: &mut [MoveRecord],
    openings_first: bool,
    strict: bool,
) -> Result<usize, Refusal>
    ensures { KeepsRecords (in_form «strict» (kept_records work.old list.old run.old) (grid_of rows columns grid.now) (price_records_call openings_first (grid_of rows columns grid.now) work.old list.old run.old)) (counted_answer result) work.new list.new run.new }
{
    let room = run.len();
    let priced = record_checks::price_in_form(
        rows,
        columns,
        grid,
        work,
        list,
        room,
        openings_first,
        strict,
    );
    let count = record_checks::written_by(priced, grid.len());
    records::records_of(run, list, count, rows);
    priced
}

// A single random round over a run, in the strict form or as it is.
fn random_records(
    rows: usize,
    columns: usize,
    grid: &[i32],
    work: &mut [i32],
    list: &mut [u32],
    run: &mut [MoveRecord],
    draws: &[u8],
    mode: Mode,
    strict: bool,
) -> Result<Roll, Refusal>
    ensures { KeepsRecords (in_form «strict» (kept_records work.old list.old run.old) (grid_of rows columns grid.now) (random_records_call (mode_of mode) (grid_of rows columns grid.now) work.old list.old run.old draws.now)) (rolled_answer result) work.new list.new run.new }
{
    let room = run.len();
    let rolled = record_checks::random_in_form(
        rows, columns, grid, work, list, draws, mode, room, strict,
    );
    let count = record_checks::written_by_roll(rolled, grid.len());
    records::records_of(run, list, count, rows);
    rolled
}

// A keyed round over a run, in the strict form or as it is.
fn keyed_records(
    rows: usize,
    columns: usize,
    grid: &[i32],
    work: &mut [i32],
    list: &mut [u32],
    run: &mut [MoveRecord],
    key: Key,
    mode: Mode,
    strict: bool,
) -> Result<KeyRoll, Refusal>
    ensures { KeepsRecords (in_form «strict» (kept_records work.old list.old run.old) (grid_of rows columns grid.now) (keyed_records_call (mode_of mode) (grid_of rows columns grid.now) work.old list.old run.old (key_of key))) (key_rolled_answer result) work.new list.new run.new }
{
    let room = run.len();
    let rolled = record_checks::keyed_in_form(
        rows, columns, grid, work, list, key, mode, room, strict,
    );
    let count = record_checks::written_by_key(rolled, grid.len());
    records::records_of(run, list, count, rows);
    rolled
}

// The first records of a run are replayed, in the strict form or as it is.
fn replay_in_form(
    rows: usize,
    columns: usize,
    grid: &[i32],
    work: &mut [i32],
    list: &mut [u32],
    run: &[MoveRecord],
    count: usize,
    strict: bool,
) -> Result<Played, Unplayed>
    ensures { KeepsList (in_form «strict» (kept_listed work.old list.old) (grid_of rows columns grid.now) (replay_records_call (grid_of rows columns grid.now) work.old list.old run.now count)) (replayed_answer result) work.new list.new }
{
    let area = work.len();
    let words = list.len();
    let checked = record_checks::check_replay(
        rows,
        columns,
        grid,
        area,
        run.len(),
        words,
        count,
        strict,
    );
    let moves = record_checks::copied(checked, count);
    records::words_of(list, run, moves, rows);
    record_checks::replay_unless(checked, rows, columns, grid, work, list, count)
}

// Greedy ZiNi: its clicks, and its moves in the list and as records of the run.
pub fn greedy_records(
    rows: usize,
    columns: usize,
    grid: &[i32],
    work: &mut [i32],
    list: &mut [u32],
    run: &mut [MoveRecord],
) -> Result<usize, Refusal>
    ensures { KeepsRecords (price_records_call false (grid_of rows columns grid.now) work.old list.old run.old) (counted_answer result) work.new list.new run.new }
{
    price_records(rows, columns, grid, work, list, run, false, false)
}

// Openings-first ZiNi: its clicks, and its moves in the list and as records of the run.
pub fn openings_first_records(
    rows: usize,
    columns: usize,
    grid: &[i32],
    work: &mut [i32],
    list: &mut [u32],
    run: &mut [MoveRecord],
) -> Result<usize, Refusal>
    ensures { KeepsRecords (price_records_call true (grid_of rows columns grid.now) work.old list.old run.old) (counted_answer result) work.new list.new run.new }
{
    price_records(rows, columns, grid, work, list, run, true, false)
}

// A single random round: its clicks, its moves in the list and as records of the run, and the draw bytes used.
pub fn random_round_records(
    rows: usize,
    columns: usize,
    grid: &[i32],
    work: &mut [i32],
    list: &mut [u32],
    run: &mut [MoveRecord],
    draws: &[u8],
    mode: Mode,
) -> Result<Roll, Refusal>
    ensures { KeepsRecords (random_records_call (mode_of mode) (grid_of rows columns grid.now) work.old list.old run.old draws.now) (rolled_answer result) work.new list.new run.new }
{
    random_records(rows, columns, grid, work, list, run, draws, mode, false)
}

// A single random round by a key: its clicks, its moves in the list and as records of the run, the bytes of the key used, and the key after it.
pub fn keyed_round_records(
    rows: usize,
    columns: usize,
    grid: &[i32],
    work: &mut [i32],
    list: &mut [u32],
    run: &mut [MoveRecord],
    key: Key,
    mode: Mode,
) -> Result<KeyRoll, Refusal>
    ensures { KeepsRecords (keyed_records_call (mode_of mode) (grid_of rows columns grid.now) work.old list.old run.old (key_of key)) (key_rolled_answer result) work.new list.new run.new }
{
    keyed_records(rows, columns, grid, work, list, run, key, mode, false)
}

// The first records of a run are played on a board, by their words, which are put at the start of the list; the run stays.
pub fn replay_records(
    rows: usize,
    columns: usize,
    grid: &[i32],
    work: &mut [i32],
    list: &mut [u32],
    run: &[MoveRecord],
    count: usize,
) -> Result<Played, Unplayed>
    ensures { KeepsList (replay_records_call (grid_of rows columns grid.now) work.old list.old run.now count) (replayed_answer result) work.new list.new }
{
    replay_in_form(rows, columns, grid, work, list, run, count, false)
}

// `greedy_records`, but a wrong value in the grid is refused by NUMBER, and nothing lent changes.
pub fn strict_greedy_records(
    rows: usize,
    columns: usize,
    grid: &[i32],
    work: &mut [i32],
    list: &mut [u32],
    run: &mut [MoveRecord],
) -> Result<usize, Refusal>
    ensures { KeepsRecords (strict_price_records_call false (grid_of rows columns grid.now) work.old list.old run.old) (counted_answer result) work.new list.new run.new }
{
    price_records(rows, columns, grid, work, list, run, false, true)
}

// `openings_first_records`, but a wrong value in the grid is refused by NUMBER, and nothing lent changes.
pub fn strict_openings_first_records(
    rows: usize,
    columns: usize,
    grid: &[i32],
    work: &mut [i32],
    list: &mut [u32],
    run: &mut [MoveRecord],
) -> Result<usize, Refusal>
    ensures { KeepsRecords (strict_price_records_call true (grid_of rows columns grid.now) work.old list.old run.old) (counted_answer result) work.new list.new run.new }
{
    price_records(rows, columns, grid, work, list, run, true, true)
}

// `random_round_records`, but a wrong value in the grid is refused by NUMBER, and nothing lent changes.
pub fn strict_random_round_records(
    rows: usize,
    columns: usize,
    grid: &[i32],
    work: &mut [i32],
    list: &mut [u32],
    run: &mut [MoveRecord],
    draws: &[u8],
    mode: Mode,
) -> Result<Roll, Refusal>
    ensures { KeepsRecords (strict_random_records_call (mode_of mode) (grid_of rows columns grid.now) work.old list.old run.old draws.now) (rolled_answer result) work.new list.new run.new }
{
    random_records(rows, columns, grid, work, list, run, draws, mode, true)
}

// `keyed_round_records`, but a wrong value in the grid is refused by NUMBER, and nothing lent changes.
pub fn strict_keyed_round_records(
    rows: usize,
    columns: usize,
    grid: &[i32],
    work: &mut [i32],
    list: &mut [u32],
    run: &mut [MoveRecord],
    key: Key,
    mode: Mode,
) -> Result<KeyRoll, Refusal>
    ensures { KeepsRecords (strict_keyed_records_call (mode_of mode) (grid_of rows columns grid.now) work.old list.old run.old (key_of key)) (key_rolled_answer result) work.new list.new run.new }
{
    keyed_records(rows, columns, grid, work, list, run, key, mode, true)
}

// `replay_records`, but a wrong value in the grid is refused by NUMBER, and nothing lent changes.
pub fn strict_replay_records(
    rows: usize,
    columns: usize,
    grid: &[i32],
    work: &mut [i32],
    list: &mut [u32],
    run: &[MoveRecord],
    count: usize,
) -> Result<Played, Unplayed>
    ensures { KeepsList (strict_replay_records_call (grid_of rows columns grid.now) work.old list.old run.now count) (replayed_answer result) work.new list.new }
{
    replay_in_form(rows, columns, grid, work, list, run, count, true)
}
