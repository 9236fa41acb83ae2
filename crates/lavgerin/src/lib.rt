// The calls under C names. Each returns the refusal's number, 0 for success; answers go through pointers, and what stands there is left alone where an answer has no such value.
#![tactic(auto)]

ghost use Rattle.game.specs.Calls.{at_least_call, greedy_call, keyed_round_call, keyed_search_call, openings_first_call, price_call, random_round_call, random_search_call, replay_call, three_bv_call};
ghost use Rattle.area.specs.Numbers.{grid_of};
ghost use Rattle.mbf_form.specs.Calls.{read_file_call, write_file_call};
ghost use Rattle.std.specs.Prelude.{◌≡◌};
ghost use Rattle.version.specs.Version.{current};
ghost use Rattle.c_answers.specs.Names.{Returned, ReturnedGrid, ReturnedKey, ReturnedList, ReturnedListKey, ReturnedListTwo, ReturnedRun, ReturnedThree, ReturnedTwo, key_by, mode_by};

pub mod strict; // the strict forms

// The version of the library: major x 65536 + minor x 256 + patch.
#[unsafe(no_mangle)]
pub extern "C" fn lavgerin_version() -> u32
    ensures { result ≡ current }
{
    version::number()
}

// 3BV of a grid.
#[unsafe(no_mangle)]
pub extern "C" fn lavgerin_three_bv(
    rows: usize,
    columns: usize,
    grid: &[i32],
    work: &mut [i32],
    units: &mut u64,
) -> u8
    ensures { Returned (three_bv_call (grid_of rows columns grid.now) work.old) result work.new units.old units.new }
{
    let answer = zini::count::three_bv(rows, columns, grid, work);
    c_answers::tell_count(answer, units)
}

// Whether 3BV of a grid is at least so many units, 1 or 0.
#[unsafe(no_mangle)]
pub extern "C" fn lavgerin_at_least(
    rows: usize,
    columns: usize,
    grid: &[i32],
    work: &mut [i32],
    units: usize,
    enough: &mut u64,
) -> u8
    ensures { Returned (at_least_call (grid_of rows columns grid.now) work.old units) result work.new enough.old enough.new }
{
    let answer = zini::count::at_least(rows, columns, grid, work, units);
    c_answers::tell_enough(answer, enough)
}

// Greedy ZiNi, or openings-first: its clicks, and its moves in the list.
fn price(
    rows: usize,
    columns: usize,
    grid: &[i32],
    work: &mut [i32],
    list: &mut [u32],
    clicks: &mut u64,
    openings_first: bool,
) -> u8
    ensures { ReturnedList (price_call openings_first (grid_of rows columns grid.now) work.old list.old) result work.new list.new clicks.old clicks.new }
{
    let answer = zini::prices::price(rows, columns, grid, work, list, openings_first);
    c_answers::tell_count(answer, clicks)
}

// Greedy ZiNi: its clicks, and its moves in the list.
#[unsafe(no_mangle)]
pub extern "C" fn lavgerin_greedy(
    rows: usize,
    columns: usize,
    grid: &[i32],
    work: &mut [i32],
    list: &mut [u32],
    clicks: &mut u64,
) -> u8
    ensures { ReturnedList (greedy_call (grid_of rows columns grid.now) work.old list.old) result work.new list.new clicks.old clicks.new }
{
    price(rows, columns, grid, work, list, clicks, false)
}

// Openings-first ZiNi: its clicks, and its moves in the list.
#[unsafe(no_mangle)]
pub extern "C" fn lavgerin_openings_first(
    rows: usize,
    columns: usize,
    grid: &[i32],
    work: &mut [i32],
    list: &mut [u32],
    clicks: &mut u64,
) -> u8
    ensures { ReturnedList (openings_first_call (grid_of rows columns grid.now) work.old list.old) result work.new list.new clicks.old clicks.new }
{
    price(rows, columns, grid, work, list, clicks, true)
}

// A single random round, in the fair mode unless fair is 0: its clicks, its moves in the list, and the draw bytes used.
#[unsafe(no_mangle)]
pub extern "C" fn lavgerin_random_round(
    rows: usize,
    columns: usize,
    grid: &[i32],
    work: &mut [i32],
    list: &mut [u32],
    draws: &[u8],
    fair: u8,
    clicks: &mut u64,
    used: &mut u64,
) -> u8
    ensures { ReturnedListTwo (random_round_call (mode_by fair) (grid_of rows columns grid.now) work.old list.old draws.now) result work.new list.new clicks.old clicks.new used.old used.new }
{
    let mode = c_answers::mode_by(fair);
    let answer = zini::random_calls::random_round(rows, columns, grid, work, list, draws, mode);
    c_answers::tell_roll(answer, clicks, used)
}

// Random search over so many rounds, in the fair mode unless fair is 0: the least clicks, and the draw bytes used.
#[unsafe(no_mangle)]
pub extern "C" fn lavgerin_random_search(
    rows: usize,
    columns: usize,
    grid: &[i32],
    work: &mut [i32],
    draws: &[u8],
    fair: u8,
    rounds: usize,
    clicks: &mut u64,
    used: &mut u64,
) -> u8
    ensures { ReturnedTwo (random_search_call (mode_by fair) (grid_of rows columns grid.now) work.old draws.now rounds) result work.new clicks.old clicks.new used.old used.new }
{
    let mode = c_answers::mode_by(fair);
    let answer = zini::random_calls::random_search(rows, columns, grid, work, draws, mode, rounds);
    c_answers::tell_roll(answer, clicks, used)
}

// A single random round by a key, in the fair mode unless fair is 0: its clicks, its moves in the list, the bytes of the key used, and the key after it in its run of six numbers.
#[unsafe(no_mangle)]
pub extern "C" fn lavgerin_keyed_round(
    rows: usize,
    columns: usize,
    grid: &[i32],
    work: &mut [i32],
    list: &mut [u32],
    key: &mut [u32],
    fair: u8,
    clicks: &mut u64,
    used: &mut u64,
) -> u8
    ensures { ReturnedListKey (keyed_round_call (mode_by fair) (grid_of rows columns grid.now) work.old list.old (key_by key.old)) result work.new list.new clicks.old clicks.new used.old used.new key.old key.new }
{
    let mode = c_answers::mode_by(fair);
    let given = c_answers::key_by(key);
    let answer = zini::random_calls::keyed_round(rows, columns, grid, work, list, given, mode);
    c_answers::tell_keyed(answer, key, clicks, used)
}

// Random search over so many rounds by a key, in the fair mode unless fair is 0: the least clicks, the bytes of the key used, and the key after it in its run of six numbers.
#[unsafe(no_mangle)]
pub extern "C" fn lavgerin_keyed_search(
    rows: usize,
    columns: usize,
    grid: &[i32],
    work: &mut [i32],
    key: &mut [u32],
    fair: u8,
    rounds: usize,
    clicks: &mut u64,
    used: &mut u64,
) -> u8
    ensures { ReturnedKey (keyed_search_call (mode_by fair) (grid_of rows columns grid.now) work.old (key_by key.old) rounds) result work.new clicks.old clicks.new used.old used.new key.old key.new }
{
    let mode = c_answers::mode_by(fair);
    let given = c_answers::key_by(key);
    let answer = zini::random_calls::keyed_search(rows, columns, grid, work, given, mode, rounds);
    c_answers::tell_keyed(answer, key, clicks, used)
}

// The first moves of a list are played on a board: how many were made, or the place of the bad one, the safe cells still closed, and the ending (0 unfinished, 1 won, 2 lost).
#[unsafe(no_mangle)]
pub extern "C" fn lavgerin_replay(
    rows: usize,
    columns: usize,
    grid: &[i32],
    work: &mut [i32],
    list: &[u32],
    count: usize,
    made: &mut u64,
    closed: &mut u64,
    ending: &mut u64,
) -> u8
    ensures { ReturnedThree (replay_call (grid_of rows columns grid.now) work.old list.now count) result work.new made.old made.new closed.old closed.new ending.old ending.new }
{
    let answer = zini::replays::replay(rows, columns, grid, work, list, count);
    c_answers::tell_played(answer, made, closed, ending)
}

// An MBF file read into a lent grid: its rows and columns.
#[unsafe(no_mangle)]
pub extern "C" fn lavgerin_read_mbf(
    file: &[u8],
    grid: &mut [i32],
    rows: &mut u64,
    columns: &mut u64,
) -> u8
    ensures { ReturnedGrid (read_file_call file.now grid.old) result grid.new rows.old rows.new columns.old columns.new }
{
    let answer = mbf::read(file, grid);
    c_answers::tell_board(answer, rows, columns)
}

// A grid written as an MBF file: how many bytes it has.
#[unsafe(no_mangle)]
pub extern "C" fn lavgerin_write_mbf(
    rows: usize,
    columns: usize,
    grid: &[i32],
    file: &mut [u8],
    written: &mut u64,
) -> u8
    ensures { ReturnedRun (write_file_call (grid_of rows columns grid.now) file.old) result file.new written.old written.new }
{
    let answer = mbf::write(rows, columns, grid, file);
    c_answers::tell_count(answer, written)
}
