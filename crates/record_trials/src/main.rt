// Runs the calls over move records and by a draw reader on P7 and P11, as they are and in the strict form, in both modes of the draws, by bytes and by a key, and their refusals: each prints its answer and what was lent.
#![tactic(auto)]

ghost use Rattle.std.specs.Prelude.{false, true};
ghost use Rattle.area.specs.Numbers.{grid_of};
ghost use Rattle.draws.specs.Answers.{mode_of};
ghost use Rattle.keys.specs.Stands.{key_of};
ghost use Rattle.answers.specs.Answers.{KeepsList, counted_answer, key_rolled_answer, replayed_answer, rolled_answer};
ghost use Rattle.record_checks.specs.Promises.{KeepsRecords, keyed_records_call, price_records_call, random_records_call, replay_records_call, strict_keyed_records_call, strict_price_records_call, strict_random_records_call, strict_replay_records_call};
ghost use Rattle.record_trials.specs.Readings.{Twice};

use answers::{KeyRoll, Played, Roll, Unplayed};
use draws::Mode;
use keys::Key;
use records::MoveRecord;
use refusals::Refusal;
use trials::plain;
use trials::plain::Plain;

// What a call over a run answers, and the run that was lent.
#[derive(Drop)]
pub struct LentRun<A> {
    pub answer: A,
    pub run: [MoveRecord; 9],
}

// What two random calls by one reader answer, and where it then stands.
#[derive(Drop)]
pub struct ReadTwice {
    pub round: Result<Roll, Refusal>,
    pub search: Result<Roll, Refusal>,
    pub place: usize,
}

// Greedy over a run of nine records.
fn greedy_run(
    rows: usize,
    columns: usize,
    grid: &[i32],
    work: &mut [i32],
    list: &mut [u32],
    run: [MoveRecord; 9],
) -> LentRun<Result<usize, Refusal>>
    ensures { KeepsRecords (price_records_call false (grid_of rows columns grid.now) work.old list.old run) (counted_answer result.answer) work.new list.new result.run }
{
    let mut lent = run;
    let answer = record_calls::greedy_records(rows, columns, grid, work, list, &mut lent);
    LentRun { answer, run: lent }
}

// Openings-first over a run of nine records.
fn openings_first_run(
    rows: usize,
    columns: usize,
    grid: &[i32],
    work: &mut [i32],
    list: &mut [u32],
    run: [MoveRecord; 9],
) -> LentRun<Result<usize, Refusal>>
    ensures { KeepsRecords (price_records_call true (grid_of rows columns grid.now) work.old list.old run) (counted_answer result.answer) work.new list.new result.run }
{
    let mut lent = run;
    let answer = record_calls::openings_first_records(rows, columns, grid, work, list, &mut lent);
    LentRun { answer, run: lent }
}

// A random round over a run of nine records.
fn random_run(
    rows: usize,
    columns: usize,
    grid: &[i32],
    work: &mut [i32],
    list: &mut [u32],
    run: [MoveRecord; 9],
    draws: &[u8],
    mode: Mode,
) -> LentRun<Result<Roll, Refusal>>
    ensures { KeepsRecords (random_records_call (mode_of mode) (grid_of rows columns grid.now) work.old list.old run draws.now) (rolled_answer result.answer) work.new list.new result.run }
{
    let mut lent = run;
    let answer = record_calls::random_round_records(
        rows, columns, grid, work, list, &mut lent, draws, mode,
    );
    LentRun { answer, run: lent }
}

// A keyed round over a run of nine records.
fn keyed_run(
    rows: usize,
    columns: usize,
    grid: &[i32],
    work: &mut [i32],
    list: &mut [u32],
    run: [MoveRecord; 9],
    key: Key,
    mode: Mode,
) -> LentRun<Result<KeyRoll, Refusal>>
    ensures { KeepsRecords (keyed_records_call (mode_of mode) (grid_of rows columns grid.now) work.old list.old run (key_of key)) (key_rolled_answer result.answer) work.new list.new result.run }
{
    let mut lent = run;
    let answer = record_calls::keyed_round_records(
        rows, columns, grid, work, list, &mut lent, key, mode,
    );
    LentRun { answer, run: lent }
}

// The first records of a run of nine are replayed.
fn replay_run(
    rows: usize,
    columns: usize,
    grid: &[i32],
    work: &mut [i32],
    list: &mut [u32],
    run: [MoveRecord; 9],
    count: usize,
) -> Result<Played, Unplayed>
    ensures { KeepsList (replay_records_call (grid_of rows columns grid.now) work.old list.old run count) (replayed_answer result) work.new list.new }
{
    record_calls::replay_records(rows, columns, grid, work, list, &run, count)
}

// A random round and then a random search by one reader, which goes on from where the round left it.
fn read_twice(
    rows: usize,
    columns: usize,
    grid: &[i32],
    work: &mut [i32],
    list: &mut [u32],
    bytes: &[u8],
    place: usize,
    mode: Mode,
    rounds: usize,
) -> ReadTwice
    ensures { Twice false (mode_of mode) (grid_of rows columns grid.now) work.old list.old bytes.now place rounds result.round result.search result.place work.new list.new }
{
    let mut reader = draw_reader::reader(bytes, place);
    let round = reader_calls::random_round(rows, columns, grid, work, list, &mut reader, mode);
    let search = reader_calls::random_search(rows, columns, grid, work, &mut reader, mode, rounds);
    ReadTwice {
        round,
        search,
        place: reader.place,
    }
}

// Greedy in the strict form over a run of nine records.
fn strict_greedy_run(
    rows: usize,
    columns: usize,
    grid: &[i32],
    work: &mut [i32],
    list: &mut [u32],
    run: [MoveRecord; 9],
) -> LentRun<Result<usize, Refusal>>
    ensures { KeepsRecords (strict_price_records_call false (grid_of rows columns grid.now) work.old list.old run) (counted_answer result.answer) work.new list.new result.run }
{
    let mut lent = run;
    let answer = record_calls::strict_greedy_records(rows, columns, grid, work, list, &mut lent);
    LentRun { answer, run: lent }
}

// Openings-first in the strict form over a run of nine records.
fn strict_openings_first_run(
    rows: usize,
    columns: usize,
    grid: &[i32],
    work: &mut [i32],
    list: &mut [u32],
    run: [MoveRecord; 9],
) -> LentRun<Result<usize, Refusal>>
    ensures { KeepsRecords (strict_price_records_call true (grid_of rows columns grid.now) work.old list.old run) (counted_answer result.answer) work.new list.new result.run }
{
    let mut lent = run;
    let answer = record_calls::strict_openings_first_records(
        rows, columns, grid, work, list, &mut lent,
    );
    LentRun { answer, run: lent }
}

// A random round in the strict form over a run of nine records.
fn strict_random_run(
    rows: usize,
    columns: usize,
    grid: &[i32],
    work: &mut [i32],
    list: &mut [u32],
    run: [MoveRecord; 9],
    draws: &[u8],
    mode: Mode,
) -> LentRun<Result<Roll, Refusal>>
    ensures { KeepsRecords (strict_random_records_call (mode_of mode) (grid_of rows columns grid.now) work.old list.old run draws.now) (rolled_answer result.answer) work.new list.new result.run }
{
    let mut lent = run;
    let answer = record_calls::strict_random_round_records(
        rows, columns, grid, work, list, &mut lent, draws, mode,
    );
    LentRun { answer, run: lent }
}

// A keyed round in the strict form over a run of nine records.
fn strict_keyed_run(
    rows: usize,
    columns: usize,
    grid: &[i32],
    work: &mut [i32],
    list: &mut [u32],
    run: [MoveRecord; 9],
    key: Key,
    mode: Mode,
) -> LentRun<Result<KeyRoll, Refusal>>
    ensures { KeepsRecords (strict_keyed_records_call (mode_of mode) (grid_of rows columns grid.now) work.old list.old run (key_of key)) (key_rolled_answer result.answer) work.new list.new result.run }
{
    let mut lent = run;
    let answer = record_calls::strict_keyed_round_records(
        rows, columns, grid, work, list, &mut lent, key, mode,
    );
    LentRun { answer, run: lent }
}

// The first records of a run of nine are replayed in the strict form.
fn strict_replay_run(
    rows: usize,
    columns: usize,
    grid: &[i32],
    work: &mut [i32],
    list: &mut [u32],
    run: [MoveRecord; 9],
    count: usize,
) -> Result<Played, Unplayed>
    ensures { KeepsList (strict_replay_records_call (grid_of rows columns grid.now) work.old list.old run count) (replayed_answer result) work.new list.new }
{
    record_calls::strict_replay_records(rows, columns, grid, work, list, &run, count)
}

// A random round and then a random search, both in the strict form, by one reader, which goes on from where the round left it.
fn strict_read_twice(
    rows: usize,
    columns: usize,
    grid: &[i32],
    work: &mut [i32],
    list: &mut [u32],
    bytes: &[u8],
    place: usize,
    mode: Mode,
    rounds: usize,
) -> ReadTwice
    ensures { Twice true (mode_of mode) (grid_of rows columns grid.now) work.old list.old bytes.now place rounds result.round result.search result.place work.new list.new }
{
    let mut reader = draw_reader::reader(bytes, place);
    let round = reader_calls::strict_random_round(
        rows,
        columns,
        grid,
        work,
        list,
        &mut reader,
        mode,
    );
    let search = reader_calls::strict_random_search(
        rows,
        columns,
        grid,
        work,
        &mut reader,
        mode,
        rounds,
    );
    ReadTwice {
        round,
        search,
        place: reader.place,
    }
}

// Prints a case's name, with its form, and its answer.
fn report(rt: HostRuntime, strict: bool, name: &[u8], answer: Plain) {
    trials::print(rt, name);
    if strict {
        trials::print(rt, b", strictly");
    }
    trials::print_answer(rt, answer);
}

// A record of so many numbers.
fn record(kind: u32, row: u32, column: u32) -> MoveRecord {
    MoveRecord { kind, row, column }
}

// A run that nothing was written into.
fn unwritten() -> [MoveRecord; 9] {
    [record(9, 9, 9); 9]
}

// A record: kind, row and column.
fn print_record(rt: HostRuntime, played: MoveRecord) {
    trials::print_number(rt, played.kind as u64);
    trials::print_number(rt, played.row as u64);
    trials::print_number(rt, played.column as u64);
}

// What was lent, at exit: the run, the list and the work area.
fn print_lent(rt: HostRuntime, run: [MoveRecord; 9], list: &[u32], work: &[i32]) {
    for played in run {
        print_record(rt, played);
    }
    trials::print(rt, b"\n");
    trials::print_list(rt, list);
    trials::print_area(rt, work);
}

// Greedy over a run that nothing was written into, in the strict form or as it is.
fn greedy_in_form(
    strict: bool,
    rows: usize,
    columns: usize,
    grid: &[i32],
    work: &mut [i32],
    list: &mut [u32],
) -> LentRun<Result<usize, Refusal>> {
    if strict {
        return strict_greedy_run(rows, columns, grid, work, list, unwritten());
    }
    greedy_run(rows, columns, grid, work, list, unwritten())
}

// Openings-first over a run that nothing was written into, in the strict form or as it is.
fn openings_first_in_form(
    strict: bool,
    rows: usize,
    columns: usize,
    grid: &[i32],
    work: &mut [i32],
    list: &mut [u32],
) -> LentRun<Result<usize, Refusal>> {
    if strict {
        return strict_openings_first_run(rows, columns, grid, work, list, unwritten());
    }
    openings_first_run(rows, columns, grid, work, list, unwritten())
}

// A random round over a run that nothing was written into, in the strict form or as it is.
fn random_in_form(
    strict: bool,
    rows: usize,
    columns: usize,
    grid: &[i32],
    work: &mut [i32],
    list: &mut [u32],
    draws: &[u8],
    mode: Mode,
) -> LentRun<Result<Roll, Refusal>> {
    if strict {
        return strict_random_run(rows, columns, grid, work, list, unwritten(), draws, mode);
    }
    random_run(rows, columns, grid, work, list, unwritten(), draws, mode)
}

// A keyed round over a run that nothing was written into, in the strict form or as it is.
fn keyed_in_form(
    strict: bool,
    rows: usize,
    columns: usize,
    grid: &[i32],
    work: &mut [i32],
    list: &mut [u32],
    key: Key,
    mode: Mode,
) -> LentRun<Result<KeyRoll, Refusal>> {
    if strict {
        return strict_keyed_run(rows, columns, grid, work, list, unwritten(), key, mode);
    }
    keyed_run(rows, columns, grid, work, list, unwritten(), key, mode)
}

// A replay of records, in the strict form or as it is.
fn replay_in_form(
    strict: bool,
    rows: usize,
    columns: usize,
    grid: &[i32],
    work: &mut [i32],
    list: &mut [u32],
    run: [MoveRecord; 9],
    count: usize,
) -> Result<Played, Unplayed> {
    if strict {
        return strict_replay_run(rows, columns, grid, work, list, run, count);
    }
    replay_run(rows, columns, grid, work, list, run, count)
}

// A round and a search on three rows of three by one reader, in the strict form or as they are.
fn twice_in_form(
    strict: bool,
    grid: &[i32],
    work: &mut [i32],
    list: &mut [u32],
    bytes: &[u8],
    place: usize,
    mode: Mode,
    rounds: usize,
) -> ReadTwice {
    if strict {
        return strict_read_twice(3, 3, grid, work, list, bytes, place, mode, rounds);
    }
    read_twice(3, 3, grid, work, list, bytes, place, mode, rounds)
}

// A random round on three rows of three by the bytes from a place on, in the strict form or as it is.
fn round_in_form(
    strict: bool,
    grid: &[i32],
    work: &mut [i32],
    list: &mut [u32],
    bytes: &[u8],
    place: usize,
    mode: Mode,
) -> Result<Roll, Refusal> {
    if strict {
        return reader_calls::strict_round_from(3, 3, grid, work, list, bytes, place, mode);
    }
    reader_calls::round_from(3, 3, grid, work, list, bytes, place, mode)
}

// A search on three rows of three by the bytes from a place on, in the strict form or as it is.
fn search_in_form(
    strict: bool,
    grid: &[i32],
    work: &mut [i32],
    bytes: &[u8],
    place: usize,
    mode: Mode,
    rounds: usize,
) -> Result<Roll, Refusal> {
    if strict {
        return reader_calls::strict_search_from(3, 3, grid, work, bytes, place, mode, rounds);
    }
    reader_calls::search_from(3, 3, grid, work, bytes, place, mode, rounds)
}

// Greedy over a run: its answer, and what was lent.
fn greedy(
    rt: HostRuntime,
    strict: bool,
    name: &[u8],
    rows: usize,
    columns: usize,
    grid: &[i32],
    work: &mut [i32],
    list: &mut [u32],
) {
    let priced = greedy_in_form(strict, rows, columns, grid, work, list);
    report(rt, strict, name, plain::of_number(priced.answer));
    print_lent(rt, priced.run, list, work);
}

// Openings-first over a run: its answer, and what was lent.
fn openings_first(
    rt: HostRuntime,
    strict: bool,
    name: &[u8],
    rows: usize,
    columns: usize,
    grid: &[i32],
    work: &mut [i32],
    list: &mut [u32],
) {
    let priced = openings_first_in_form(strict, rows, columns, grid, work, list);
    report(rt, strict, name, plain::of_number(priced.answer));
    print_lent(rt, priced.run, list, work);
}

// A random round over a run: its answer, and what was lent.
fn rolls(
    rt: HostRuntime,
    strict: bool,
    name: &[u8],
    rows: usize,
    columns: usize,
    grid: &[i32],
    work: &mut [i32],
    list: &mut [u32],
    draws: &[u8],
    mode: Mode,
) {
    let rolled = random_in_form(strict, rows, columns, grid, work, list, draws, mode);
    report(rt, strict, name, plain::of_rolled(rolled.answer));
    print_lent(rt, rolled.run, list, work);
}

// A keyed round over a run: its answer with the key after it, and what was lent.
fn key_rolls(
    rt: HostRuntime,
    strict: bool,
    name: &[u8],
    rows: usize,
    columns: usize,
    grid: &[i32],
    work: &mut [i32],
    list: &mut [u32],
    key: Key,
    mode: Mode,
) {
    let rolled = keyed_in_form(strict, rows, columns, grid, work, list, key, mode);
    report(rt, strict, name, plain::of_key_rolled(rolled.answer, key));
    print_lent(rt, rolled.run, list, work);
}

// The first records of a run are replayed: the answer, and what was lent.
fn replays(
    rt: HostRuntime,
    strict: bool,
    name: &[u8],
    rows: usize,
    columns: usize,
    grid: &[i32],
    work: &mut [i32],
    list: &mut [u32],
    run: [MoveRecord; 9],
    count: usize,
) {
    let answer = replay_in_form(strict, rows, columns, grid, work, list, run, count);
    report(rt, strict, name, plain::of_replayed(answer));
    print_lent(rt, run, list, work);
}

// P7, for the strict form with its numbers.
fn p7(strict: bool) -> [i32; 4] {
    if strict {
        return [-1i32, 1, 1, 1];
    }
    [-1i32, 0, 0, 0]
}

// P11, for the strict form with its numbers.
fn p11(strict: bool) -> [i32; 9] {
    if strict {
        return [1i32, 1, 1, 1, -1, 1, 1, 1, 1];
    }
    [0i32, 0, 0, 0, -1, 0, 0, 0, 0]
}

// P7: greedy, openings-first, and a random round.
fn seven(rt: HostRuntime, strict: bool) {
    let grid = p7(strict);
    let mut w = [7i32; 21];
    let mut l = [4294967295u32; 5];
    greedy(rt, strict, b"P7", 2, 2, &grid, &mut w, &mut l);
    let mut w2 = [7i32; 21];
    let mut l2 = [4294967295u32; 5];
    openings_first(
        rt,
        strict,
        b"P7 openings-first",
        2,
        2,
        &grid,
        &mut w2,
        &mut l2,
    );
    let mut w3 = [7i32; 21];
    let mut l3 = [4294967295u32; 5];
    let draws = [5u8, 0, 0, 0];
    rolls(
        rt,
        strict,
        b"P7, 05 00 00 00",
        2,
        2,
        &grid,
        &mut w3,
        &mut l3,
        &draws,
        Mode::Old,
    );
}

// P7's records replayed: its three moves, and then one that is no move.
fn replayed_7(rt: HostRuntime, strict: bool) {
    let grid = p7(strict);
    let mut run = unwritten();
    run[0] = record(1, 1, 0);
    run[1] = record(2, 0, 0);
    run[2] = record(3, 1, 0);
    let mut w = [7i32; 21];
    let mut l = [4294967295u32; 5];
    replays(
        rt,
        strict,
        b"P7 replayed",
        2,
        2,
        &grid,
        &mut w,
        &mut l,
        run,
        3,
    );
    let mut w2 = [7i32; 21];
    let mut l2 = [4294967295u32; 5];
    replays(
        rt,
        strict,
        b"P7, a record more",
        2,
        2,
        &grid,
        &mut w2,
        &mut l2,
        run,
        4,
    );
}

// P11: greedy and openings-first.
fn eleven(rt: HostRuntime, strict: bool) {
    let grid = p11(strict);
    let mut w = [7i32; 46];
    let mut l = [4294967295u32; 10];
    greedy(rt, strict, b"P11", 3, 3, &grid, &mut w, &mut l);
    let mut w2 = [7i32; 46];
    let mut l2 = [4294967295u32; 10];
    openings_first(
        rt,
        strict,
        b"P11 openings-first",
        3,
        3,
        &grid,
        &mut w2,
        &mut l2,
    );
}

// A random round on P11 over a run.
fn round_11(rt: HostRuntime, strict: bool, name: &[u8], draws: &[u8], mode: Mode) {
    let grid = p11(strict);
    let mut work = [7i32; 46];
    let mut list = [4294967295u32; 10];
    rolls(
        rt, strict, name, 3, 3, &grid, &mut work, &mut list, draws, mode,
    );
}

// The random rounds of RULES 11.3 on P11, and DRAWS.
fn rounds_11(rt: HostRuntime, strict: bool) {
    round_11(rt, strict, b"P11, 12 zero bytes", &[0u8; 12], Mode::Old);
    round_11(rt, strict, b"P11, 11 zero bytes", &[0u8; 11], Mode::Old);
    let bytes = [7u8, 0, 0, 0, 0, 0, 0, 0];
    round_11(rt, strict, b"P11, 07 and seven 00", &bytes, Mode::Old);
}

// Nine records for ten cells: TRACE, or NUMBER where a value is wrong.
fn short_run(rt: HostRuntime, strict: bool, name: &[u8], grid: &[i32]) {
    let mut w = [7i32; 50];
    let mut l = [4294967295u32; 10];
    greedy(rt, strict, name, 2, 5, grid, &mut w, &mut l);
    openings_first(rt, strict, b" openings-first", 2, 5, grid, &mut w, &mut l);
    rolls(
        rt,
        strict,
        b" random",
        2,
        5,
        grid,
        &mut w,
        &mut l,
        &[0u8; 12],
        Mode::Old,
    );
}

// TRACE: a list of eight words for nine cells.
fn short_list(rt: HostRuntime, strict: bool) {
    let grid = p11(strict);
    let mut w = [7i32; 46];
    let mut l = [4294967295u32; 8];
    greedy(rt, strict, b"P11, eight words", 3, 3, &grid, &mut w, &mut l);
    openings_first(rt, strict, b" openings-first", 3, 3, &grid, &mut w, &mut l);
    rolls(
        rt,
        strict,
        b" random",
        3,
        3,
        &grid,
        &mut w,
        &mut l,
        &[0u8; 12],
        Mode::Old,
    );
}

// P11's greedy moves as records, and the rest of the run as it is lent.
fn moves_11() -> [MoveRecord; 9] {
    let mut run = unwritten();
    run[0] = record(1, 1, 0);
    run[1] = record(2, 1, 1);
    run[2] = record(3, 1, 0);
    run[3] = record(3, 0, 1);
    run[4] = record(3, 2, 1);
    run
}

// The first records of a run are replayed on P11.
fn replays_11(
    rt: HostRuntime,
    strict: bool,
    name: &[u8],
    run: [MoveRecord; 9],
    count: usize,
    list: &mut [u32],
) {
    let grid = p11(strict);
    let mut work = [7i32; 46];
    replays(rt, strict, name, 3, 3, &grid, &mut work, list, run, count);
}

// P11's records replayed: whole, none, with a bad move, with a record of no cell, and TRACE.
fn replayed_11(rt: HostRuntime, strict: bool) {
    let run = moves_11();
    let mut list = [4294967295u32; 10];
    replays_11(rt, strict, b"P11 replayed", run, 5, &mut list);
    let mut none = [4294967295u32; 10];
    replays_11(rt, strict, b"P11, no record", run, 0, &mut none);
    let mut bad = run;
    bad[2] = record(3, 0, 1);
    let mut bad_list = [4294967295u32; 10];
    replays_11(rt, strict, b"P11, a closed cell", bad, 5, &mut bad_list);
    let mut off = run;
    off[3] = record(3, 3, 0);
    let mut off_list = [4294967295u32; 10];
    replays_11(rt, strict, b"P11, a fourth row", off, 5, &mut off_list);
    let mut over = [4294967295u32; 10];
    replays_11(rt, strict, b"P11, ten of nine", run, 10, &mut over);
    let mut few = [4294967295u32; 4];
    replays_11(rt, strict, b"P11, a list of four", run, 5, &mut few);
}

// A random round and then a search by one reader: both answers, where it stands, and what was lent.
fn reads(
    rt: HostRuntime,
    strict: bool,
    name: &[u8],
    grid: &[i32],
    work: &mut [i32],
    list: &mut [u32],
    bytes: &[u8],
    place: usize,
    mode: Mode,
    rounds: usize,
) {
    let both = twice_in_form(strict, grid, work, list, bytes, place, mode, rounds);
    report(rt, strict, name, plain::of_rolled(both.round));
    report(rt, strict, b" then a search", plain::of_rolled(both.search));
    trials::print(rt, b" stands at");
    trials::print_number(rt, both.place as u64);
    trials::print(rt, b"\n");
    trials::print_list(rt, list);
    trials::print_area(rt, work);
}

// Two calls on P11 by one reader.
fn reads_11(
    rt: HostRuntime,
    strict: bool,
    name: &[u8],
    bytes: &[u8],
    place: usize,
    mode: Mode,
    rounds: usize,
) {
    let grid = p11(strict);
    let mut work = [7i32; 46];
    let mut list = [4294967295u32; 10];
    reads(
        rt, strict, name, &grid, &mut work, &mut list, bytes, place, mode, rounds,
    );
}

// A reader goes on over two calls, stays where it is after ROUNDS and DRAWS, and may stand past its bytes.
fn readers(rt: HostRuntime, strict: bool) {
    let bytes = [7u8, 0, 0, 0, 0, 0, 0, 0, 0, 0, 0, 0, 0, 0, 0, 0, 0, 0, 0, 0];
    reads_11(rt, strict, b"20 bytes", &bytes, 0, Mode::Old, 1);
    reads_11(rt, strict, b"no rounds", &bytes, 0, Mode::Old, 0);
    reads_11(rt, strict, b"two rounds", &bytes, 0, Mode::Old, 2);
    reads_11(rt, strict, b"from 8", &bytes, 8, Mode::Old, 1);
    reads_11(rt, strict, b"from 21", &bytes, 21, Mode::Old, 1);
}

// The random calls by the bytes from a place on.
fn reads_from(
    rt: HostRuntime,
    strict: bool,
    name: &[u8],
    grid: &[i32],
    work: &mut [i32],
    list: &mut [u32],
    bytes: &[u8],
    place: usize,
    mode: Mode,
    rounds: usize,
) {
    let rolled = round_in_form(strict, grid, work, list, bytes, place, mode);
    report(rt, strict, name, plain::of_rolled(rolled));
    trials::print_list(rt, list);
    trials::print_area(rt, work);
    let searched = search_in_form(strict, grid, work, bytes, place, mode, rounds);
    report(rt, strict, b" a search", plain::of_rolled(searched));
    trials::print_area(rt, work);
}

// The random calls on P11 by the bytes from a place on.
fn from_11(rt: HostRuntime, strict: bool, name: &[u8], bytes: &[u8], place: usize, mode: Mode) {
    let grid = p11(strict);
    let mut work = [7i32; 46];
    let mut list = [4294967295u32; 10];
    reads_from(
        rt, strict, name, &grid, &mut work, &mut list, bytes, place, mode, 1,
    );
}

// The bytes from 4 and from past their end on.
fn froms(rt: HostRuntime, strict: bool) {
    let bytes = [9u8, 9, 9, 9, 7, 0, 0, 0, 0, 0, 0, 0];
    from_11(rt, strict, b"from 4", &bytes, 4, Mode::Old);
    from_11(rt, strict, b"from 13", &bytes, 13, Mode::Old);
}

// Eight words, each 0 but the third, which a fair draw among 3 spends.
fn third_spent() -> [u8; 32] {
    let mut bytes = [0u8; 32];
    bytes[8] = 255;
    bytes[9] = 255;
    bytes[10] = 255;
    bytes[11] = 255;
    bytes
}

// P11 in the fair mode, whose draws are among 4, 3 and 2: no word is spent, one is, the draws run dry by it; a reader goes on over one, and stays before one that leaves too few.
fn fair_11(rt: HostRuntime, strict: bool) {
    let bytes = third_spent();
    round_11(
        rt,
        strict,
        b"P11, fair, 12 zero bytes",
        &[0u8; 12],
        Mode::Fair,
    );
    round_11(
        rt,
        strict,
        b"P11, fair, a word spent",
        &bytes[4..20],
        Mode::Fair,
    );
    round_11(
        rt,
        strict,
        b"P11, fair, then dry",
        &bytes[4..16],
        Mode::Fair,
    );
    reads_11(rt, strict, b"fair, from 4", &bytes, 4, Mode::Fair, 1);
    reads_11(
        rt,
        strict,
        b"fair, 15 bytes",
        &bytes[0..15],
        4,
        Mode::Fair,
        1,
    );
    from_11(rt, strict, b"fair, the bytes from 4", &bytes, 4, Mode::Fair);
}

// A keyed round on P11 over a run.
fn key_11(rt: HostRuntime, strict: bool, name: &[u8], key: Key, mode: Mode) {
    let grid = p11(strict);
    let mut work = [7i32; 46];
    let mut list = [4294967295u32; 10];
    key_rolls(
        rt, strict, name, 3, 3, &grid, &mut work, &mut list, key, mode,
    );
}

// P11 by Marsaglia's key in both modes, and KEY by a key of zeros.
fn keyed_11(rt: HostRuntime, strict: bool) {
    let key = Key {
        x: 123456789,
        y: 362436069,
        z: 521288629,
        w: 88675123,
        v: 5783321,
        counter: 6615241,
    };
    key_11(rt, strict, b"P11, keyed", key, Mode::Old);
    key_11(rt, strict, b"P11, keyed, fair", key, Mode::Fair);
    let zeros = Key {
        x: 0,
        y: 0,
        z: 0,
        w: 0,
        v: 0,
        counter: 0,
    };
    key_11(rt, strict, b"P11, a key of zeros", zeros, Mode::Old);
}

// The calls over P7 and P11, each in the strict form or as it is.
fn calls(rt: HostRuntime, strict: bool) {
    seven(rt, strict);
    replayed_7(rt, strict);
    eleven(rt, strict);
    rounds_11(rt, strict);
    short_run(rt, strict, b"2 by 5, nine records", &[0i32; 10]);
    short_list(rt, strict);
    replayed_11(rt, strict);
    readers(rt, strict);
    froms(rt, strict);
    fair_11(rt, strict);
    keyed_11(rt, strict);
}

// NUMBER: each strict call over a run, on three rows of three.
fn wrong_runs(
    rt: HostRuntime,
    name: &[u8],
    grid: &[i32],
    work: &mut [i32],
    list: &mut [u32],
    count: usize,
) {
    greedy(rt, true, name, 3, 3, grid, work, list);
    openings_first(rt, true, b" openings-first", 3, 3, grid, work, list);
    rolls(
        rt,
        true,
        b" random",
        3,
        3,
        grid,
        work,
        list,
        &[0u8; 12],
        Mode::Old,
    );
    replays(
        rt,
        true,
        b" replayed",
        3,
        3,
        grid,
        work,
        list,
        moves_11(),
        count,
    );
}

// NUMBER: each strict call by a reader that stands at 4, and by the bytes from 4 on.
fn wrong_reads(rt: HostRuntime, grid: &[i32], work: &mut [i32], list: &mut [u32], rounds: usize) {
    let bytes = [0u8; 24];
    reads(
        rt,
        true,
        b" by a reader",
        grid,
        work,
        list,
        &bytes,
        4,
        Mode::Old,
        rounds,
    );
    reads_from(
        rt,
        true,
        b" from 4",
        grid,
        work,
        list,
        &bytes,
        4,
        Mode::Old,
        rounds,
    );
}

// P11 with its numbers, but a 2 at row 0, column 1, and one at row 2, column 0: that is cell 2, the lower.
fn wrong_11(
    rt: HostRuntime,
    name: &[u8],
    work: &mut [i32],
    list: &mut [u32],
    count: usize,
    rounds: usize,
) {
    let grid = [1i32, 2, 1, 1, -1, 1, 2, 1, 1];
    wrong_runs(rt, name, &grid, work, list, count);
    wrong_reads(rt, &grid, work, list, rounds);
}

// A wrong value is refused before a list, a run or a work area that is too short, 0 rounds, and a count above the run.
fn wrong(rt: HostRuntime) {
    let mut w = [7i32; 46];
    let mut l = [4294967295u32; 10];
    wrong_11(rt, b"P11, two wrong", &mut w, &mut l, 5, 1);
    wrong_11(
        rt,
        b"P11, two wrong, ten of nine, no rounds",
        &mut w,
        &mut l,
        10,
        0,
    );
    let mut few = [4294967295u32; 4];
    wrong_11(
        rt,
        b"P11, two wrong, a list of four",
        &mut w,
        &mut few,
        5,
        1,
    );
    let mut short = [7i32; 44];
    wrong_11(
        rt,
        b"P11, two wrong, a work area of 44",
        &mut short,
        &mut l,
        5,
        1,
    );
    let grid = [0i32, 0, 0, 0, 1, 0, 0, 0, 1, 0];
    short_run(rt, true, b"2 by 5, two wrong, nine records", &grid);
}

// A draw among n by a reader at a place: what is taken, and where the next draw reads.
fn drawn(rt: HostRuntime, bytes: &[u8], place: usize, mode: Mode, n: usize) {
    let draw = draw_reader::draw_from(bytes, place, mode, n);
    trials::print_number(rt, place as u64);
    match draw {
        Some(taken) => {
            trials::print(rt, b": takes");
            trials::print_number(rt, taken.place as u64);
        }
        None => trials::print(rt, b": short"),
    }
    trials::print(rt, b", then at");
    trials::print_number(rt, draw_reader::place_after(draw, place) as u64);
    trials::print(rt, b"\n");
}

// The draws of a reader among 8 from three places.
fn draws_of(rt: HostRuntime, name: &[u8], bytes: &[u8]) {
    trials::print(rt, name);
    trials::print(rt, b"\n");
    for place in [0, 4, 8] {
        drawn(rt, bytes, place, Mode::Old, 8);
    }
}

// A draw among n in the old mode and in the fair one, of a word at the top with this low byte, and then one of 1.
fn both_modes(rt: HostRuntime, low: u8, n: usize) {
    let bytes = [low, 255, 255, 255, 1, 0, 0, 0];
    trials::print(rt, b"among");
    trials::print_number(rt, n as u64);
    trials::print(rt, b", low byte");
    trials::print_number(rt, low as u64);
    trials::print(rt, b"\n");
    drawn(rt, &bytes, 0, Mode::Old, n);
    drawn(rt, &bytes, 0, Mode::Fair, n);
    drawn(rt, &bytes[0..7], 0, Mode::Fair, n);
}

// The highest word among 1 to 8; the bound itself among 6 and 7, and one below it among 3, 5, 6 and 7.
fn fair_draws(rt: HostRuntime) {
    trials::print(rt, b"old, fair, and fair with a byte less\n");
    for n in 1..=8 {
        both_modes(rt, 255, n);
    }
    for (low, n) in [(252, 6), (252, 7), (254, 3), (254, 5), (251, 6), (251, 7)] {
        both_modes(rt, low, n);
    }
}

// A word's record, and the word that it is replayed as: kind and index.
fn there_and_back(rt: HostRuntime, word: u32, rows: usize) {
    let played = records::record_of(word, rows);
    print_record(rt, played);
    trials::print(rt, b" =");
    trials::print_list(rt, &[records::word_of(played, rows)]);
}

// Words of P11, one of no kind, one past every grid, and one on no rows.
fn words(rt: HostRuntime) {
    trials::print(rt, b"words\n");
    for word in [65536 + 1, 131072 + 4, 196608 + 5, 8, 65536 + 765] {
        there_and_back(rt, word, 3);
    }
    there_and_back(rt, 65536 + 1, 0);
}

fn main(rt: HostRuntime) {
    if trials::usage(
        rt,
        b"usage: record_trials  runs the calls over move records and by a draw reader on boards of its own, prints the answers, and takes no argument\n",
    ) {
        return;
    }
    calls(rt, false);
    draws_of(rt, b"12 zero bytes", &[0u8; 12]);
    draws_of(rt, b"11 zero bytes", &[0u8; 11]);
    draws_of(rt, b"07 and seven 00", &[7u8, 0, 0, 0, 0, 0, 0, 0]);
    fair_draws(rt);
    words(rt);
    calls(rt, true);
    wrong(rt);
}
