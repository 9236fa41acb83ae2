// Runs the calls on cases from standard input, and prints what each answers and what was lent to it.
//
// A case is a line, NAME: CALL and the fields that the call takes, parted by single spaces, in any order:
//   3bv             rows=N columns=N board=RUN work=RUN
//   at-least        rows=N columns=N board=RUN work=RUN units=N
//   greedy          rows=N columns=N board=RUN work=RUN list=RUN
//   openings-first  rows=N columns=N board=RUN work=RUN list=RUN
//   random-round    rows=N columns=N board=RUN work=RUN list=RUN draws=RUN fair=N
//   random-search   rows=N columns=N board=RUN work=RUN draws=RUN fair=N rounds=N
//   keyed-round     rows=N columns=N board=RUN work=RUN list=RUN key=RUN fair=N
//   keyed-search    rows=N columns=N board=RUN work=RUN key=RUN fair=N rounds=N
//   replay          rows=N columns=N board=RUN work=RUN list=RUN count=N
//   read-mbf        file=RUN board=RUN, or rows=N columns=N mines=N again=N board=RUN: the file that lists the first cells so and the last of them again
//   write-mbf       rows=N columns=N board=RUN file=RUN
// Each of them but read-mbf also with the word strict before it; those on a board also with last=VALUE, the board's last value. In the random and the keyed ones fair=0 is the old mode of the draws, any other number the fair one.
// A key is six numbers, its five words and its counter; two cases are of a key alone:
//   key-words       key=RUN count=N: the words that it gives
//   key-draw        key=RUN among=N fair=N: the place that a draw takes and the bytes of the key used, or DRAWS
// One case takes no field, and prints the library's version as one number:
//   version
// A run is a pattern, or a pattern, x and a length: the pattern over and over up to that length. A field that is not there is 0, or a run of none.
// The pattern of a board or a work area is values parted by commas (-1 is a mine), or a picture (* is a mine); of a list words parted by commas, or moves (L3, F4, C3, U4), of a key its numbers parted by commas; of draws or a file bytes of two digits, 0 to 9 and A to F.
// For a case its name is printed with the answer's number and two values (the first is NUMBER's cell), and behind a replay's the ending (0 unfinished, 1 won, 2 lost); then the key after it, if it was given one, and its list, if it has one, kind and index of each word; then its work area; of a file that is read the grid, of one that is written its run.
// Of a run of more than 255 numbers two sums are printed: of the numbers above 0, and of the sums up to each. A line that begins with # is printed as it is.
#![tactic(auto)]

mod drawn; // the cases that draw, by lent bytes or by a key
mod files; // the cases of MBF files
mod key_words; // the cases of a key alone

ghost use Rattle.std.specs.Prelude.{◌≤◌, length};

use trials::plain::Plain;
use trials::{fields, plain};
use zini::{count, prices, replays, strict};

// Runs a case's call in its strict form on what is lent to it.
fn strict_call(
    rt: HostRuntime,
    text: &[u8],
    grid: &[i32],
    work: &mut [i32],
    list: &mut [u32],
    draws: &[u8],
) -> Plain {
    let rows = fields::number(text, b"rows=");
    let columns = fields::number(text, b"columns=");
    if fields::is(text, 9, b"3bv ") {
        return plain::of_number(strict::three_bv(rows, columns, grid, work));
    }
    if fields::is(text, 9, b"at-least ") {
        let units = fields::number(text, b"units=");
        return plain::of_judged(strict::at_least(rows, columns, grid, work, units));
    }
    if fields::is(text, 9, b"greedy ") {
        return plain::of_number(strict::greedy(rows, columns, grid, work, list));
    }
    if fields::is(text, 9, b"openings-first ") {
        return plain::of_number(strict::openings_first(rows, columns, grid, work, list));
    }
    if fields::is(text, 9, b"random-round ") {
        return drawn::strict_random_round(text, rows, columns, grid, work, list, draws);
    }
    if fields::is(text, 9, b"random-search ") {
        return drawn::strict_random_search(text, rows, columns, grid, work, draws);
    }
    if fields::is(text, 9, b"keyed-round ") {
        return drawn::strict_keyed_round(text, rows, columns, grid, work, list);
    }
    if fields::is(text, 9, b"keyed-search ") {
        return drawn::strict_keyed_search(text, rows, columns, grid, work);
    }
    if fields::is(text, 9, b"replay ") {
        let moves = fields::number(text, b"count=");
        return plain::of_replayed(strict::replay(rows, columns, grid, work, list, moves));
    }
    trials::print(rt, b" no such call");
    plain::numbers(0, 0, 0)
}

// Runs a case's call on what is lent to it.
fn call(
    rt: HostRuntime,
    text: &[u8],
    grid: &[i32],
    work: &mut [i32],
    list: &mut [u32],
    draws: &[u8],
) -> Plain {
    if fields::is(text, 2, b"strict ") {
        return strict_call(rt, text, grid, work, list, draws);
    }
    let rows = fields::number(text, b"rows=");
    let columns = fields::number(text, b"columns=");
    if fields::is(text, 2, b"3bv ") {
        return plain::of_number(count::three_bv(rows, columns, grid, work));
    }
    if fields::is(text, 2, b"at-least ") {
        let units = fields::number(text, b"units=");
        return plain::of_judged(count::at_least(rows, columns, grid, work, units));
    }
    if fields::is(text, 2, b"greedy ") {
        return plain::of_number(prices::greedy(rows, columns, grid, work, list));
    }
    if fields::is(text, 2, b"openings-first ") {
        return plain::of_number(prices::openings_first(rows, columns, grid, work, list));
    }
    if fields::is(text, 2, b"random-round ") {
        return drawn::random_round(text, rows, columns, grid, work, list, draws);
    }
    if fields::is(text, 2, b"random-search ") {
        return drawn::random_search(text, rows, columns, grid, work, draws);
    }
    if fields::is(text, 2, b"keyed-round ") {
        return drawn::keyed_round(text, rows, columns, grid, work, list);
    }
    if fields::is(text, 2, b"keyed-search ") {
        return drawn::keyed_search(text, rows, columns, grid, work);
    }
    if fields::is(text, 2, b"replay ") {
        let moves = fields::number(text, b"count=");
        return plain::of_replayed(replays::replay(rows, columns, grid, work, list, moves));
    }
    trials::print(rt, b" no such call");
    plain::numbers(0, 0, 0)
}

// Prints a case's list, if it has one.
fn print_list(rt: HostRuntime, list: &[u32]) {
    if 0 < list.len() {
        trials::print_list(rt, list);
    }
}

// A board filled with a case's values.
fn lay_board(text: &[u8], grid: &mut [i32]) {
    fields::lay_values(text, b"board=", grid);
    fields::lay_last(text, b"last=", grid);
}

// Runs a case's call on what was filled for it, and prints what was lent.
fn run_laid(
    rt: HostRuntime,
    text: &[u8],
    grid: &[i32],
    work: &mut [i32],
    list: &mut [u32],
    draws: &[u8],
) {
    let answer = call(rt, text, grid, work, list, draws);
    trials::print_answer(rt, answer);
    print_list(rt, list);
    trials::print_area(rt, work);
}

// Fills what is lent to a case, and runs its call.
fn run_on(
    rt: HostRuntime,
    text: &[u8],
    grid: &mut [i32],
    work: &mut [i32],
    list: &mut [u32],
    draws: &mut [u8],
) {
    lay_board(text, grid);
    fields::lay_values(text, b"work=", work);
    fields::lay_words(text, b"list=", list);
    fields::lay_bytes(text, b"draws=", draws);
    run_laid(rt, text, grid, work, list, draws);
}

// Runs a case on the first numbers of what there is to lend.
fn run_in(
    rt: HostRuntime,
    text: &[u8],
    grid: &mut [i32],
    work: &mut [i32],
    list: &mut [u32],
    draws: &mut [u8],
) {
    let cells = fields::values(text, b"board=", grid.len());
    let numbers = fields::values(text, b"work=", work.len());
    let words = fields::values(text, b"list=", list.len());
    let bytes = fields::bytes(text, b"draws=", draws.len());
    run_on(
        rt,
        text,
        &mut grid[0..cells],
        &mut work[0..numbers],
        &mut list[0..words],
        &mut draws[0..bytes],
    );
}

// Runs a case, with the memory that takes.
fn run_case(rt: HostRuntime, text: &[u8]) {
    let mut grid = [0i32; 65025];
    let mut work = [0i32; 325126];
    let mut list = [0u32; 65026];
    let mut draws = [0u8; 65535];
    run_in(rt, text, &mut grid, &mut work, &mut list, &mut draws);
}

// Whether a line is a comment or empty.
fn is_comment(line: &[u8]) -> bool {
    matches!(line.first(), None | Some(b'#'))
}

// Prints the version of the library.
fn print_version(rt: HostRuntime) {
    trials::print_number(rt, version::number() as u64);
    trials::print(rt, b"\n");
}

// A line: a comment is printed as it is, a case is run.
fn run_line(rt: HostRuntime, line: &[u8]) {
    if is_comment(line) {
        trials::print(rt, line);
        trials::print(rt, b"\n");
        return;
    }
    let colon = fields::until(line, 0, b':');
    trials::print(rt, &line[0..colon]);
    if files::is_case(&line[colon..]) {
        files::run_case(rt, &line[colon..]);
        return;
    }
    if key_words::is_case(&line[colon..]) {
        key_words::run_case(rt, &line[colon..]);
        return;
    }
    if fields::is(&line[colon..], 2, b"version") {
        print_version(rt);
        return;
    }
    run_case(rt, &line[colon..]);
}

// Runs the lines that end in a text, and answers how many bytes they are.
fn run_lines(rt: HostRuntime, text: &[u8]) -> usize
    ensures { result ≤ length text.now }
{
    let mut from = 0;
    let mut end = fields::until(text, 0, b'\n');
    // A while: how far the lines go that end is answered.
    while end < text.len() {
        run_line(rt, &text[from..end]);
        from = end + 1;
        end = fields::until(text, from, b'\n');
    }
    from
}

// Moves bytes that begin at a place to the front.
fn keep(held: &mut [u8], from: usize, count: usize)
    requires { (from ≤ count) × (count ≤ length held.old) }
{
    held.copy_within(from..count, 0);
}

// Reads on behind the first so many bytes, and answers how many there are then.
fn read_on(rt: HostRuntime, held: &mut [u8], kept: usize) -> usize
    requires { kept ≤ length held.old }
    ensures { (kept ≤ result) × (result ≤ length held.old) }
{
    kept + trials::read_full(rt, &mut held[kept..])
}

// Runs the lines that end in the first so many bytes; what is left moves to the front, and its length is answered.
fn run_some(rt: HostRuntime, held: &mut [u8], count: usize) -> usize
    requires { count ≤ length held.old }
    ensures { result ≤ count }
{
    let from = run_lines(rt, &held[0..count]);
    keep(held, from, count);
    count - from
}

// Runs a last line without a line feed, if there is one in the first so many bytes.
fn run_last(rt: HostRuntime, held: &[u8], kept: usize)
    requires { kept ≤ length held.now }
{
    if kept == held.len() {
        trials::print(rt, b"a line that is too long\n");
        return;
    }
    if 0 < kept {
        run_line(rt, &held[0..kept]);
    }
}

// Reads to the end of input, in blocks. A proved loop has to end, so its turns are of a range that no run uses up.
fn run_all(rt: HostRuntime, held: &mut [u8]) {
    let mut kept = 0;
    for _ in 0..u64::MAX {
        let count = read_on(rt, held, kept);
        if count == kept {
            run_last(rt, held, kept);
            return;
        }
        kept = run_some(rt, held, count);
    }
}

fn main(rt: HostRuntime) {
    if trials::usage(
        rt,
        b"usage: cases < CASES  runs a call for each line NAME: CALL FIELD=VALUE .. of standard input, prints what it answers and what was lent to it, and takes no argument\n",
    ) {
        return;
    }
    let mut held = [0u8; 65536];
    run_all(rt, &mut held);
}
