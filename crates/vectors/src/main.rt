// Replays the Rust's stored answers (docs/DIFFERENCES.md) from standard input, and says how many boards there were and how many differ.
#![tactic(auto)]

ghost use Rattle.std.specs.Prelude.{◌≤◌};

use refusals::Refusal;
use trials::fields::byte_at;
use trials::plain;
use trials::plain::Plain;
use zini::random_calls::Mode;

// The number of two bytes, high first.
fn pair_at(line: &[u8], place: usize) -> usize
    ensures { result ≤ 65535 }
{
    if place >= 65535 {
        return 0;
    }
    256 * byte_at(line, place) + byte_at(line, place + 1)
}

// A mine where the bit is set: the bits follow twelve bytes, high bit first.
fn value(line: &[u8], cell: usize) -> i32 {
    if cell >= 2048 {
        return 0;
    }
    let byte = byte_at(line, 12 + cell / 8);
    if (byte >> (7 - cell % 8)) % 2 == 1 {
        -1
    } else {
        0
    }
}

// The grid of a line.
fn lay_mines(line: &[u8], grid: &mut [i32]) {
    for (cell, v) in grid.iter_mut().enumerate() {
        *v = value(line, cell);
    }
}

// Where the draws of a line begin.
fn draws_from(cells: usize) -> usize
    ensures { result ≤ 269 }
{
    if cells > 2048 {
        return 0;
    }
    12 + (cells + 7) / 8
}

// How many draw bytes a line has.
fn draws_in(line: &[u8], cells: usize) -> usize
    ensures { result ≤ 4096 }
{
    let from = draws_from(cells);
    let bytes = line.len() / 2;
    if bytes < from {
        return 0;
    }
    if 4096 < bytes - from {
        return 0;
    }
    bytes - from
}

// A byte of the draws, which begin at a place.
fn draw_at(line: &[u8], from: usize, place: usize) -> u8 {
    if from > 269 {
        return 0;
    }
    if place >= 4096 {
        return 0;
    }
    byte_at(line, from + place) as u8
}

// The draws of a line, from a place on.
fn take_draws(line: &[u8], from: usize, draws: &mut [u8]) {
    for (place, byte) in draws.iter_mut().enumerate() {
        *byte = draw_at(line, from, place);
    }
}

// A figure beside the Rust's: 1 and a line printed where they differ.
fn differs(rt: HostRuntime, number: u64, name: &[u8], ours: u64, rust: usize) -> u64
    ensures { result ≤ 1 }
{
    if ours == rust as u64 {
        return 0;
    }
    trials::print(rt, b"line ");
    trials::print_decimal(rt, number);
    trials::print(rt, name);
    trials::print_decimal(rt, ours);
    trials::print(rt, b", the Rust ");
    trials::print_decimal(rt, rust as u64);
    trials::print(rt, b"\n");
    1
}

// A round's clicks, or more than any round has where it was refused.
fn clicks_of(answer: Result<usize, Refusal>) -> u64 {
    answer.unwrap_or(65536) as u64
}

// Greedy beside the Rust.
fn greedy(rt: HostRuntime, number: u64, line: &[u8], grid: &[i32]) -> u64
    ensures { result ≤ 1 }
{
    let mut work = [0i32; 10240];
    let mut list = [0u32; 2048];
    let answer = zini::prices::greedy(
        byte_at(line, 0),
        byte_at(line, 1),
        grid,
        &mut work,
        &mut list,
    );
    differs(
        rt,
        number,
        b": greedy ",
        clicks_of(answer),
        pair_at(line, 3),
    )
}

// Openings-first beside the Rust.
fn openings_first(rt: HostRuntime, number: u64, line: &[u8], grid: &[i32]) -> u64
    ensures { result ≤ 1 }
{
    let mut work = [0i32; 10240];
    let mut list = [0u32; 2048];
    let answer = zini::prices::openings_first(
        byte_at(line, 0),
        byte_at(line, 1),
        grid,
        &mut work,
        &mut list,
    );
    differs(
        rt,
        number,
        b": openings-first ",
        clicks_of(answer),
        pair_at(line, 5),
    )
}

// A random search's three figures beside the Rust's.
fn search_differs(rt: HostRuntime, number: u64, line: &[u8], search: Plain) -> u64
    ensures { result ≤ 3 }
{
    differs(
        rt,
        number,
        b": search answer ",
        search.number,
        byte_at(line, 7),
    ) + differs(
        rt,
        number,
        b": search clicks ",
        search.first,
        pair_at(line, 8),
    ) + differs(
        rt,
        number,
        b": search bytes ",
        search.second,
        pair_at(line, 10),
    )
}

// Random search beside the Rust, which has the old mode alone.
fn random_search(rt: HostRuntime, number: u64, line: &[u8], grid: &[i32], draws: &mut [u8]) -> u64
    ensures { result ≤ 3 }
{
    let mut work = [0i32; 10240];
    take_draws(line, draws_from(grid.len()), draws);
    let answer = zini::random_calls::random_search(
        byte_at(line, 0),
        byte_at(line, 1),
        grid,
        &mut work,
        draws,
        Mode::Old,
        byte_at(line, 2),
    );
    search_differs(rt, number, line, plain::of_rolled(answer))
}

// Random search with the draws of a line.
fn with_draws(rt: HostRuntime, number: u64, line: &[u8], grid: &[i32]) -> u64
    ensures { result ≤ 3 }
{
    let mut draws = [0u8; 4096];
    let count = draws_in(line, grid.len());
    random_search(rt, number, line, grid, &mut draws[..count])
}

// The three ways on a line's board: how many figures differ.
fn price(rt: HostRuntime, number: u64, line: &[u8], grid: &mut [i32]) -> u64
    ensures { result ≤ 5 }
{
    lay_mines(line, grid);
    greedy(rt, number, line, grid)
        + openings_first(rt, number, line, grid)
        + with_draws(rt, number, line, grid)
}

// A line that holds no board.
fn malformed(rt: HostRuntime, number: u64) -> bool {
    trials::print(rt, b"line ");
    trials::print_decimal(rt, number);
    trials::print(rt, b": no board\n");
    false
}

// A line's board, priced: whether all is as the Rust's.
fn replay_board(rt: HostRuntime, number: u64, line: &[u8]) -> bool {
    let cells = byte_at(line, 0) * byte_at(line, 1);
    if 2048 < cells {
        return malformed(rt, number);
    }
    let mut grid = [0i32; 2048];
    price(rt, number, line, &mut grid[..cells]) == 0
}

// Whether a line feed ends it.
fn is_ended(line: &[u8]) -> bool {
    line.last() == Some(&b'\n')
}

// Reads the rest of a line, and prices its board.
fn replay_rest(rt: HostRuntime, number: u64, line: &mut [u8]) -> bool {
    let got = trials::read_full(rt, line);
    if got < line.len() {
        return malformed(rt, number);
    }
    if !is_ended(line) {
        return malformed(rt, number);
    }
    replay_board(rt, number, line)
}

// A line whose length was read: two digits a byte, and the line feed.
fn replay_line(rt: HostRuntime, number: u64, bytes: usize) -> bool {
    if 4095 < bytes {
        return malformed(rt, number);
    }
    let mut line = [0u8; 8192];
    replay_rest(rt, number, &mut line[..2 * bytes + 1])
}

// The next line, if there is one: whether all is as the Rust's.
fn replay_next(rt: HostRuntime, number: u64) -> Option<bool> {
    let mut head = [0u8; 4];
    let got = trials::read_full(rt, &mut head);
    if got < 4 {
        return None;
    }
    Some(replay_line(rt, number, pair_at(&head, 0)))
}

// How many boards there were, and how many differ.
fn report(rt: HostRuntime, boards: u64, wrong: u64) {
    trials::print_decimal(rt, boards);
    trials::print(rt, b" boards, ");
    trials::print_decimal(rt, wrong);
    trials::print(rt, b" wrong\n");
}

// Every line: no input has a million of them.
fn replay_all(rt: HostRuntime) {
    let mut boards: u64 = 0;
    let mut wrong: u64 = 0;
    for board in 0..1000000 {
        let Some(right) = replay_next(rt, board + 1) else {
            break;
        };
        if !right {
            wrong += 1;
        }
        boards = board + 1;
    }
    report(rt, boards, wrong);
}

fn main(rt: HostRuntime) {
    if trials::usage(
        rt,
        b"usage: vectors < ANSWERS  compares the Rust's stored answers from standard input with ours, and takes no argument\n",
    ) {
        return;
    }
    replay_all(rt);
}
