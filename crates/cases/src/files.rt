// Cases of MBF files: a file read into a lent grid, and a grid written into a lent run of bytes.
ghost use Rattle.std.specs.Prelude.{◌≤◌};

use mbf::Board;
use refusals::Refusal;
use trials::plain::Plain;
use trials::{Sums, fields, plain};

// Whether a case is one of a file.
pub fn is_case(text: &[u8]) -> bool {
    fields::is(text, 2, b"read-mbf ")
        || fields::is(text, 2, b"strict write-mbf ")
        || fields::is(text, 2, b"write-mbf ")
}

// What reading a file answered.
fn of_read(answer: Result<Board, Refusal>) -> Plain {
    match answer {
        Ok(board) => plain::numbers(0, board.rows as u64, board.columns as u64),
        Err(refusal) => plain::of_refusal(refusal),
    }
}

// Prints a run of bytes: whole, or the sums of more than 255.
fn print_bytes(rt: HostRuntime, run: &[u8]) {
    if 255 < run.len() {
        let sums = run
            .iter()
            .fold(Sums::default(), |sums, byte| sums.with(*byte as u64));
        trials::print_sums(rt, sums);
    } else {
        for byte in run {
            trials::print_number(rt, *byte as u64);
        }
    }
    trials::print(rt, b"\n");
}

// The cell that is listed as number k where the first so many cells are listed in index order, and then the last of them again.
fn listed_cell(k: usize, mines: usize) -> usize {
    k.min(mines.saturating_sub(1))
}

// A byte of what lists so many mines so: column and row of each, in a grid of so many rows.
fn mine_byte(place: usize, rows: usize, mines: usize) -> u8 {
    if rows == 0 {
        return 0;
    }
    let cell = listed_cell(place / 2, mines);
    if place % 2 == 0 {
        return (cell / rows % 256) as u8;
    }
    (cell % rows % 256) as u8
}

// A byte of the file that lists so many mines of a grid so, in so many places.
fn listed_byte(place: usize, rows: usize, columns: usize, mines: usize, listed: usize) -> u8 {
    match place {
        0 => (columns % 256) as u8,
        1 => (rows % 256) as u8,
        2 => (listed / 256 % 256) as u8,
        3 => (listed % 256) as u8,
        _ => mine_byte(place - 4, rows, mines),
    }
}

// How many mines a case lists by their number: the first mines=N cells, and the last of them again=N times more.
fn listed(text: &[u8]) -> usize
    ensures { result ≤ 65535 }
{
    fields::number(text, b"mines=").min(65025) + fields::number(text, b"again=").min(510)
}

// A run filled with the file of a case that lists its mines so.
fn lay_listed(text: &[u8], run: &mut [u8]) {
    let rows = fields::number(text, b"rows=");
    let columns = fields::number(text, b"columns=");
    let mines = fields::number(text, b"mines=");
    let count = listed(text);
    for (place, byte) in run.iter_mut().enumerate() {
        *byte = listed_byte(place, rows, columns, mines, count);
    }
}

// A run filled with the file of a case: listed, or written out.
fn lay_file(text: &[u8], run: &mut [u8]) {
    if 0 < listed(text) {
        lay_listed(text, run);
        return;
    }
    fields::lay_bytes(text, b"file=", run);
}

// How many bytes the file of a case has, at most so many.
fn file_length(text: &[u8], most: usize) -> usize
    ensures { result ≤ most }
{
    let count = listed(text);
    if 0 < count {
        return (4 + 2 * count).min(most);
    }
    fields::bytes(text, b"file=", most)
}

// Fills what is lent to a case, reads its file into its grid, and prints the answer and the grid.
fn read_on(rt: HostRuntime, text: &[u8], file: &mut [u8], grid: &mut [i32]) {
    lay_file(text, file);
    fields::lay_values(text, b"board=", grid);
    trials::print_answer(rt, of_read(mbf::read(file, grid)));
    trials::print_area(rt, grid);
}

// Reads a case's file in the first bytes and values of what there is to lend.
fn read_in(rt: HostRuntime, text: &[u8], file: &mut [u8], grid: &mut [i32]) {
    let bytes = file_length(text, file.len());
    let cells = fields::values(text, b"board=", grid.len());
    read_on(rt, text, &mut file[0..bytes], &mut grid[0..cells]);
}

// Reads a case's file, with the memory that takes.
fn read_case(rt: HostRuntime, text: &[u8]) {
    let mut file = [0u8; 131074];
    let mut grid = [0i32; 65026];
    read_in(rt, text, &mut file, &mut grid);
}

// Writes a case's grid, strictly where the case says so.
fn write(text: &[u8], grid: &[i32], file: &mut [u8]) -> Result<usize, Refusal> {
    let rows = fields::number(text, b"rows=");
    let columns = fields::number(text, b"columns=");
    if fields::is(text, 2, b"strict ") {
        return mbf::strict_write(rows, columns, grid, file);
    }
    mbf::write(rows, columns, grid, file)
}

// Fills what is lent to a case, writes its grid into its run of bytes, and prints the answer and the run.
fn write_on(rt: HostRuntime, text: &[u8], grid: &mut [i32], file: &mut [u8]) {
    fields::lay_values(text, b"board=", grid);
    fields::lay_bytes(text, b"file=", file);
    trials::print_answer(rt, plain::of_number(write(text, grid, file)));
    print_bytes(rt, file);
}

// Writes a case's grid in the first values and bytes of what there is to lend.
fn write_in(rt: HostRuntime, text: &[u8], grid: &mut [i32], file: &mut [u8]) {
    let cells = fields::values(text, b"board=", grid.len());
    let bytes = fields::bytes(text, b"file=", file.len());
    write_on(rt, text, &mut grid[0..cells], &mut file[0..bytes]);
}

// Writes a case's grid, with the memory that takes.
fn write_case(rt: HostRuntime, text: &[u8]) {
    let mut grid = [0i32; 65026];
    let mut file = [0u8; 131074];
    write_in(rt, text, &mut grid, &mut file);
}

// Runs a case of a file.
pub fn run_case(rt: HostRuntime, text: &[u8]) {
    if fields::is(text, 2, b"read-mbf ") {
        read_case(rt, text);
        return;
    }
    write_case(rt, text);
}
