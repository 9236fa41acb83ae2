// Board lines.
ghost use Rattle.std.specs.Prelude.{◌≡◌, ◌+◌, ◌*◌, ◌/◌, ◌%◌, ◌-◌, ◌^◌, ◌<◌, ◌≤◌, length};
ghost use Rattle.std.proofs.Math.Option.{none};
ghost use Rattle.game.specs.Lists.{some_of};
ghost use Rattle.game.specs.Area.{begun};
ghost use Rattle.hex_digits.specs.Hex.{bytes_of, is_wrong};
ghost use Rattle.lines.specs.BoardLine.{bit_between, board_line_call, cell_values, digits_refused, line_refusal, mine_bit, value_of};
ghost use Rattle.lines.specs.Answers.{KeepsGrid, board_answer};
ghost use Rattle.refusals.specs.Names.{refusal_of};

use refusals::Refusal;

// What reading a board line gives: rows and columns.
#[derive(Clone, Copy, Debug, PartialEq, Eq)]
pub struct Board {
    pub rows: usize,
    pub columns: usize,
}

// Whether a byte of a line is wrong.
pub fn has_wrong(line: &[u8]) -> bool
    ensures { result ≡ some_of is_wrong line.now }
{
    for byte in line {
        if hex_digits::is_wrong(*byte) {
            return true;
        }
    }
    false
}

// One of the four bits of a digit's value, high bit first.
fn bit_of(value: usize, place: usize) -> usize
    requires { place < 4 }
    ensures { result ≡ value / 2 ^ (3 - place) % 2 }
{
    match place {
        0 => value / 8 % 2,
        1 => value / 4 % 2,
        2 => value / 2 % 2,
        _ => value % 2,
    }
}

// Whether the mine bit at a place is set.
fn mine_bit(line: &[u8], k: usize) -> bool
    requires { 2 * (k / 8) + 6 ≤ length line.now }
    ensures { result ≡ mine_bit (bytes_of line.now) k }
{
    let value = hex_digits::value_of(line[4 + k / 4]);
    bit_of(value, k % 4) == 1
}

// The value of a cell: -1 for a mine, 0 for another.
fn cell_value(line: &[u8], k: usize) -> i32
    requires { 2 * (k / 8) + 6 ≤ length line.now }
    ensures { result ≡ value_of (mine_bit (bytes_of line.now) k) }
{
    if mine_bit(line, k) { -1 } else { 0 }
}

// Whether a mine bit from one place up to another is set.
fn bit_between(line: &[u8], from: usize, to: usize) -> bool
    requires { (from ≤ to) × (to ≤ 4 * length line.now - 16) × (length line.now % 2 ≡ 0) }
    ensures { result ≡ bit_between (bytes_of line.now) from to }
{
    for k in from..to {
        if mine_bit(line, k) {
            return true;
        }
    }
    false
}

// Puts the values of the cells at the start of a lent run.
fn fill(line: &[u8], grid: &mut [i32], cells: usize)
    requires { (cells ≤ length grid.old) × (cells ≤ 4 * length line.now - 16) × (length line.now % 2 ≡ 0) }
    ensures { grid.new ≡ begun (cell_values (bytes_of line.now) cells) grid.old }
{
    for k in 0..cells {
        let value = cell_value(line, k);
        grid[k] = value;
    }
}

// Whether the digits alone are refused: a wrong character, odd digits, fewer than 4 or more than 516.
fn digits_refused(line: &[u8]) -> bool
    ensures { result ≡ digits_refused line.now }
{
    has_wrong(line) || line.len() % 2 == 1 || line.len() < 4 || 516 < line.len()
}

// The checks of a board line, in their order.
pub fn check(line: &[u8]) -> Result<(), Refusal>
    ensures { refusal_of result ≡ line_refusal line.now }
{
    if digits_refused(line) {
        return Err(Refusal::Frame);
    }
    let rows = hex_digits::byte_at(line, 0);
    let columns = hex_digits::byte_at(line, 1);
    if rows == 0 {
        return Err(Refusal::Shape);
    }
    if columns == 0 {
        return Err(Refusal::Shape);
    }
    if 2048 < rows * columns {
        return Err(Refusal::Size);
    }
    let bytes = (rows * columns + 7) / 8;
    if line.len() != 4 + 2 * bytes {
        return Err(Refusal::Frame);
    }
    if bit_between(line, rows * columns, 8 * bytes) {
        return Err(Refusal::Frame);
    }
    Ok(())
}

// A line that has been checked: its cells' values, where the lent run has room for them.
fn read_checked(line: &[u8], grid: &mut [i32]) -> Result<Board, Refusal>
    requires { line_refusal line.now ≡ none }
    ensures { KeepsGrid (board_line_call line.now grid.old) (board_answer result) grid.new }
{
    let rows = hex_digits::byte_at(line, 0);
    let columns = hex_digits::byte_at(line, 1);
    if grid.len() < rows * columns {
        return Err(Refusal::Board);
    }
    fill(line, grid, rows * columns);
    Ok(Board { rows, columns })
}

// A board line without its line feed read: rows and columns, and its cells' values at the start of the lent run.
pub fn read_board(line: &[u8], grid: &mut [i32]) -> Result<Board, Refusal>
    ensures { KeepsGrid (board_line_call line.now grid.old) (board_answer result) grid.new }
{
    check(line)?;
    read_checked(line, grid)
}
