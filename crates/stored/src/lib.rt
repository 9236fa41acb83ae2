// Stored move lists: rows, columns, then each move as four bytes, high first.
#![tactic(auto)]

ghost use Rattle.std.specs.Prelude.{◌≡◌, ◌+◌, ◌*◌, ◌<◌, ◌≤◌, drop, get_or, length, take};
ghost use Rattle.std.proofs.lemmas.List.Edits.{sets};
ghost use Rattle.game.specs.Lists.{concat_map};
ghost use Rattle.game.specs.Area.{begun};
ghost use Rattle.game.specs.Calls.{first_given};
ghost use Rattle.hex_digits.specs.Hex.{byte_digits, bytes_of};
ghost use Rattle.stored.specs.MoveLine.{move_line, move_line_checks, read_moves_call, word_bytes, word_digits, words_of, write_checks, write_moves_call};
ghost use Rattle.stored.specs.Answers.{read_answer, written_answer};
ghost use Rattle.lines.specs.Outputs.{KeepsRun};
ghost use Rattle.refusals.specs.Names.{refusal_of};

use lines::board;
use refusals::Refusal;

// What reading a stored line gives: rows, columns and how many moves.
#[derive(Clone, Copy, Debug, PartialEq, Eq)]
pub struct Moves {
    pub rows: usize,
    pub columns: usize,
    pub count: usize,
}

// The move at a place of a stored line.
fn word_at(line: &[u8], k: usize) -> usize
    requires { 8 * k + 12 ≤ length line.now }
    ensures { (result ≡ get_or (words_of (drop 2 (bytes_of line.now))) k 0) × (result < 4294967296) }
{
    let first = hex_digits::byte_at(line, 4 * k + 2);
    let second = hex_digits::byte_at(line, 4 * k + 3);
    let third = hex_digits::byte_at(line, 4 * k + 4);
    let fourth = hex_digits::byte_at(line, 4 * k + 5);
    16777216 * first + 65536 * second + 256 * third + fourth
}

// Puts the moves of a stored line at the start of a lent list.
fn fill_list(line: &[u8], list: &mut [u32], count: usize)
    requires { (count ≤ length list.old) × (length line.now ≡ 8 * count + 4) }
    ensures { list.new ≡ begun (words_of (drop 2 (bytes_of line.now))) list.old }
{
    for k in 0..count {
        list[k] = word_at(line, k) as u32;
    }
}

// The checks of a stored line, in their order.
fn check_moves(line: &[u8], list: &[u32]) -> Result<(), Refusal>
    ensures { refusal_of result ≡ first_given (move_line_checks line.now list.now) }
{
    if board::has_wrong(line) {
        return Err(Refusal::Frame);
    }
    if line.len() < 4 {
        return Err(Refusal::Frame);
    }
    if line.len() % 8 != 4 {
        return Err(Refusal::Frame);
    }
    if hex_digits::byte_at(line, 0) == 0 {
        return Err(Refusal::Shape);
    }
    if hex_digits::byte_at(line, 1) == 0 {
        return Err(Refusal::Shape);
    }
    if list.len() < line.len() / 8 {
        return Err(Refusal::Trace);
    }
    Ok(())
}

// A stored line without its line feed read: rows, columns and how many moves, and the moves at the start of the list.
pub fn read_moves(line: &[u8], list: &mut [u32]) -> Result<Moves, Refusal>
    ensures { KeepsRun (read_moves_call line.now list.old) (read_answer result) list.new }
{
    check_moves(line, list)?;
    let rows = hex_digits::byte_at(line, 0);
    let columns = hex_digits::byte_at(line, 1);
    let count = line.len() / 8;
    fill_list(line, list, count);
    Ok(Moves {
        rows,
        columns,
        count,
    })
}

// A move's eight digits put at a place of a lent run.
fn put_word(out: &mut [u8], at: usize, word: u32)
    requires { at + 8 ≤ length out.old }
    ensures { out.new ≡ sets out.old at (concat_map byte_digits (word_bytes word)) }
{
    hex_digits::put_two(out, at, (word / 65536) as usize);
    hex_digits::put_two(out, at + 4, (word % 65536) as usize);
}

// The checks before a line is written, in their order.
fn check_written(
    rows: usize,
    columns: usize,
    list: &[u32],
    count: usize,
    line: &[u8],
) -> Result<(), Refusal>
    ensures { refusal_of result ≡ first_given (write_checks rows columns list.now count line.now) }
{
    if rows == 0 {
        return Err(Refusal::Shape);
    }
    if 255 < rows {
        return Err(Refusal::Shape);
    }
    if columns == 0 {
        return Err(Refusal::Shape);
    }
    if 255 < columns {
        return Err(Refusal::Shape);
    }
    if list.len() < count {
        return Err(Refusal::Trace);
    }
    if line.len() < 4 {
        return Err(Refusal::Trace);
    }
    if (line.len() - 4) / 8 < count {
        return Err(Refusal::Trace);
    }
    Ok(())
}

// The digits of the first moves of a list, after those of rows and columns.
fn put_words(list: &[u32], count: usize, line: &mut [u8])
    requires { (count ≤ length list.now) × (8 * count + 4 ≤ length line.old) }
    ensures { line.new ≡ sets line.old 4 (word_digits (take count list.now)) }
{
    for k in 0..count {
        put_word(line, 8 * k + 4, list[k]);
    }
}

// The digits of rows, columns and the first moves of a list, at the start of a lent run.
fn put_moves(rows: usize, columns: usize, list: &[u32], count: usize, line: &mut [u8])
    requires { (rows < 256) × (columns < 256) × (count ≤ length list.now) × (8 * count + 4 ≤ length line.old) }
    ensures { line.new ≡ begun (move_line rows columns (take count list.now)) line.old }
{
    hex_digits::put_byte(line, 0, rows);
    hex_digits::put_byte(line, 2, columns);
    put_words(list, count, line);
}

// The first moves of a list written as a line: how many digits it has, at the start of the lent run.
pub fn write_moves(
    rows: usize,
    columns: usize,
    list: &[u32],
    count: usize,
    line: &mut [u8],
) -> Result<usize, Refusal>
    ensures { KeepsRun (write_moves_call rows columns list.now count line.old) (written_answer result) line.new }
{
    check_written(rows, columns, list, count, line)?;
    put_moves(rows, columns, list, count, line);
    Ok(8 * count + 4)
}
