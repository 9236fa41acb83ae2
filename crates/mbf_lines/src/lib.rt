// A board file as a board line, and a board line as a file.
#![tactic(auto)]

ghost use Rattle.std.specs.Prelude.{◌≡◌, [], ◌∷◌, ◌++◌, ◌+◌, ◌*◌, ◌≤◌, length, take};
ghost use Rattle.std.proofs.Math.Option.{none};
ghost use Rattle.std.proofs.lemmas.List.Edits.{sets};
ghost use Rattle.game.specs.Lists.{concat_map};
ghost use Rattle.game.specs.Calls.{board_checks, first_given};
ghost use Rattle.area.specs.Numbers.{grid_of};
ghost use Rattle.refusals.specs.Names.{named, refusal_of};
ghost use Rattle.hex_digits.specs.Hex.{byte_digits};
ghost use Rattle.lines.specs.BoardLine.{board_line};
ghost use Rattle.mbf_form.specs.Form.{file_grid, file_of, mine_places};
ghost use Rattle.mbf_form.specs.Calls.{side_checks};
ghost use Rattle.mbf_checks.specs.Marks.{BitsOf, no_bits};
ghost use Rattle.mbf_lines.specs.Conversions.{Printed, file_line, first_line, line_file, refusal_line, small_file_refusal};

use lines::board::Board;
use refusals::Refusal;

// A refusal's two digits and a line feed, at the start of a lent run: three bytes.
fn put_refusal(out: &mut [u8], refusal: Refusal) -> usize
    requires { 3 ≤ length out.old }
    ensures { Printed (refusal_line (named refusal)) result out.old out.new }
{
    let number = refusals::number_of(refusal) as usize;
    hex_digits::put_byte(out, 0, number);
    out[2] = 10;
    3
}

// SIZE for over 2,048 cells, then the checks of the mines, for a file whose sides pass.
fn check_cells(file: &[u8], bits: &mut [u8]) -> Result<(), Refusal>
    requires { (first_given (side_checks file.now) ≡ none) × (bits.old ≡ no_bits) }
    ensures { (refusal_of result ≡ small_file_refusal file.now) × (refusal_of result ≡ none → BitsOf (mine_places file.now) bits.new) }
{
    let columns = mbf_checks::byte(file, 0);
    let rows = mbf_checks::byte(file, 1);
    if 2048 < rows * columns {
        return Err(Refusal::Size);
    }
    mbf_checks::check_mines(file, bits)
}

// The checks of a file that is to be a line, in their order; where none is given, the bits of the mines are set.
fn check_file(file: &[u8], bits: &mut [u8]) -> Result<(), Refusal>
    requires { bits.old ≡ no_bits }
    ensures { (refusal_of result ≡ small_file_refusal file.now) × (refusal_of result ≡ none → BitsOf (mine_places file.now) bits.new) }
{
    mbf_checks::check_sides(file)?;
    check_cells(file, bits)
}

// The digits of the first bytes of a run, after those of rows and columns.
fn put_bytes(bytes: &[u8], count: usize, out: &mut [u8])
    requires { (count ≤ length bytes.now) × (2 * count + 4 ≤ length out.old) }
    ensures { out.new ≡ sets out.old 4 (concat_map byte_digits (take count bytes.now)) }
{
    for k in 0..count {
        let byte = mbf_checks::byte(bytes, k);
        hex_digits::put_byte(out, 2 * k + 4, byte);
    }
}

// The line of a file that passes, by the bits of its mines, and a line feed: how many bytes, at the start of a lent run.
fn put_line(file: &[u8], bits: &[u8], out: &mut [u8]) -> usize
    requires { (small_file_refusal file.now ≡ none) × BitsOf (mine_places file.now) bits.now × (517 ≤ length out.old) }
    ensures { Printed (board_line (file_grid file.now) ++ 10 ∷ []) result out.old out.new }
{
    let columns = mbf_checks::byte(file, 0);
    let rows = mbf_checks::byte(file, 1);
    let bytes = (rows * columns + 7) / 8;
    hex_digits::put_byte(out, 0, rows);
    hex_digits::put_byte(out, 2, columns);
    put_bytes(bits, bytes, out);
    out[2 * bytes + 4] = 10;
    2 * bytes + 5
}

// What mbf_to_line prints for a file: how many bytes, at the start of the lent run.
pub fn line_of_file(file: &[u8], out: &mut [u8; 517]) -> usize
    ensures { Printed (file_line file.now) result out.old out.new }
{
    let mut bits = [0u8; 8192];
    match check_file(file, &mut bits) {
        Err(refusal) => put_refusal(out, refusal),
        Ok(()) => put_line(file, &bits, out),
    }
}

// How many bytes stand before the first line feed: all of them where there is none.
fn first_line(input: &[u8]) -> usize
    ensures { (result ≤ length input.now) × (take result input.now ≡ first_line input.now) }
{
    for (k, byte) in input.iter().enumerate() {
        if hex_digits::is_end(*byte) {
            return k;
        }
    }
    input.len()
}

// The file of a board of at most 2,048 cells, which is never refused: how many bytes, at the start of a lent run.
fn put_file(rows: usize, columns: usize, grid: &[i32], out: &mut [u8]) -> usize
    requires { (first_given (board_checks (grid_of rows columns grid.now)) ≡ none) × (rows * columns ≤ 2048) × (4100 ≤ length out.old) }
    ensures { Printed (file_of (grid_of rows columns grid.now)) result out.old out.new }
{
    mbf_write::write(rows, columns, grid, out).unwrap_or(0)
}

// What line_to_mbf writes for an input: how many bytes, at the start of the lent run.
pub fn file_of_line(input: &[u8], out: &mut [u8; 4100]) -> usize
    ensures { Printed (line_file input.now) result out.old out.new }
{
    let end = first_line(input);
    let mut grid = [0i32; 2048];
    match lines::board::read_board(&input[..end], &mut grid) {
        Err(refusal) => put_refusal(out, refusal),
        Ok(Board { rows, columns }) => {
            let cells = rows * columns;
            put_file(rows, columns, &grid[..cells], out)
        }
    }
}
