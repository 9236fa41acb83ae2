// An MBF file read into a lent grid: -1 for a mine, its number for a safe cell.
#![tactic(auto)]

ghost use Rattle.std.specs.Prelude.{◌≡◌};
ghost use Rattle.std.proofs.Math.Option.{none};
ghost use Rattle.game.specs.Calls.{first_given};
ghost use Rattle.lines.specs.Answers.{KeepsGrid, board_answer};
ghost use Rattle.mbf_form.specs.Form.{mine_places};
ghost use Rattle.mbf_form.specs.Calls.{file_refusal, read_file_call, side_checks};
ghost use Rattle.mbf_checks.specs.Marks.{BitsOf};

use lines::board::Board;
use refusals::Refusal;

pub mod numbers; // the numbers of the cells, by the bits of the mines

// A file that has been checked, with the bits of its mines: its grid, where the lent run has room for it.
fn read_checked(file: &[u8], bits: &[u8], grid: &mut [i32]) -> Result<Board, Refusal>
    requires file_value { file_refusal file.now ≡ none }
    requires bits_of { BitsOf (mine_places file.now) bits.now }
    ensures { KeepsGrid (read_file_call file.now grid.old) (board_answer result) grid.new }
{
    let columns = mbf_checks::byte(file, 0);
    let rows = mbf_checks::byte(file, 1);
    if grid.len() < rows * columns {
        return Err(Refusal::Board);
    }
    numbers::fill(bits, rows, columns, grid);
    Ok(Board { rows, columns })
}

// A file whose sides have been checked.
fn read_sided(file: &[u8], grid: &mut [i32]) -> Result<Board, Refusal>
    requires { first_given (side_checks file.now) ≡ none }
    ensures { KeepsGrid (read_file_call file.now grid.old) (board_answer result) grid.new }
{
    let mut bits = [0u8; 8192];
    mbf_checks::check_mines(file, &mut bits)?;
    read_checked(file, &bits, grid)
}

// A file read: rows and columns, and its grid at the start of the lent run.
pub fn read(file: &[u8], grid: &mut [i32]) -> Result<Board, Refusal>
    ensures { KeepsGrid (read_file_call file.now grid.old) (board_answer result) grid.new }
{
    mbf_checks::check_sides(file)?;
    read_sided(file, grid)
}
