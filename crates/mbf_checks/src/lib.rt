// An MBF file checked: its sides, then its count and its mines, each of which sets its bit.
#![tactic(auto)]

ghost use Rattle.std.specs.Prelude.{◌≡◌, ◌+◌, ◌*◌, ◌<◌, ◌≤◌, get_or, length};
ghost use Rattle.game.specs.Calls.{first_given};
ghost use Rattle.refusals.specs.Names.{refusal_of};
ghost use Rattle.mbf_form.specs.Form.{mine_count};
ghost use Rattle.mbf_form.specs.Calls.{side_checks};
ghost use Rattle.mbf_checks.specs.Marks.{CheckedMines, MarkedAll, MarkedOne, no_bits};

use refusals::Refusal;

// A byte of a file as a number.
pub fn byte(file: &[u8], at: usize) -> usize
    requires { at < length file.now }
    ensures { (result ≡ get_or file.now at 0) × (result < 256) }
{
    file[at] as usize
}

// FILE for under two bytes, then SHAPE by the width and height bytes.
pub fn check_sides(file: &[u8]) -> Result<(), Refusal>
    ensures { refusal_of result ≡ first_given (side_checks file.now) }
{
    if file.len() < 2 {
        return Err(Refusal::File);
    }
    if byte(file, 0) == 0 {
        return Err(Refusal::Shape);
    }
    if byte(file, 1) == 0 {
        return Err(Refusal::Shape);
    }
    Ok(())
}

// Sets the bit of the mine that is listed as number k, or answers false: it is past the edge, or its bit is set already.
fn mark_mine(file: &[u8], k: usize, bits: &mut [u8]) -> bool
    requires { (2 * k + 6 ≤ length file.now) × (length bits.old ≡ 8192) }
    ensures { MarkedOne file.now k bits.old result bits.new }
{
    let columns = byte(file, 0);
    let rows = byte(file, 1);
    let column = byte(file, 2 * k + 4);
    let row = byte(file, 2 * k + 5);
    if columns <= column {
        return false;
    }
    if rows <= row {
        return false;
    }
    mine_bits::set_new(bits, row * columns + column)
}

// Sets the bits of all mines, or answers false at the first that is past the edge or listed twice.
fn mark_mines(file: &[u8], count: usize, bits: &mut [u8]) -> bool
    requires { (count ≡ mine_count file.now) × (length file.now ≡ 4 + 2 * count) × (bits.old ≡ no_bits) }
    ensures { MarkedAll file.now result bits.new }
{
    for k in 0..count {
        if !mark_mine(file, k, bits) {
            return false;
        }
    }
    true
}

// FILE for a length that isn't 4 + 2 x the mine count, a mine past the edge or one listed twice; where there is none, the bits of the mines are set.
pub fn check_mines(file: &[u8], bits: &mut [u8]) -> Result<(), Refusal>
    requires { bits.old ≡ no_bits }
    ensures { CheckedMines file.now result bits.new }
{
    if file.len() < 4 {
        return Err(Refusal::File);
    }
    let count = 256 * byte(file, 2) + byte(file, 3);
    if file.len() != 4 + 2 * count {
        return Err(Refusal::File);
    }
    if !mark_mines(file, count, bits) {
        return Err(Refusal::File);
    }
    Ok(())
}
