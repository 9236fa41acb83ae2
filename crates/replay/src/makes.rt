// One replayed move: played if it is legal; else nothing changes.
ghost use Rattle.std.specs.Prelude.{◌≡◌, List, ◌*◌, ◌<◌, ℤ};
ghost use Rattle.std.proofs.Math.Option.{some};
ghost use Rattle.area.specs.Numbers.{HasCells};
ghost use Rattle.area.specs.Stages.{Moving, Shape};
ghost use Rattle.game.specs.Grid.{Grid};
ghost use Rattle.game.specs.Moves.{allowed, legal_read, read_move, chord as chord_move, flag as flag_move, left as left_move, unflag as unflag_move};
ghost use Rattle.game.specs.Position.{Position, Sane, closed_safe, lost as is_lost};
ghost use Rattle.replay.specs.Clicks.{Counts};
ghost use Rattle.replay.specs.Replays.{Making, ending_by};

use crate::clicks::{Remains, click, click_square};
use crate::flags::chordable;
use kinds::{Ending, Kind};

// L, if the cell is as it asks.
fn make_left(
    work: &mut [i32],
    rows: usize,
    columns: usize,
    index: usize,
    left: Remains,
) -> Option<Remains>
    requires shape { Shape rows columns }
    requires has_cells { HasCells work.old (rows * columns) × (index < rows * columns) }
    ensures { (g : Grid) (s : Position) (old : List ℤ) → Moving rows columns g s old work.old → Counts g s left
        → Making rows columns g s old (allowed g s (left_move index)) (some (left_move index)) result work.old work.new }
{
    if area::state(work, index) != 0 {
        return None;
    }
    let shown = click(work, rows, columns, index, false, left);
    let clicked = click(work, rows, columns, index, true, shown);
    Some(clicked)
}

// F, if the cell is as it asks.
fn make_flag(
    work: &mut [i32],
    rows: usize,
    columns: usize,
    index: usize,
    left: Remains,
) -> Option<Remains>
    requires shape { Shape rows columns }
    requires has_cells { HasCells work.old (rows * columns) × (index < rows * columns) }
    ensures { (g : Grid) (s : Position) (old : List ℤ) → Moving rows columns g s old work.old → Counts g s left
        → Making rows columns g s old (allowed g s (flag_move index)) (some (flag_move index)) result work.old work.new }
{
    let state = area::state(work, index);
    if state != 0 {
        return None;
    }
    area::put_state(work, index, 2);
    Some(left)
}

// A flag taken away, if there is one.
fn make_unflag(
    work: &mut [i32],
    rows: usize,
    columns: usize,
    index: usize,
    left: Remains,
) -> Option<Remains>
    requires shape { Shape rows columns }
    requires has_cells { HasCells work.old (rows * columns) × (index < rows * columns) }
    ensures { (g : Grid) (s : Position) (old : List ℤ) → Moving rows columns g s old work.old → Counts g s left
        → Making rows columns g s old (allowed g s (unflag_move index)) (some (unflag_move index)) result work.old work.new }
{
    let state = area::state(work, index);
    if state != 2 {
        return None;
    }
    area::put_state(work, index, 0);
    Some(left)
}

// C, if the cell is as it asks.
fn make_chord(
    work: &mut [i32],
    rows: usize,
    columns: usize,
    index: usize,
    left: Remains,
) -> Option<Remains>
    requires shape { Shape rows columns }
    requires has_cells { HasCells work.old (rows * columns) × (index < rows * columns) }
    ensures { (g : Grid) (s : Position) (old : List ℤ) → Moving rows columns g s old work.old → Sane g s → Counts g s left
        → Making rows columns g s old (allowed g s (chord_move index)) (some (chord_move index)) result work.old work.new }
{
    if !chordable(work, rows, columns, index) {
        return None;
    }
    let shown = click_square(work, rows, columns, index, false, left);
    let chorded = click_square(work, rows, columns, index, true, shown);
    Some(chorded)
}

// How a game ends, by the safe cells still closed and whether a mine was opened.
pub fn ending_of(closed: usize, lost: bool) -> Ending
    ensures { result ≡ ending_by closed lost }
{
    if lost {
        return Ending::Lost;
    }
    if closed == 0 {
        return Ending::Won;
    }
    Ending::Unfinished
}

// One replayed move, by what is left before it: played if it is legal, and what is left after it; else nothing changes.
pub fn make(
    work: &mut [i32],
    rows: usize,
    columns: usize,
    word: u32,
    left: Remains,
) -> Option<Remains>
    requires shape { Shape rows columns }
    requires has_cells { HasCells work.old (rows * columns) }
    ensures { (g : Grid) (s : Position) (old : List ℤ) → Moving rows columns g s old work.old → Sane g s
        → left.closed ≡ closed_safe g s → left.lost ≡ is_lost g s
        → Making rows columns g s old (legal_read g s (read_move word)) (read_move word) result work.old work.new }
{
    if ending_of(left.closed, left.lost) != Ending::Unfinished {
        return None;
    }
    let index = (word % 65536) as usize;
    if index >= rows * columns {
        return None;
    }
    match Kind::try_from(word / 65536).ok()? {
        Kind::Left => make_left(work, rows, columns, index, left),
        Kind::Flag => make_flag(work, rows, columns, index, left),
        Kind::Chord => make_chord(work, rows, columns, index, left),
        Kind::Unflag => make_unflag(work, rows, columns, index, left),
    }
}
