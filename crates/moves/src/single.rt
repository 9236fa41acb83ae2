// Moves on a work area, each noted in the list: L, F on the mines of a square, C, and all three at a chosen cell.
ghost use Rattle.std.specs.Prelude.{◌≡◌, cond, List, [], ◌∷◌, map, ◌+◌, ◌-◌, ◌*◌, ◌^◌, ◌<◌, ◌≤◌, T, ℤ, set};
ghost use Rattle.area.specs.Squares.{row_cells};
ghost use Rattle.area.specs.Numbers.{HasCells};
ghost use Rattle.game.specs.Lists.{keep};
ghost use Rattle.game.specs.Grid.{Grid, safe, square, zero_cell};
ghost use Rattle.game.specs.Position.{Position, Tidy, closed as is_closed, closed_units, unflagged};
ghost use Rattle.game.specs.Moves.{left, flag, chord};
ghost use Rattle.game.specs.Rounds.{moves_at};
ghost use Rattle.area.specs.Stages.{Shape, Stands};
ghost use Rattle.play.specs.Promises.{MinesFlagged};
ghost use Rattle.moves.specs.Promises.{Carried, Made};
ghost use Rattle.moves.specs.Walks.{Over, flags_from};

use crate::State;
use kinds::Kind;
use play::Opened;
use squares::Square;

// Notes a move, if the list has room for it.
pub fn note(list: &mut [u32], at: usize, kind: u32, index: usize)
    requires { (kind ≤ 3) × (index < 65536) }
    ensures { list.new ≡ set list.old at (kind * 65536 + index) }
{
    if at >= list.len() {
        return;
    }
    list[at] = kind * 65536 + index as u32;
}

// Notes a move, and carries the state on: one move more, and the units that it took fewer.
pub fn carry_on(list: &mut [u32], state: State, kind: u32, index: usize, opened: Opened) -> State
    requires { (kind ≤ 3) × (index < 65536) × (state.moves ≤ 2 ^ 48) }
    ensures { Carried kind index opened list.old state list.new result }
{
    note(list, state.moves, kind, index);
    State {
        moves: state.moves + 1,
        units: state.units.saturating_sub(opened.units),
    }
}

// L on a closed safe cell.
pub fn click(
    work: &mut [i32],
    rows: usize,
    columns: usize,
    list: &mut [u32],
    state: State,
    index: usize,
) -> State
    requires shape { Shape rows columns }
    requires has_cells { HasCells work.old (rows * columns) × (index < rows * columns) × (state.moves ≤ 2 ^ 48) }
    ensures moves_bound { result.moves ≤ state.moves + 1 }
    ensures made { (g : Grid) (s : Position) (old : List ℤ) → Stands rows columns g s old work.old → Tidy g s
        → T (safe g index) → T (is_closed s index) → state.units ≡ closed_units g s
        → Made rows columns g s old (left index ∷ []) list.old state work.new list.new result }
{
    let opened = play::reveal(work, rows, columns, index);
    carry_on(list, state, u32::from(Kind::Left), index, opened)
}

// L, if the cell is closed.
pub fn click_closed(
    work: &mut [i32],
    rows: usize,
    columns: usize,
    list: &mut [u32],
    state: State,
    index: usize,
) -> State
    requires shape { Shape rows columns }
    requires has_cells { HasCells work.old (rows * columns) × (index < rows * columns) × (state.moves ≤ 2 ^ 48) }
    ensures moves_bound { result.moves ≤ state.moves + 1 }
    ensures made { (g : Grid) (s : Position) (old : List ℤ) → Stands rows columns g s old work.old → Tidy g s
        → T (safe g index) → state.units ≡ closed_units g s
        → Made rows columns g s old (cond (is_closed s index) (left index ∷ []) []) list.old state work.new list.new result }
{
    if area::state(work, index) != 0 {
        return state;
    }
    click(work, rows, columns, list, state, index)
}

// F, if there is a mine without flag.
pub fn flag_mine(
    work: &mut [i32],
    rows: usize,
    columns: usize,
    list: &mut [u32],
    state: State,
    index: usize,
) -> State
    requires shape { Shape rows columns }
    requires has_cells { HasCells work.old (rows * columns) × (index < rows * columns) × (state.moves ≤ 2 ^ 48) }
    ensures moves_bound { result.moves ≤ state.moves + 1 }
    ensures over { Over flags_from (index ∷ []) rows columns work.old list.old state work.new list.new result }
{
    if area::content(work, index) != 0 {
        return state;
    }
    if area::state(work, index) == 2 {
        return state;
    }
    play::flag(work, rows, columns, index);
    carry_on(
        list,
        state,
        u32::from(Kind::Flag),
        index,
        Opened { units: 0 },
    )
}

// F on each mine without flag of a square, by row, then column.
pub fn flag_around(
    work: &mut [i32],
    rows: usize,
    columns: usize,
    list: &mut [u32],
    state: State,
    index: usize,
) -> State
    requires shape { Shape rows columns }
    requires has_cells { HasCells work.old (rows * columns) × (index < rows * columns) × (state.moves ≤ 2 ^ 46) }
    ensures moves_bound { result.moves ≤ state.moves + 9 }
    ensures made { (g : Grid) (s : Position) (old : List ℤ) → Stands rows columns g s old work.old → Tidy g s → state.units ≡ closed_units g s
        → Made rows columns g s old (map flag (keep (unflagged g s) (square g index))) list.old state work.new list.new result }
{
    let mut flagged = state;
    for near in Square::around(rows, columns, index) {
        flagged = flag_mine(work, rows, columns, list, flagged, near);
    }
    flagged
}

// C, where the mines of the square are flagged.
pub fn chord_on(
    work: &mut [i32],
    rows: usize,
    columns: usize,
    list: &mut [u32],
    state: State,
    index: usize,
) -> State
    requires shape { Shape rows columns }
    requires has_cells { HasCells work.old (rows * columns) × (index < rows * columns) × (state.moves ≤ 2 ^ 48) }
    ensures { (g : Grid) (s : Position) (old : List ℤ) → Stands rows columns g s old work.old → Tidy g s → MinesFlagged g s index → state.units ≡ closed_units g s
        → Made rows columns g s old (chord index ∷ []) list.old state work.new list.new result }
{
    let opened = play::chord(work, rows, columns, index);
    carry_on(list, state, u32::from(Kind::Chord), index, opened)
}

// The moves at a chosen cell: L if it is closed, F on each unflagged mine of its square, then C.
pub fn act(
    work: &mut [i32],
    rows: usize,
    columns: usize,
    list: &mut [u32],
    state: State,
    index: usize,
) -> State
    requires shape { Shape rows columns }
    requires has_cells { HasCells work.old (rows * columns) × (index < rows * columns) × (state.moves ≤ 2 ^ 45) }
    ensures { (g : Grid) (s : Position) (old : List ℤ) → Stands rows columns g s old work.old → Tidy g s
        → T (safe g index) → (T (zero_cell g index) → ⊥) → state.units ≡ closed_units g s
        → Made rows columns g s old (moves_at g s index) list.old state work.new list.new result }
{
    let clicked = click_closed(work, rows, columns, list, state, index);
    let flagged = flag_around(work, rows, columns, list, clicked, index);
    chord_on(work, rows, columns, list, flagged, index)
}
