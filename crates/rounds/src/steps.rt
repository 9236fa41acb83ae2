// One step by the lowest index.
ghost use Rattle.std.specs.Prelude.{◌≡◌, Bool, List, [], ◌∷◌, ◌*◌, ◌^◌, ◌<◌, ◌≤◌, ℤ, length, get_or, T};
ghost use Rattle.area.specs.Numbers.{HasCells};
ghost use Rattle.game.specs.Grid.{Grid, column_of, safe, zero_cell};
ghost use Rattle.game.specs.Position.{Position, Tidy, closed as is_closed, closed_units};
ghost use Rattle.game.specs.Moves.{left};
ghost use Rattle.game.specs.Rounds.{moves_at, top_cells, unit_cells};
ghost use Rattle.area.specs.Stages.{Shape, Stands, Standing};
ghost use Rattle.choices.specs.Tests.{NoUnitBelow};
ghost use Rattle.choices.specs.Tops.{TopsKnown};
ghost use Rattle.rounds.specs.Promises.{MadeKnown, StepKnown};

use crate::Stepped;
use moves::{State, single};

// L on a closed safe cell, where no premium reaches 0; the columns that it may change are marked.
pub fn click_at(
    work: &mut [i32],
    rows: usize,
    columns: usize,
    list: &mut [u32],
    tops: &mut [u8],
    state: State,
    index: usize,
) -> State
    requires shape { Shape rows columns }
    requires has_cells { HasCells work.old (rows * columns) × (index < rows * columns) × (state.moves ≤ 2 ^ 45) }
    ensures { (openedOnly : Bool) (g : Grid) (s : Position) (old : List ℤ) → Stands rows columns g s old work.old → Tidy g s
        → T (safe g index) → T (is_closed s index) → top_cells openedOnly g s ≡ [] → state.units ≡ closed_units g s
        → MadeKnown openedOnly rows columns g s old (left index ∷ []) list.old work.old tops.old state work.new list.new tops.new result }
{
    marks::mark_click(work, rows, columns, tops, index);
    single::click(work, rows, columns, list, state, index)
}

// The moves at a chosen cell; the columns that they may change are marked.
pub fn act_at(
    work: &mut [i32],
    rows: usize,
    columns: usize,
    list: &mut [u32],
    tops: &mut [u8],
    state: State,
    index: usize,
) -> State
    requires shape { Shape rows columns }
    requires has_cells { HasCells work.old (rows * columns) × (index < rows * columns) × (state.moves ≤ 2 ^ 45) }
    ensures { (openedOnly : Bool) (g : Grid) (s : Position) (old : List ℤ) → Stands rows columns g s old work.old → Tidy g s
        → T (safe g index) → (T (zero_cell g index) → ⊥) → state.units ≡ closed_units g s
        → MadeKnown openedOnly rows columns g s old (moves_at g s index) list.old work.old tops.old state work.new list.new tops.new result }
{
    marks::mark(work, rows, columns, tops, index);
    single::act(work, rows, columns, list, state, index)
}

// L on the lowest closed 0-cell or unlabelled safe cell, if there is one, where no premium reaches 0; there is none in the columns before from. Hands on its column.
pub fn click_lowest(
    work: &mut [i32],
    rows: usize,
    columns: usize,
    list: &mut [u32],
    tops: &mut [u8],
    state: State,
    from: usize,
) -> Stepped
    requires shape { Shape rows columns }
    requires has_cells { HasCells work.old (rows * columns) × (state.moves ≤ 2 ^ 45) × (from ≤ columns) × NoUnitBelow work.old (from * rows) }
    requires standing { Standing rows columns work.old }
    ensures { (openedOnly : Bool) (g : Grid) (s : Position) (old : List ℤ) → Stands rows columns g s old work.old → Tidy g s
        → 1 ≤ length (unit_cells g s) → top_cells openedOnly g s ≡ [] → state.units ≡ closed_units g s
        → MadeKnown openedOnly rows columns g s old (left (get_or (unit_cells g s) 0 0) ∷ []) list.old work.old tops.old state work.new list.new tops.new result.state
        × (result.from ≡ column_of g (get_or (unit_cells g s) 0 0)) }
{
    let lowest = choices::units::lowest(work, rows, columns, from);
    let found = lowest.found;
    match found {
        Some(index) => {
            let clicked = click_at(work, rows, columns, list, tops, state, index);
            Stepped {
                state: clicked,
                from: lowest.column,
            }
        }
        None => Stepped { state, from },
    }
}

// A step: the moves at the lowest cell of highest premium, if that is 0 or more; else one L. There is no closed unit in the columns before from.
pub fn step(
    work: &mut [i32],
    rows: usize,
    columns: usize,
    list: &mut [u32],
    tops: &mut [u8],
    state: State,
    from: usize,
    opened_only: bool,
) -> Stepped
    requires shape { Shape rows columns }
    requires has_cells { HasCells work.old (rows * columns) × (state.moves ≤ 2 ^ 45) × (from ≤ columns) × NoUnitBelow work.old (from * rows) }
    requires tops_known { TopsKnown opened_only work.old rows columns tops.old }
    requires standing { Standing rows columns work.old }
    ensures { (g : Grid) (s : Position) (old : List ℤ) → Stands rows columns g s old work.old → Tidy g s
        → 1 ≤ closed_units g s → state.units ≡ closed_units g s
        → StepKnown opened_only rows columns g s old list.old state from work.new list.new tops.new result }
{
    let found = choices::known::best(work, rows, columns, tops, opened_only);
    match found {
        Some(index) => {
            let chorded = act_at(work, rows, columns, list, tops, state, index);
            Stepped {
                state: chorded,
                from,
            }
        }
        None => click_lowest(work, rows, columns, list, tops, state, from),
    }
}
