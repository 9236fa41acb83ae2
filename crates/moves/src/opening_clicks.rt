// The opening clicks of an openings-first round.
ghost use Rattle.std.specs.Prelude.{◌≡◌, List, [], ◌∷◌, ◌+◌, ◌*◌, ◌^◌, ◌<◌, ◌≤◌, ℤ};
ghost use Rattle.area.specs.Numbers.{HasCells};
ghost use Rattle.game.specs.Grid.{Grid, cells};
ghost use Rattle.game.specs.Position.{Position, Tidy, closed_units};
ghost use Rattle.game.specs.Rounds.{moves_of, opening_clicks};
ghost use Rattle.area.specs.Stages.{Shape, Stands};
ghost use Rattle.moves.specs.Promises.{Made};
ghost use Rattle.moves.specs.Walks.{Over, hits_from};

use crate::{State, single};

// L, if there is a closed 0-cell.
pub fn hit(
    work: &mut [i32],
    rows: usize,
    columns: usize,
    list: &mut [u32],
    state: State,
    index: usize,
) -> State
    requires shape { Shape rows columns }
    requires has_cells { HasCells work.old (rows * columns) × (index < rows * columns) × (state.moves ≤ 2 ^ 45) }
    ensures moves_bound { result.moves ≤ state.moves + 1 }
    ensures over { Over hits_from (index ∷ []) rows columns work.old list.old state work.new list.new result }
{
    if area::content(work, index) != 1 {
        return state;
    }
    single::click_closed(work, rows, columns, list, state, index)
}

// L on each closed 0-cell, in index order.
pub fn hit_openings(
    work: &mut [i32],
    rows: usize,
    columns: usize,
    list: &mut [u32],
    state: State,
) -> State
    requires shape { Shape rows columns }
    requires has_cells { HasCells work.old (rows * columns) × (state.moves ≤ 2 ^ 32) }
    ensures moves_bound { result.moves ≤ state.moves + rows * columns }
    ensures made { (g : Grid) (s : Position) (old : List ℤ) → Stands rows columns g s old work.old → Tidy g s → state.units ≡ closed_units g s
        → Made rows columns g s old (moves_of (opening_clicks g s (cells g))) list.old state work.new list.new result }
{
    let cells = rows * columns;
    let mut clicked = state;
    for index in 0..cells {
        clicked = hit(work, rows, columns, list, clicked, index);
    }
    clicked
}
