// Steps until all safe cells are open, from any position on, and a whole round: greedy or openings-first.
ghost use Rattle.std.specs.Prelude.{◌≡◌, List, ℕ, ◌+◌, ◌*◌, ◌^◌, ◌≤◌, ℤ, length};
ghost use Rattle.area.specs.Numbers.{HasCells};
ghost use Rattle.game.specs.Grid.{Grid};
ghost use Rattle.game.specs.Openings.{three_bv};
ghost use Rattle.game.specs.Position.{Position, Tidy, closed_units, untouched};
ghost use Rattle.game.specs.Rounds.{moves_of, steps_from, round_steps, first_steps, steps_on};
ghost use Rattle.area.specs.Stages.{Shape, Stands};
ghost use Rattle.choices.specs.Tops.{TopsKnown};
ghost use Rattle.moves.specs.Promises.{Made};
ghost use Rattle.rounds.specs.Promises.{Going, Fresh, RoundPlayed};

use crate::steps;
use moves::{State, opening_clicks};

// Steps by the lowest index until no unit is closed, and so all safe cells are open.
pub fn play_on(
    work: &mut [i32],
    rows: usize,
    columns: usize,
    list: &mut [u32],
    tops: &mut [u8],
    state: State,
    opened_only: bool,
) -> State
    requires shape { Shape rows columns }
    requires has_cells { HasCells work.old (rows * columns) × (state.moves ≤ 2 ^ 33) }
    requires going { Going rows columns work.old state }
    requires tops_known { TopsKnown opened_only work.old rows columns tops.old }
    ensures { (g : Grid) (s : Position) (old : List ℤ) (n : ℕ) → Stands rows columns g s old work.old → Tidy g s
        → state.units ≡ closed_units g s → closed_units g s ≤ n
        → Made rows columns g s old (moves_of (steps_from n opened_only g s)) list.old state work.new list.new result }
{
    let mut current = state;
    let mut from = 0;
    // A while: how many steps there are shows only as they are made.
    while 0 < current.units {
        let stepped = steps::step(work, rows, columns, list, tops, current, from, opened_only);
        current = stepped.state;
        from = stepped.from;
    }
    current
}

// The opening clicks, if the round is openings-first.
pub fn begin(
    work: &mut [i32],
    rows: usize,
    columns: usize,
    list: &mut [u32],
    state: State,
    openings_first: bool,
) -> State
    requires shape { Shape rows columns }
    requires has_cells { HasCells work.old (rows * columns) × (state.moves ≤ 2 ^ 32) }
    ensures moves_bound { result.moves ≤ state.moves + rows * columns }
    ensures made { (g : Grid) (s : Position) (old : List ℤ) → Stands rows columns g s old work.old → Tidy g s → state.units ≡ closed_units g s
        → Made rows columns g s old (moves_of (first_steps openings_first g s)) list.old state work.new list.new result }
{
    if openings_first {
        return opening_clicks::hit_openings(work, rows, columns, list, state);
    }
    state
}

// A round's steps from a tidy position on, to the end.
pub fn go_on(
    work: &mut [i32],
    rows: usize,
    columns: usize,
    list: &mut [u32],
    state: State,
    openings_first: bool,
) -> State
    requires shape { Shape rows columns }
    requires has_cells { HasCells work.old (rows * columns) × (state.moves ≤ 2 ^ 32) }
    requires going { Going rows columns work.old state }
    ensures { (g : Grid) (s : Position) (old : List ℤ) → Stands rows columns g s old work.old → Tidy g s → state.units ≡ closed_units g s
        → Made rows columns g s old (moves_of (steps_on openings_first g s)) list.old state work.new list.new result }
{
    let begun = begin(work, rows, columns, list, state, openings_first);
    let mut tops = [0u8; 255];
    play_on(work, rows, columns, list, &mut tops, begun, openings_first)
}

// A round from the position before any move, of so many units. Answers its clicks.
pub fn round(
    work: &mut [i32],
    rows: usize,
    columns: usize,
    list: &mut [u32],
    units: usize,
    openings_first: bool,
) -> usize
    requires shape { Shape rows columns }
    requires has_cells { HasCells work.old (rows * columns) }
    requires fresh { Fresh rows columns work.old units }
    ensures { (g : Grid) (old : List ℤ) → Stands rows columns g (untouched g) old work.old → units ≡ three_bv g → rows * columns ≤ length list.old
        → RoundPlayed rows columns g old (moves_of (round_steps openings_first g)) list.old result work.new list.new }
{
    let fresh = State { moves: 0, units };
    let done = go_on(work, rows, columns, list, fresh, openings_first);
    done.moves
}
