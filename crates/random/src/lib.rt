// Random steps, rounds and searches on a work area that stands for a position.
#![tactic(auto)]

ghost use Rattle.std.specs.Prelude.{◌≡◌, cond, false, List, [], ℕ, ◌*◌, ◌^◌, ◌<◌, ◌≤◌, T, eqb, ℤ, length};
ghost use Rattle.area.specs.Numbers.{HasCells};
ghost use Rattle.game.specs.Grid.{Grid, safe, zero_cell};
ghost use Rattle.game.specs.Openings.{three_bv};
ghost use Rattle.game.specs.Position.{Position, Tidy, closed as is_closed, closed_units, untouched};
ghost use Rattle.game.specs.Moves.{Move, after};
ghost use Rattle.game.specs.Rounds.{choice, step_of, top_cells, width, random_round, random_search, search_from};
ghost use Rattle.draws.specs.Answers.{mode_of};
ghost use Rattle.area.specs.Stages.{Shape, Stands};
ghost use Rattle.supplies.specs.Origins.{KeyRoom, Origin, Reads, Somewhere, source_of};
ghost use Rattle.choices.specs.Tops.{TopsKnown, UnitsKnown};
ghost use Rattle.moves.specs.Promises.{Made};
ghost use Rattle.rounds.specs.Promises.{MadeKnown, Fresh};
ghost use Rattle.random.specs.Promises.{CountsUnits, Tells, taken_moves, once, RoundGrows, StepGrows, Stepping, Rolling, Searching};

use draws::Mode;
use moves::State;
use rounds::steps;
use supplies::{Dealt, Supply};

// What a step draws among: so many cells, and the highest raised premium; below 10 the step is one L.
#[derive(Drop)]
struct Candidates {
    top: usize,
    count: usize,
}

// What a step hands on: the state after it, and the supply that the next draw reads on from.
#[derive(Drop)]
pub struct Onward {
    pub state: State,
    pub supply: Supply,
}

// How a round or a search ends: its clicks and the supply after the last draw.
#[derive(Clone, Copy, PartialEq, Eq, Debug)]
pub struct Finish {
    pub clicks: usize,
    pub supply: Supply,
}

// The moves of a step at the cell that it took: one L where the highest raised premium is below 10.
fn take(
    work: &mut [i32],
    rows: usize,
    columns: usize,
    list: &mut [u32],
    tops: &mut [u8],
    state: State,
    top: usize,
    index: usize,
) -> State
    requires shape { Shape rows columns }
    requires has_cells { HasCells work.old (rows * columns) × (index < rows * columns) × (state.moves ≤ 2 ^ 45) }
    ensures { (g : Grid) (s : Position) (old : List ℤ) → Stands rows columns g s old work.old → Tidy g s
        → T (safe g index) → (top < 10 → T (is_closed s index) × (top_cells false g s ≡ [])) → (10 ≤ top → T (zero_cell g index) → ⊥) → state.units ≡ closed_units g s
        → MadeKnown false rows columns g s old (taken_moves g s top index) list.old work.old tops.old state work.new list.new tops.new result }
{
    if top < 10 {
        return steps::click_at(work, rows, columns, list, tops, state, index);
    }
    steps::act_at(work, rows, columns, list, tops, state, index)
}

// The cells that a step may take, counted.
fn count_candidates(
    work: &[i32],
    rows: usize,
    columns: usize,
    tops: &mut [u8],
    units: &mut [u8],
) -> Candidates
    requires shape { Shape rows columns }
    requires has_cells { HasCells work.now (rows * columns) × TopsKnown false work.now rows columns tops.old × UnitsKnown work.now rows columns tops.old units.old }
    ensures tops_len_unchanged { (length tops.new ≡ length tops.old) × TopsKnown false work.now rows columns tops.new }
    ensures units_len_unchanged { (length units.new ≡ length units.old) × UnitsKnown work.now rows columns units.new units.new }
    ensures tells { (g : Grid) (s : Position) (old : List ℤ) → Stands rows columns g s old work.now → Tells g s work.now (rows * columns) result.top × (result.count ≡ width (choice false g s)) }
{
    let top = ties::top(work, rows, columns, tops, units);
    let count = ties::count(work, rows, columns, tops, units, top);
    Candidates { top, count }
}

// The candidate at a place, in index order, is taken: the moves of a step there.
fn take_place(
    work: &mut [i32],
    rows: usize,
    columns: usize,
    list: &mut [u32],
    tops: &mut [u8],
    units: &mut [u8],
    state: State,
    top: usize,
    place: usize,
) -> State
    requires shape { Shape rows columns }
    requires has_cells { HasCells work.old (rows * columns) × (state.moves ≤ 2 ^ 45) }
    requires tops_known { TopsKnown false work.old rows columns tops.old × UnitsKnown work.old rows columns units.old units.old }
    ensures { (g : Grid) (s : Position) (old : List ℤ) → Stands rows columns g s old work.old → Tidy g s → Tells g s work.old (rows * columns) top
        → place < width (choice false g s) → state.units ≡ closed_units g s
        → Made rows columns g s old (step_of g s (choice false g s) place).moves list.old state work.new list.new result
        × TopsKnown false work.new rows columns tops.new
        × UnitsKnown work.new rows columns tops.new units.new }
{
    let index = ties::pick(work, rows, columns, tops, units, top, place);
    take(work, rows, columns, list, tops, state, top, index)
}

// A step: the candidates are counted, one is drawn from the supply, and the drawn one is taken.
pub fn step(
    work: &mut [i32],
    rows: usize,
    columns: usize,
    list: &mut [u32],
    draws: &[u8],
    mode: Mode,
    tops: &mut [u8],
    units: &mut [u8],
    state: State,
    supply: Supply,
) -> Option<Onward>
    requires shape { Shape rows columns }
    requires has_cells { HasCells work.old (rows * columns) × (state.moves ≤ 2 ^ 45) }
    requires tops_known { TopsKnown false work.old rows columns tops.old × UnitsKnown work.old rows columns tops.old units.old }
    requires key_room { KeyRoom 256 supply }
    ensures step_grows { StepGrows supply result }
    ensures stepping { (g : Grid) (s : Position) (old : List ℤ) (origin : Origin) (at : ℕ) → Stands rows columns g s old work.old → Tidy g s
        → 1 ≤ closed_units g s → state.units ≡ closed_units g s → Reads origin at supply
        → Stepping rows columns g s old origin (source_of (mode_of mode) draws.now origin at (width (choice false g s))) list.old state work.old work.new list.new result
        × TopsKnown false work.new rows columns tops.new
        × UnitsKnown work.new rows columns tops.new units.new }
{
    let candidates = count_candidates(work, rows, columns, tops, units);
    let count = candidates.count;
    let top = candidates.top;
    let dealt = supplies::draw(draws, mode, supply, count)?;
    let taken = take_place(
        work,
        rows,
        columns,
        list,
        tops,
        units,
        state,
        top,
        dealt.place,
    );
    Some(Onward {
        state: taken,
        supply: dealt.supply,
    })
}

// Steps from the position before any move until no unit is closed, and so all safe cells are open.
fn roll_on(
    work: &mut [i32],
    rows: usize,
    columns: usize,
    list: &mut [u32],
    draws: &[u8],
    mode: Mode,
    tops: &mut [u8],
    column_units: &mut [u8],
    units: usize,
    supply: Supply,
) -> Option<Finish>
    requires shape { Shape rows columns }
    requires has_cells { HasCells work.old (rows * columns) }
    requires fresh { Fresh rows columns work.old units }
    requires key_room { KeyRoom (2 ^ 24) supply × Somewhere supply }
    requires tops_known { TopsKnown false work.old rows columns tops.old × UnitsKnown work.old rows columns tops.old column_units.old }
    ensures round_grows { RoundGrows supply result }
    ensures rolling { (g : Grid) (old : List ℤ) (origin : Origin) (at : ℕ) → Stands rows columns g (untouched g) old work.old → units ≡ three_bv g → Reads origin at supply
        → Rolling rows columns g old origin (random_round g (source_of (mode_of mode) draws.now origin) at) list.old work.new list.new result }
{
    let mut state = State { moves: 0, units };
    let mut rest = supply;
    // A while: how many steps there are shows only as they are made.
    while 0 < state.units {
        let onward = step(
            work,
            rows,
            columns,
            list,
            draws,
            mode,
            tops,
            column_units,
            state,
            rest,
        )?;
        state = onward.state;
        rest = onward.supply;
    }
    Some(Finish {
        clicks: state.moves,
        supply: rest,
    })
}

// A round from the position before any move, of so many units, that draws from a supply.
pub fn round(
    work: &mut [i32],
    rows: usize,
    columns: usize,
    list: &mut [u32],
    draws: &[u8],
    mode: Mode,
    units: usize,
    supply: Supply,
) -> Option<Finish>
    requires shape { Shape rows columns }
    requires has_cells { HasCells work.old (rows * columns) }
    requires fresh { Fresh rows columns work.old units }
    requires key_room { KeyRoom (2 ^ 24) supply × Somewhere supply }
    ensures round_grows { RoundGrows supply result }
    ensures rolling { (g : Grid) (old : List ℤ) (origin : Origin) (at : ℕ) → Stands rows columns g (untouched g) old work.old → units ≡ three_bv g → Reads origin at supply
        → Rolling rows columns g old origin (random_round g (source_of (mode_of mode) draws.now origin) at) list.old work.new list.new result }
{
    let mut tops = [0u8; 255];
    let mut column_units = [0u8; 255];
    roll_on(
        work,
        rows,
        columns,
        list,
        draws,
        mode,
        &mut tops,
        &mut column_units,
        units,
        supply,
    )
}

// A round that notes no move.
fn unlisted(
    work: &mut [i32],
    rows: usize,
    columns: usize,
    draws: &[u8],
    mode: Mode,
    units: usize,
    supply: Supply,
) -> Option<Finish>
    requires shape { Shape rows columns }
    requires has_cells { HasCells work.old (rows * columns) }
    requires fresh { Fresh rows columns work.old units }
    requires key_room { KeyRoom (2 ^ 24) supply × Somewhere supply }
    ensures round_grows { RoundGrows supply result }
    ensures searching { (g : Grid) (old : List ℤ) (origin : Origin) (at : ℕ) → Stands rows columns g (untouched g) old work.old → units ≡ three_bv g → Reads origin at supply
        → Searching rows columns g old origin (once (random_round g (source_of (mode_of mode) draws.now origin) at)) work.new result }
{
    let mut none = [0u32; 0];
    round(work, rows, columns, &mut none, draws, mode, units, supply)
}

// One more round: the labels stay, and the position is the one before any move again.
fn again(
    work: &mut [i32],
    rows: usize,
    columns: usize,
    draws: &[u8],
    mode: Mode,
    units: usize,
    supply: Supply,
) -> Option<Finish>
    requires shape { Shape rows columns }
    requires has_cells { HasCells work.old (rows * columns) }
    requires counts_units { CountsUnits rows columns work.old units }
    requires key_room { KeyRoom (2 ^ 24) supply × Somewhere supply }
    ensures round_grows { RoundGrows supply result }
    ensures searching { (g : Grid) (s : Position) (old : List ℤ) (origin : Origin) (at : ℕ) → Stands rows columns g s old work.old → units ≡ three_bv g → Reads origin at supply
        → Searching rows columns g old origin (once (random_round g (source_of (mode_of mode) draws.now origin) at)) work.new result }
{
    start::begin::reset(work, rows, columns);
    unlisted(work, rows, columns, draws, mode, units, supply)
}

// So many rounds more, after those that came to this: none after one that used nothing, since each later one would be the same.
fn search_on(
    work: &mut [i32],
    rows: usize,
    columns: usize,
    draws: &[u8],
    mode: Mode,
    units: usize,
    before: Finish,
    more: usize,
) -> Option<Finish>
    requires shape { Shape rows columns }
    requires has_cells { HasCells work.old (rows * columns) }
    requires counts_units { CountsUnits rows columns work.old units }
    requires key_room { KeyRoom (2 ^ 24 * more) before.supply × Somewhere before.supply }
    ensures { (g : Grid) (old : List ℤ) (ms : List Move) (origin : Origin) (at : ℕ) → Stands rows columns g (after g (untouched g) ms) old work.old → units ≡ three_bv g → Reads origin at before.supply
        → Searching rows columns g old origin (search_from more g (source_of (mode_of mode) draws.now origin) (record { least = before.clicks; next = at; moves = ms })) work.new result }
{
    let mut best = before;
    for _ in 0..more {
        let began = best.supply.used;
        let ended = again(work, rows, columns, draws, mode, units, best.supply)?;
        best = Finish {
            clicks: best.clicks.min(ended.clicks),
            supply: ended.supply,
        };
        if best.supply.used == began {
            return Some(best);
        }
    }
    Some(best)
}

// So many rounds one after another through the same draws: the least clicks.
pub fn search(
    work: &mut [i32],
    rows: usize,
    columns: usize,
    draws: &[u8],
    mode: Mode,
    units: usize,
    supply: Supply,
    rounds: usize,
) -> Option<Finish>
    requires shape { Shape rows columns }
    requires has_cells { HasCells work.old (rows * columns) × (1 ≤ rounds) }
    requires fresh { Fresh rows columns work.old units }
    requires key_room { KeyRoom (2 ^ 24 * rounds) supply × Somewhere supply }
    ensures { (g : Grid) (old : List ℤ) (origin : Origin) → Stands rows columns g (untouched g) old work.old → units ≡ three_bv g → Reads origin 0 supply
        → Searching rows columns g old origin (random_search g (source_of (mode_of mode) draws.now origin) rounds) work.new result }
{
    let first = unlisted(work, rows, columns, draws, mode, units, supply)?;
    if first.supply.used == supply.used {
        return Some(first);
    }
    search_on(work, rows, columns, draws, mode, units, first, rounds - 1)
}
