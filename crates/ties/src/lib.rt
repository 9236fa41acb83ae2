// The cells that a random step draws among: the highest premium, how many have it, the one at a place. No list of them is kept.
#![tactic(auto)]

ghost use Rattle.std.specs.Prelude.{◌≡◌, cond, false, List, ℕ, ◌+◌, ◌*◌, ◌<◌, ◌≤◌, eqb, ltb, ℤ, length, get_or};
ghost use Rattle.area.specs.Numbers.{HasCell, HasCells};
ghost use Rattle.game.specs.Grid.{Grid};
ghost use Rattle.game.specs.Lists.{count, keep, range};
ghost use Rattle.game.specs.Position.{Position};
ghost use Rattle.game.specs.Rounds.{choice};
ghost use Rattle.area.specs.Stages.{Shape, Stands};
ghost use Rattle.choices.specs.Tops.{TopsKnown, UnitsKnown, column_units};
ghost use Rattle.ties.specs.Candidates.{candidate_at, candidates_of, for_click, skipped_at};
ghost use Rattle.mark_columns.specs.Columns.{MarkedOr};

use choices::{known, units};

// What is kept of a column's closed units, or a mark where its premium is marked.
fn unless_marked(top: u8, kept: u8) -> u8
    ensures { result ≡ cond (eqb top 0) 0 kept }
{
    if top == 0 { 0 } else { kept }
}

// The columns marked for their premiums are marked for their closed units too.
fn mark_units(columns: usize, tops: &[u8], units: &mut [u8])
    requires { (columns ≤ length tops.now) × (columns ≤ length units.old) }
    ensures { (length units.new ≡ length units.old) × ((c : ℕ) → c < columns → MarkedOr (get_or tops.now c 0 ≡ 0 → ⊥) units.old units.new c) }
{
    // By index: both runs go to the columns alone, which a zip says no plainer.
    for column in 0..columns {
        units[column] = unless_marked(tops[column], units[column]);
    }
}

// The highest raised premium, at least 9: below 10 the step is one L. Only the columns marked are looked at again.
pub fn top(work: &[i32], rows: usize, columns: usize, tops: &mut [u8], units: &mut [u8]) -> usize
    requires shape { Shape rows columns }
    requires has_cells { HasCells work.now (rows * columns) × TopsKnown false work.now rows columns tops.old × UnitsKnown work.now rows columns tops.old units.old }
    ensures tops_len_unchanged { (length tops.new ≡ length tops.old) × TopsKnown false work.now rows columns tops.new }
    ensures units_len_unchanged { (length units.new ≡ length units.old) × UnitsKnown work.now rows columns units.new units.new }
    ensures result_value { (g : Grid) (s : Position) (old : List ℤ) → Stands rows columns g s old work.now → (ltb result 10 ≡ for_click (choice false g s)) × (keep (candidate_at result work.now) (range 0 (rows * columns)) ≡ candidates_of (choice false g s)) }
{
    mark_units(columns, tops, units);
    let found = known::first_column(work, rows, columns, tops, false);
    found.top
}

// Whether the step may take the cell.
pub fn candidate(work: &[i32], index: usize, top: usize) -> bool
    requires { HasCell work.now index }
    ensures { result ≡ candidate_at top work.now index }
{
    if top < 10 {
        return units::unit(work, index);
    }
    area::premium(work, index) == top
}

// Whether a column is known to have no candidate: a lower premium is kept of it.
fn skipped(tops: &[u8], top: usize, column: usize) -> bool
    requires { column < length tops.now }
    ensures { result ≡ skipped_at top tops.now column }
{
    let kept = usize::from(tops[column]);
    kept > 0 && kept - 1 < top
}

// How many cells of a column the step may take: each is looked at.
fn count_cells(work: &[i32], rows: usize, columns: usize, top: usize, column: usize) -> usize
    requires shape { Shape rows columns }
    requires has_cells { HasCells work.now (rows * columns) × (column < columns) }
    ensures { (result ≡ count (candidate_at top work.now) (range (column * rows) (column * rows + rows))) × (result ≤ rows) }
{
    let mut candidates: usize = 0;
    for row in 0..rows {
        let index = area::cell(rows, columns, row, column);
        if candidate(work, index, top) {
            candidates += 1;
        }
    }
    candidates
}

// A column's closed units: the count kept, or counted again and kept.
fn units_of(work: &[i32], rows: usize, columns: usize, units: &mut [u8], column: usize) -> usize
    requires shape { Shape rows columns }
    requires has_cells { HasCells work.now (rows * columns) × (column < columns) × UnitsKnown work.now rows columns units.old units.old }
    ensures value { (result ≡ column_units work.now rows column) × (result ≤ rows) }
    ensures units_len_unchanged { (length units.new ≡ length units.old) × UnitsKnown work.now rows columns units.new units.new }
{
    let kept = usize::from(units[column]);
    if kept > 0 {
        return kept - 1;
    }
    let found = count_cells(work, rows, columns, 0, column);
    units[column] = known::kept_of(found);
    found
}

// How many cells of a column the step may take.
fn count_column(
    work: &[i32],
    rows: usize,
    columns: usize,
    tops: &[u8],
    units: &mut [u8],
    top: usize,
    column: usize,
) -> usize
    requires shape { Shape rows columns }
    requires has_cells { HasCells work.now (rows * columns) × (column < columns) × TopsKnown false work.now rows columns tops.now × UnitsKnown work.now rows columns units.old units.old }
    ensures value { (result ≡ count (candidate_at top work.now) (range (column * rows) (column * rows + rows))) × (result ≤ rows) }
    ensures units_len_unchanged { (length units.new ≡ length units.old) × UnitsKnown work.now rows columns units.new units.new }
{
    if top < 10 {
        return units_of(work, rows, columns, units, column);
    }
    if skipped(tops, top, column) {
        return 0;
    }
    count_cells(work, rows, columns, top, column)
}

// How many cells the step may take, column after column.
pub fn count(
    work: &[i32],
    rows: usize,
    columns: usize,
    tops: &[u8],
    units: &mut [u8],
    top: usize,
) -> usize
    requires shape { Shape rows columns }
    requires has_cells { HasCells work.now (rows * columns) × TopsKnown false work.now rows columns tops.now × UnitsKnown work.now rows columns units.old units.old }
    ensures value { (result ≡ count (candidate_at top work.now) (range 0 (rows * columns))) × (result ≤ rows * columns) }
    ensures units_len_unchanged { (length units.new ≡ length units.old) × UnitsKnown work.now rows columns units.new units.new }
{
    let mut candidates: usize = 0;
    for column in 0..columns {
        candidates += count_column(work, rows, columns, tops, units, top, column);
    }
    candidates
}

// The candidate at a place, if it is in the column, before which so many were passed.
fn pick_column(
    work: &[i32],
    rows: usize,
    columns: usize,
    top: usize,
    column: usize,
    before: usize,
    place: usize,
) -> usize
    requires shape { Shape rows columns }
    requires has_cells { HasCells work.now (rows * columns) × (column < columns) × (before ≤ place) × (before ≡ count (candidate_at top work.now) (range 0 (column * rows))) × (before ≤ column * rows) }
    ensures { place < count (candidate_at top work.now) (range 0 (column * rows + rows)) → result ≡ get_or (keep (candidate_at top work.now) (range 0 (rows * columns))) place 0 }
{
    let mut passed = before;
    for row in 0..rows {
        let index = area::cell(rows, columns, row, column);
        if candidate(work, index, top) {
            if passed == place {
                return index;
            }
            passed += 1;
        }
    }
    0
}

// The candidate at a place, in index order; 0 if there is none.
pub fn pick(
    work: &[i32],
    rows: usize,
    columns: usize,
    tops: &[u8],
    units: &mut [u8],
    top: usize,
    place: usize,
) -> usize
    requires shape { Shape rows columns }
    requires has_cells { HasCells work.now (rows * columns) × TopsKnown false work.now rows columns tops.now × UnitsKnown work.now rows columns units.old units.old }
    ensures value { result ≡ get_or (keep (candidate_at top work.now) (range 0 (rows * columns))) place 0 }
    ensures units_len_unchanged { (length units.new ≡ length units.old) × UnitsKnown work.now rows columns units.new units.new }
{
    let mut passed: usize = 0;
    for column in 0..columns {
        let after = passed + count_column(work, rows, columns, tops, units, top, column);
        if place < after {
            return pick_column(work, rows, columns, top, column, passed, place);
        }
        passed = after;
    }
    0
}
