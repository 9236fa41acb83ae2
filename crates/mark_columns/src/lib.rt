// Columns marked: one, those near a column, those from a column on that have one of two labels. A mark is a byte of 0.
#![tactic(auto)]

ghost use Rattle.std.specs.Prelude.{◌≡◌, ℕ, ◌+◌, ◌*◌, ◌<◌, ◌≤◌, length};
ghost use Rattle.area.specs.Numbers.{HasCells};
ghost use Rattle.area.specs.Stages.{Shape};
ghost use Rattle.mark_columns.specs.Columns.{Far, MarkedOr, Parted};

use mark_tests::has_label;

// Marks the columns up to two from a column.
pub fn mark_near(tops: &mut [u8], column: usize)
    ensures { (length tops.new ≡ length tops.old) × ((c : ℕ) → MarkedOr (Far c column) tops.old tops.new c) }
{
    let last = column.saturating_add(3).min(tops.len());
    let first = column.saturating_sub(2).min(last);
    tops[first..last].fill(0);
}

// Marks one column.
pub fn mark_one(tops: &mut [u8], column: usize)
    ensures { (length tops.new ≡ length tops.old) × ((c : ℕ) → MarkedOr (c ≡ column → ⊥) tops.old tops.new c) }
{
    if column < tops.len() {
        tops[column] = 0;
    }
}

// Marks the columns before a column, from there to the left until one has no cell with one of two labels.
pub fn mark_left(
    work: &[i32],
    rows: usize,
    columns: usize,
    tops: &mut [u8],
    column: usize,
    first: usize,
    second: usize,
)
    requires shape { Shape rows columns }
    requires has_cells { HasCells work.now (rows * columns) × (column ≤ columns) }
    ensures { (length tops.new ≡ length tops.old)
        × ((c : ℕ) → MarkedOr (c < column → Parted work.now rows first second c column) tops.old tops.new c) }
{
    for left in (0..column).rev() {
        if !has_label(work, rows, columns, left, first, second) {
            return;
        }
        mark_one(tops, left);
    }
}

// Not one function with mark_left: both are one loop, and they differ in its order and in what each promises.
// Marks the columns from a column on to the right until one has no cell with one of two labels.
pub fn mark_right(
    work: &[i32],
    rows: usize,
    columns: usize,
    tops: &mut [u8],
    column: usize,
    first: usize,
    second: usize,
)
    requires shape { Shape rows columns }
    requires has_cells { HasCells work.now (rows * columns) }
    ensures { (length tops.new ≡ length tops.old)
        × ((c : ℕ) → MarkedOr (column ≤ c → c < columns → Parted work.now rows first second column c) tops.old tops.new c) }
{
    for right in column..columns {
        if !has_label(work, rows, columns, right, first, second) {
            return;
        }
        mark_one(tops, right);
    }
}
