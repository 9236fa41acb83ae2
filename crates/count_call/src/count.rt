// The 3BV count, and whether it is at least so many units.
ghost use Rattle.game.specs.Calls.{at_least_call, three_bv_call};
ghost use Rattle.area.specs.Numbers.{grid_of};
ghost use Rattle.answers.specs.Answers.{Keeps, counted_answer, judged_answer};

use refusals::Refusal;

// 3BV of a grid; the work area is left at the position before any move.
pub fn three_bv(
    rows: usize,
    columns: usize,
    grid: &[i32],
    work: &mut [i32],
) -> Result<usize, Refusal>
    ensures { Keeps (three_bv_call (grid_of rows columns grid.now) work.old) (counted_answer result) work.new }
{
    checks::check(rows, columns, grid, work)?;
    let units = start::begin::set_up(grid, rows, columns, work);
    start::begin::settle(work, rows * columns);
    Ok(units)
}

// Whether 3BV of a grid is at least so many units, counted until that is certain; the work area's numbers become 0.
pub fn at_least(
    rows: usize,
    columns: usize,
    grid: &[i32],
    work: &mut [i32],
    units: usize,
) -> Result<bool, Refusal>
    ensures { Keeps (at_least_call (grid_of rows columns grid.now) work.old units) (judged_answer result) work.new }
{
    checks::check(rows, columns, grid, work)?;
    let stop = early::walks::count_until(grid, rows, columns, work, units);
    clears::clear_area(work, 5 * (rows * columns));
    Ok(stop.lacking == 0)
}
