// Greedy and openings-first rounds: clicks, and the moves listed.
ghost use Rattle.std.specs.Prelude.{◌≡◌, [], ◌∷◌, ◌*◌, ◌≤◌, length};
ghost use Rattle.game.specs.Calls.{gives, greedy_call, openings_first_call, price_call, priced_round};
ghost use Rattle.area.specs.Numbers.{HasCells, grid_of};
ghost use Rattle.area.specs.Stages.{Shape};
ghost use Rattle.answers.specs.Answers.{KeepsList, counted_answer};

use refusals::Refusal;

// A round whose input has been checked. Answers its clicks.
fn price_checked(
    rows: usize,
    columns: usize,
    grid: &[i32],
    work: &mut [i32],
    list: &mut [u32],
    openings_first: bool,
) -> usize
    requires shape { Shape rows columns }
    requires grid_len { (length grid.now ≡ rows * columns) × HasCells work.old (rows * columns) × (rows * columns ≤ length list.old) }
    ensures { KeepsList (priced_round openings_first (grid_of rows columns grid.now) work.old list.old) (gives (result ∷ [])) work.new list.new }
{
    let units = start::begin::set_up(grid, rows, columns, work);
    let clicks = rounds::whole::round(work, rows, columns, list, units, openings_first);
    start::begin::settle(work, rows * columns);
    clicks
}

// Greedy ZiNi, or openings-first: its clicks, and its moves in the list.
pub fn price(
    rows: usize,
    columns: usize,
    grid: &[i32],
    work: &mut [i32],
    list: &mut [u32],
    openings_first: bool,
) -> Result<usize, Refusal>
    ensures { KeepsList (price_call openings_first (grid_of rows columns grid.now) work.old list.old) (counted_answer result) work.new list.new }
{
    checks::check_room(rows, columns, grid, work, list.len())?;
    Ok(price_checked(rows, columns, grid, work, list, openings_first))
}

// Greedy ZiNi: its clicks, and its moves in the list.
pub fn greedy(
    rows: usize,
    columns: usize,
    grid: &[i32],
    work: &mut [i32],
    list: &mut [u32],
) -> Result<usize, Refusal>
    ensures { KeepsList (greedy_call (grid_of rows columns grid.now) work.old list.old) (counted_answer result) work.new list.new }
{
    price(rows, columns, grid, work, list, false)
}

// Openings-first ZiNi: its clicks, and its moves in the list.
pub fn openings_first(
    rows: usize,
    columns: usize,
    grid: &[i32],
    work: &mut [i32],
    list: &mut [u32],
) -> Result<usize, Refusal>
    ensures { KeepsList (openings_first_call (grid_of rows columns grid.now) work.old list.old) (counted_answer result) work.new list.new }
{
    price(rows, columns, grid, work, list, true)
}
