// Replay of a stored move list.
ghost use Rattle.std.specs.Prelude.{◌≡◌, ◌*◌, ◌≤◌, length};
ghost use Rattle.game.specs.Calls.{replay_call, replayed_list};
ghost use Rattle.area.specs.Numbers.{HasCells, grid_of};
ghost use Rattle.area.specs.Stages.{Shape};
ghost use Rattle.answers.specs.Answers.{Keeps, replayed_answer};
ghost use Rattle.replay_call.specs.Answered.{answered};

use answers::{Played, Unplayed};
use refusals::Refusal;
use replay::{Stopped, Whole};

// What a replay came to.
fn replay_answer(count: usize, played: Result<Whole, Stopped>) -> Result<Played, Unplayed>
    ensures { result ≡ answered count played }
{
    match played {
        Ok(whole) => Ok(Played {
            made: count,
            closed: whole.closed,
            ending: whole.ending,
        }),
        Err(stopped) => Err(Unplayed::Move(stopped.place)),
    }
}

// A replay whose input has been checked.
fn replay_checked(
    rows: usize,
    columns: usize,
    grid: &[i32],
    work: &mut [i32],
    list: &[u32],
    count: usize,
) -> Result<Played, Unplayed>
    requires shape { Shape rows columns }
    requires grid_len { (length grid.now ≡ rows * columns) × HasCells work.old (rows * columns) × (count ≤ length list.now) }
    ensures { Keeps (replayed_list (grid_of rows columns grid.now) work.old list.now count) (replayed_answer result) work.new }
{
    let safe = start::begin::set_out(grid, rows, columns, work);
    let played = replay::run(work, rows, columns, list, count, safe);
    late_premiums::lay(work, rows, columns);
    start::begin::settle(work, rows * columns);
    replay_answer(count, played)
}

// The first moves of a list are played on a board: how many were made, the safe cells still closed, and the ending.
pub fn replay(
    rows: usize,
    columns: usize,
    grid: &[i32],
    work: &mut [i32],
    list: &[u32],
    count: usize,
) -> Result<Played, Unplayed>
    ensures { Keeps (replay_call (grid_of rows columns grid.now) work.old list.now count) (replayed_answer result) work.new }
{
    checks::check_more(rows, columns, grid, work, list.len(), count, Refusal::Trace)?;
    replay_checked(rows, columns, grid, work, list, count)
}
