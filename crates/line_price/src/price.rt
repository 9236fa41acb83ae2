// One line priced.
ghost use Rattle.std.specs.Prelude.{◌≡◌, length};
ghost use Rattle.std.proofs.Math.Option.{none};
ghost use Rattle.game.specs.Openings.{three_bv};
ghost use Rattle.game.specs.Rounds.{moves_of, round_steps};
ghost use Rattle.area.specs.Numbers.{grid_of};
ghost use Rattle.lines.specs.PriceLine.{figures, held_price};
ghost use Rattle.line_price.specs.Taken.{Taken};
ghost use Rattle.line_price.specs.Prices.{price_of, price_or};

use lines::board::Board;
use lines::price::Price;
use refusals::Refusal;

// 3BV of a board that was taken, which is never refused.
fn units(rows: usize, columns: usize, grid: &[i32]) -> usize
    requires { Taken rows columns grid.now }
    ensures { result ≡ three_bv (grid_of rows columns grid.now) }
{
    let mut work = [0i32; 10240];
    zini::count::three_bv(rows, columns, grid, &mut work).unwrap_or(0)
}

// Greedy or openings-first clicks of a board that was taken, which is never refused.
fn clicks(rows: usize, columns: usize, grid: &[i32], openings_first: bool) -> usize
    requires { Taken rows columns grid.now }
    ensures { result ≡ length (moves_of (round_steps openings_first (grid_of rows columns grid.now))) }
{
    let mut work = [0i32; 10240];
    let mut list = [0u32; 2048];
    zini::prices::price(rows, columns, grid, &mut work, &mut list, openings_first).unwrap_or(0)
}

// The price of a board that was taken.
fn priced(rows: usize, columns: usize, grid: &[i32]) -> Price
    requires { Taken rows columns grid.now }
    ensures { figures 0 result ≡ price_or none (grid_of rows columns grid.now) }
{
    let units = units(rows, columns, grid);
    let greedy = clicks(rows, columns, grid, false);
    let openings_first = clicks(rows, columns, grid, true);
    Price {
        units,
        greedy,
        openings_first,
    }
}

// What a line is priced at.
pub fn price_line(line: &[u8]) -> Result<Price, Refusal>
    ensures { held_price result ≡ price_of line.now }
{
    let mut grid = [0i32; 2048];
    let Board { rows, columns } = lines::board::read_board(line, &mut grid)?;
    let cells = rows * columns;
    Ok(priced(rows, columns, &grid[..cells]))
}
