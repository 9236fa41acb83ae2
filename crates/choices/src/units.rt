// The lowest closed 0-cell or unlabelled safe cell.
ghost use Rattle.std.specs.Prelude.{◌≡◌, List, ◌+◌, ◌*◌, ◌<◌, ◌≤◌, ℤ};
ghost use Rattle.area.specs.Numbers.{HasCell, HasCells};
ghost use Rattle.game.specs.Grid.{Grid};
ghost use Rattle.game.specs.Position.{Position};
ghost use Rattle.game.specs.Rounds.{unit_cells};
ghost use Rattle.area.specs.Stages.{Shape, Stands};
ghost use Rattle.choices.specs.Tests.{NoUnitBelow, unit_at};
ghost use Rattle.choices.specs.Picks.{found_column, found_first};

use crate::Lowest;

// Whether there is a closed safe cell of number 0 or without label.
pub fn unit(work: &[i32], index: usize) -> bool
    requires { HasCell work.now index }
    ensures { result ≡ unit_at work.now index }
{
    if area::state(work, index) != 0 {
        return false;
    }
    match area::content(work, index) {
        0 => false,
        1 => true,
        _ => area::first_label(work, index) == 0,
    }
}

// The lowest of them, where there is none in the columns before from: the search leaves both loops at the first that qualifies.
pub fn lowest(work: &[i32], rows: usize, columns: usize, from: usize) -> Lowest
    requires shape { Shape rows columns }
    requires has_cells { HasCells work.now (rows * columns) × (from ≤ columns) × NoUnitBelow work.now (from * rows) }
    ensures { (g : Grid) (s : Position) (old : List ℤ) → Stands rows columns g s old work.now
        → (result.found ≡ found_first (unit_cells g s)) × (result.column ≡ found_column g result.found) }
{
    let mut lowest = Lowest {
        found: None,
        column: columns,
    };
    'grid: for column in from..columns {
        for row in 0..rows {
            let index = column * rows + row;
            if unit(work, index) {
                lowest = Lowest {
                    found: Some(index),
                    column,
                };
                break 'grid;
            }
        }
    }
    lowest
}
