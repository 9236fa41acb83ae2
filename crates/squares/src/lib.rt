// The cells of a square, one after the other, as an iterator.
#![tactic(auto)]

ghost use Rattle.std.specs.Prelude.{◌≡◌, ◌*◌, ◌<◌, List, ℕ};
ghost use Rattle.std.specs.Iterator.{YieldsFirst, item_count};
ghost use Rattle.area.specs.Squares.{square_of};
ghost use Rattle.area.specs.Stages.{Shape};
ghost use Rattle.squares.specs.Left.{OnGrid, cells_left};

use std::marker::Model;

// The cells of a square that are left: in the row `row` those in the columns from `column` on, then those of the rows below it.
#[derive(Drop)]
pub struct Square {
    rows: usize,
    row: usize,
    last: usize,
    column: usize,
    from: usize,
    to: usize,
}

impl Model for Square {
    ghost Value = { List ℕ };

    ghost view = { λ s. cells_left s.rows s.row s.last s.column s.from s.to };

    ghost invariant = { λ s. OnGrid s.rows s.row s.last s.column s.from s.to };
}

impl Square {
    // The cells of a cell's square, row after row.
    pub fn around(rows: usize, columns: usize, index: usize) -> Square
        requires shape { Shape rows columns }
        requires index_bound { index < rows * columns }
        ensures { result ≡ square_of rows columns index }
    {
        let row = index % rows;
        let column = index / rows;
        let from = column.saturating_sub(1);
        Square {
            rows,
            row: row.saturating_sub(1),
            last: (row + 2).min(rows),
            column: from,
            from,
            to: (column + 2).min(columns),
        }
    }
}

impl Iterator for Square {
    type Item = usize;

    ghost next_gives = { YieldsFirst (λ cells. cells) };

    ghost remaining = { item_count (λ cells. cells) };

    fn next(&mut self) -> Option<usize> {
        if self.column == self.to {
            if self.row + 1 == self.last {
                return None;
            }
            self.row += 1;
            self.column = self.from;
        }
        let index = self.column * self.rows + self.row;
        self.column += 1;
        Some(index)
    }
}
