// The work area as a call hands it back: the lowered premium in place of the content, and 0 for the raised one.
ghost use Rattle.std.specs.Prelude.{◌≡◌};
ghost use Rattle.game.specs.Lists.{range, fold};
ghost use Rattle.area.specs.Numbers.{HasCell, HasCells};
ghost use Rattle.start.specs.Passes.{lower_premium, settle_cell};

// The lowered premium of a cell that is no mine takes the content's place; a mine's content is 0, as its premium is.
pub fn lower_premium(work: &mut [i32], index: usize)
    requires { HasCell work.old index }
    ensures { work.new ≡ lower_premium work.old index }
{
    if area::content(work, index) != 0 {
        let premium = area::premium(work, index);
        area::put_lowered(work, index, premium);
    }
}

// Each cell's numbers as they are handed back.
pub fn settle_cells(work: &mut [i32], cells: usize)
    requires { HasCells work.old cells }
    ensures { work.new ≡ fold settle_cell work.old (range 0 cells) }
{
    for index in 0..cells {
        lower_premium(work, index);
        area::put_premium(work, index, 0);
    }
}
