// DRAWS and the early count: lent memory filled with 0. No user calls these.
#![tactic(auto)]

ghost use Rattle.std.specs.Prelude.{◌≤◌, pos, length};
ghost use Rattle.clears.specs.Clearing.{Cleared};

// The first numbers of a work area become 0.
pub fn clear_area(work: &mut [i32], numbers: usize)
    requires { numbers ≤ length work.old }
    ensures { Cleared (pos 0) numbers work.old work.new }
{
    work[..numbers].fill(0);
}

// The first words of a list become 0.
pub fn clear_list(list: &mut [u32], words: usize)
    requires { words ≤ length list.old }
    ensures { Cleared 0 words list.old list.new }
{
    list[..words].fill(0);
}
