// A cell's five numbers while a call runs: first label, second label, content, state, premium raised by 10.
ghost use Rattle.std.specs.Prelude.{◌≡◌, ◌<◌};
ghost use Rattle.area.specs.Numbers.{HasCell, first_at, content_at, premium_at, put_first, put_content, put_lowered, put_premium, put_second, put_state, put_waiting, second_at, state_at, waiting_at};

use crate::numbers::{get, put};

// The first label of the cell.
pub fn first_label(work: &[i32], index: usize) -> usize
    requires { HasCell work.now index }
    ensures { (result ≡ first_at work.now index) × (result < 2147483648) }
{
    get(work, 5 * index)
}

// The second label of the cell.
pub fn second_label(work: &[i32], index: usize) -> usize
    requires { HasCell work.now index }
    ensures { (result ≡ second_at work.now index) × (result < 2147483648) }
{
    get(work, 5 * index + 1)
}

// The raised premium of the cell.
pub fn premium(work: &[i32], index: usize) -> usize
    requires { HasCell work.now index }
    ensures { (result ≡ premium_at work.now index) × (result < 2147483648) }
{
    get(work, 5 * index + 4)
}

// The state of the cell.
pub fn state(work: &[i32], index: usize) -> usize
    requires { HasCell work.now index }
    ensures { (result ≡ state_at work.now index) × (result < 2147483648) }
{
    get(work, 5 * index + 3)
}

// The content of the cell.
pub fn content(work: &[i32], index: usize) -> usize
    requires { HasCell work.now index }
    ensures { (result ≡ content_at work.now index) × (result < 2147483648) }
{
    get(work, 5 * index + 2)
}

// Puts the first label of the cell.
pub fn put_first_label(work: &mut [i32], index: usize, value: usize)
    requires { HasCell work.old index }
    ensures { work.new ≡ put_first work.old index value }
{
    put(work, 5 * index, value);
}

// Puts the second label of the cell.
pub fn put_second_label(work: &mut [i32], index: usize, value: usize)
    requires { HasCell work.old index }
    ensures { work.new ≡ put_second work.old index value }
{
    put(work, 5 * index + 1, value);
}

// Puts the raised premium of the cell.
pub fn put_premium(work: &mut [i32], index: usize, value: usize)
    requires { HasCell work.old index }
    ensures { work.new ≡ put_premium work.old index value }
{
    put(work, 5 * index + 4, value);
}

// Puts the state of the cell.
pub fn put_state(work: &mut [i32], index: usize, value: usize)
    requires { HasCell work.old index }
    ensures { work.new ≡ put_state work.old index value }
{
    put(work, 5 * index + 3, value);
}

// Puts the content of the cell.
pub fn put_content(work: &mut [i32], index: usize, value: usize)
    requires { HasCell work.old index }
    ensures { work.new ≡ put_content work.old index value }
{
    put(work, 5 * index + 2, value);
}

// Puts the premium of the cell as it is handed back, 10 less than raised, where the content stood.
pub fn put_lowered(work: &mut [i32], index: usize, raised: usize)
    requires { HasCell work.old index }
    ensures { work.new ≡ put_lowered work.old index raised }
{
    let v = (raised % 2147483648) as i32;
    work[5 * index + 2] = v - 10;
}

// The cell that waits as number `place`, while openings are labelled and there is no premium.
pub fn waiting(work: &[i32], place: usize) -> usize
    requires { HasCell work.now place }
    ensures { (result ≡ waiting_at work.now place) × (result < 2147483648) }
{
    get(work, 5 * place + 4)
}

// Puts a cell to wait as number `place`.
pub fn put_waiting(work: &mut [i32], place: usize, index: usize)
    requires { HasCell work.old place }
    ensures { work.new ≡ put_waiting work.old place index }
{
    put(work, 5 * place + 4, index);
}
