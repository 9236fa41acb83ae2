// The random calls with a reader of draw bytes, as they are and in the strict form: they read on from its place, and it then stands where the bytes used say.
#![tactic(auto)]

ghost use Rattle.std.specs.Prelude.{◌≡◌, ◌<◌, ◌^◌, drop};
ghost use Rattle.game.specs.Calls.{kept, kept_listed, random_round_call, random_search_call, strict_random_round_call, strict_random_search_call};
ghost use Rattle.draws.specs.Answers.{mode_of};
ghost use Rattle.area.specs.Numbers.{grid_of};
ghost use Rattle.answers.specs.Answers.{Keeps, KeepsList, rolled_answer};
ghost use Rattle.number_check.specs.Forms.{in_form};
ghost use Rattle.reader_calls.specs.Stands.{Starts, stands_at, read_on};

use answers::Roll;
use draw_reader::DrawReader;
use draws::Mode;
use refusals::Refusal;

// Where in the bytes a place is; a place past the end is the end.
fn start_at(place: usize, length: usize) -> usize
    ensures { Starts place length result }
{
    place.min(length)
}

// A single random round by the bytes from a place on.
pub fn round_from(
    rows: usize,
    columns: usize,
    grid: &[i32],
    work: &mut [i32],
    list: &mut [u32],
    bytes: &[u8],
    place: usize,
    mode: Mode,
) -> Result<Roll, Refusal>
    ensures { KeepsList (random_round_call (mode_of mode) (grid_of rows columns grid.now) work.old list.old (drop place bytes.now)) (rolled_answer result) work.new list.new × (stands_at result place < 2 ^ 64) }
{
    let start = start_at(place, bytes.len());
    zini::random_calls::random_round(rows, columns, grid, work, list, &bytes[start..], mode)
}

// Random search by the bytes from a place on.
pub fn search_from(
    rows: usize,
    columns: usize,
    grid: &[i32],
    work: &mut [i32],
    bytes: &[u8],
    place: usize,
    mode: Mode,
    rounds: usize,
) -> Result<Roll, Refusal>
    ensures { Keeps (random_search_call (mode_of mode) (grid_of rows columns grid.now) work.old (drop place bytes.now) rounds) (rolled_answer result) work.new × (stands_at result place < 2 ^ 64) }
{
    let start = start_at(place, bytes.len());
    zini::random_calls::random_search(rows, columns, grid, work, &bytes[start..], mode, rounds)
}

// A single random round by the bytes from a place on, in the strict form or as it is.
pub(crate) fn round_in_form(
    rows: usize,
    columns: usize,
    grid: &[i32],
    work: &mut [i32],
    list: &mut [u32],
    bytes: &[u8],
    place: usize,
    mode: Mode,
    strict: bool,
) -> Result<Roll, Refusal>
    ensures { KeepsList (in_form «strict» (kept_listed work.old list.old) (grid_of rows columns grid.now) (random_round_call (mode_of mode) (grid_of rows columns grid.now) work.old list.old (drop place bytes.now))) (rolled_answer result) work.new list.new × (stands_at result place < 2 ^ 64) }
{
    number_check::check_form(rows, columns, grid, strict)?;
    round_from(rows, columns, grid, work, list, bytes, place, mode)
}

// Random search by the bytes from a place on, in the strict form or as it is.
pub(crate) fn search_in_form(
    rows: usize,
    columns: usize,
    grid: &[i32],
    work: &mut [i32],
    bytes: &[u8],
    place: usize,
    mode: Mode,
    rounds: usize,
    strict: bool,
) -> Result<Roll, Refusal>
    ensures { Keeps (in_form «strict» (kept work.old) (grid_of rows columns grid.now) (random_search_call (mode_of mode) (grid_of rows columns grid.now) work.old (drop place bytes.now) rounds)) (rolled_answer result) work.new × (stands_at result place < 2 ^ 64) }
{
    number_check::check_form(rows, columns, grid, strict)?;
    search_from(rows, columns, grid, work, bytes, place, mode, rounds)
}

// A single random round in the strict form, by the bytes from a place on.
pub fn strict_round_from(
    rows: usize,
    columns: usize,
    grid: &[i32],
    work: &mut [i32],
    list: &mut [u32],
    bytes: &[u8],
    place: usize,
    mode: Mode,
) -> Result<Roll, Refusal>
    ensures { KeepsList (strict_random_round_call (mode_of mode) (grid_of rows columns grid.now) work.old list.old (drop place bytes.now)) (rolled_answer result) work.new list.new × (stands_at result place < 2 ^ 64) }
{
    round_in_form(rows, columns, grid, work, list, bytes, place, mode, true)
}

// Random search in the strict form, by the bytes from a place on.
pub fn strict_search_from(
    rows: usize,
    columns: usize,
    grid: &[i32],
    work: &mut [i32],
    bytes: &[u8],
    place: usize,
    mode: Mode,
    rounds: usize,
) -> Result<Roll, Refusal>
    ensures { Keeps (strict_random_search_call (mode_of mode) (grid_of rows columns grid.now) work.old (drop place bytes.now) rounds) (rolled_answer result) work.new × (stands_at result place < 2 ^ 64) }
{
    search_in_form(rows, columns, grid, work, bytes, place, mode, rounds, true)
}

// Where a reader stands after a random call: on by the bytes used, or where it was after a refusal.
pub(crate) fn place_after(rolled: Result<Roll, Refusal>, place: usize) -> usize
    requires { stands_at rolled place < 2 ^ 64 }
    ensures { result ≡ stands_at rolled place }
{
    match rolled {
        Ok(roll) => place + roll.used,
        Err(_) => place,
    }
}

// A single random round by a reader, in the strict form or as it is.
fn round_by<'g, 'w, 'l, 's, 'a>(
    rows: usize,
    columns: usize,
    grid: &'g [i32],
    work: &'w mut [i32],
    list: &'l mut [u32],
    reader: &'s mut DrawReader<'a>,
    mode: Mode,
    strict: bool,
) -> Result<Roll, Refusal>
    ensures { KeepsList (in_form «strict» (kept_listed work.old list.old) (grid_of rows columns grid.now) (random_round_call (mode_of mode) (grid_of rows columns grid.now) work.old list.old (drop reader.old.place reader.old.bytes.now))) (rolled_answer result) work.new list.new × (reader.new ≡ read_on reader.old result) }
{
    let bytes = reader.bytes;
    let place = reader.place;
    let rolled = round_in_form(rows, columns, grid, work, list, bytes, place, mode, strict);
    reader.place = place_after(rolled, place);
    rolled
}

// Random search by a reader, in the strict form or as it is.
fn search_by<'g, 'w, 's, 'a>(
    rows: usize,
    columns: usize,
    grid: &'g [i32],
    work: &'w mut [i32],
    reader: &'s mut DrawReader<'a>,
    mode: Mode,
    rounds: usize,
    strict: bool,
) -> Result<Roll, Refusal>
    ensures { Keeps (in_form «strict» (kept work.old) (grid_of rows columns grid.now) (random_search_call (mode_of mode) (grid_of rows columns grid.now) work.old (drop reader.old.place reader.old.bytes.now) rounds)) (rolled_answer result) work.new × (reader.new ≡ read_on reader.old result) }
{
    let bytes = reader.bytes;
    let place = reader.place;
    let rolled = search_in_form(
        rows, columns, grid, work, bytes, place, mode, rounds, strict,
    );
    reader.place = place_after(rolled, place);
    rolled
}

// A single random round by a reader: its clicks, its moves in the list, and the draw bytes used.
pub fn random_round<'g, 'w, 'l, 's, 'a>(
    rows: usize,
    columns: usize,
    grid: &'g [i32],
    work: &'w mut [i32],
    list: &'l mut [u32],
    reader: &'s mut DrawReader<'a>,
    mode: Mode,
) -> Result<Roll, Refusal>
    ensures { KeepsList (random_round_call (mode_of mode) (grid_of rows columns grid.now) work.old list.old (drop reader.old.place reader.old.bytes.now)) (rolled_answer result) work.new list.new × (reader.new ≡ read_on reader.old result) }
{
    round_by(rows, columns, grid, work, list, reader, mode, false)
}

// A single random round in the strict form, by a reader, which a refusal leaves at its place.
pub fn strict_random_round<'g, 'w, 'l, 's, 'a>(
    rows: usize,
    columns: usize,
    grid: &'g [i32],
    work: &'w mut [i32],
    list: &'l mut [u32],
    reader: &'s mut DrawReader<'a>,
    mode: Mode,
) -> Result<Roll, Refusal>
    ensures { KeepsList (strict_random_round_call (mode_of mode) (grid_of rows columns grid.now) work.old list.old (drop reader.old.place reader.old.bytes.now)) (rolled_answer result) work.new list.new × (reader.new ≡ read_on reader.old result) }
{
    round_by(rows, columns, grid, work, list, reader, mode, true)
}

// Random search by a reader: the least clicks, and the draw bytes used.
pub fn random_search<'g, 'w, 's, 'a>(
    rows: usize,
    columns: usize,
    grid: &'g [i32],
    work: &'w mut [i32],
    reader: &'s mut DrawReader<'a>,
    mode: Mode,
    rounds: usize,
) -> Result<Roll, Refusal>
    ensures { Keeps (random_search_call (mode_of mode) (grid_of rows columns grid.now) work.old (drop reader.old.place reader.old.bytes.now) rounds) (rolled_answer result) work.new × (reader.new ≡ read_on reader.old result) }
{
    search_by(rows, columns, grid, work, reader, mode, rounds, false)
}

// Random search in the strict form, by a reader, which a refusal leaves at its place.
pub fn strict_random_search<'g, 'w, 's, 'a>(
    rows: usize,
    columns: usize,
    grid: &'g [i32],
    work: &'w mut [i32],
    reader: &'s mut DrawReader<'a>,
    mode: Mode,
    rounds: usize,
) -> Result<Roll, Refusal>
    ensures { Keeps (strict_random_search_call (mode_of mode) (grid_of rows columns grid.now) work.old (drop reader.old.place reader.old.bytes.now) rounds) (rolled_answer result) work.new × (reader.new ≡ read_on reader.old result) }
{
    search_by(rows, columns, grid, work, reader, mode, rounds, true)
}
