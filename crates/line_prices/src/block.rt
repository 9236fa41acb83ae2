// A block of input answered: its lines priced as they end, and the line that goes on kept.
ghost use Rattle.std.specs.Prelude.{◌≡◌, length};
ghost use Rattle.line_prices.specs.Blocks.{block_call, end_call};
ghost use Rattle.line_prices.specs.Bytes.{Room, block_read, byte_read, desk_at, desk_of};
ghost use Rattle.line_prices.specs.Answers.{KeepsDesk, answered_answer};

use refusals::Refusal;

// How much is kept of the line that goes on, and how much is to be printed.
#[derive(Clone, Copy, Debug, PartialEq, Eq)]
pub struct Place {
    pub count: usize,
    pub written: usize,
}

// A line that ended is answered: its fifteen bytes are put after those that stand.
fn end_line(held: &[u8], out: &mut [u8], place: Place) -> Place
    requires { Room (desk_at held.now place out.old) 1 }
    ensures { desk_at held.now result out.new ≡ byte_read (desk_at held.now place out.old) 10 }
{
    let count = place.count;
    let written = place.written;
    let price = line_price::price::price_line(&held[..count]);
    lines::price::put_priced(out, written, price);
    out[written + 14] = 10;
    Place {
        count: 0,
        written: written + 15,
    }
}

// One byte is read.
fn read_byte(byte: u8, held: &mut [u8], out: &mut [u8], place: Place) -> Place
    requires { Room (desk_at held.old place out.old) 1 }
    ensures { desk_at held.new result out.new ≡ byte_read (desk_at held.old place out.old) byte }
{
    if hex_digits::is_end(byte) {
        return end_line(held, out, place);
    }
    let count = place.count;
    let written = place.written;
    if 517 <= count {
        return place;
    }
    held[count] = byte;
    Place {
        count: count + 1,
        written,
    }
}

// A block whose room has been checked is read, byte by byte.
fn read_block(block: &[u8], held: &mut [u8], count: usize, out: &mut [u8]) -> Place
    requires { Room (desk_of held.old count out.old) (length block.now) }
    ensures { desk_at held.new result out.new ≡ block_read (desk_of held.old count out.old) block.now }
{
    let mut place = Place { count, written: 0 };
    for byte in block {
        place = read_byte(*byte, held, out, place);
    }
    place
}

// A block of input: the lines that end in it are answered, and what goes on is kept.
pub fn answer_block(
    block: &[u8],
    held: &mut [u8],
    count: usize,
    out: &mut [u8],
) -> Result<Place, Refusal>
    ensures { KeepsDesk (block_call block.now held.old count out.old) (answered_answer result) held.new out.new }
{
    if held.len() < 517 {
        return Err(Refusal::Work);
    }
    if 517 < count {
        return Err(Refusal::Work);
    }
    if out.len() / 15 < block.len() {
        return Err(Refusal::Trace);
    }
    Ok(read_block(block, held, count, out))
}

// The end of input: a line that goes on is answered as if its line feed were there.
pub fn answer_end(held: &[u8], count: usize, out: &mut [u8]) -> Result<Place, Refusal>
    ensures { KeepsDesk (end_call held.now count out.old) (answered_answer result) held.now out.new }
{
    if held.len() < 517 {
        return Err(Refusal::Work);
    }
    if 517 < count {
        return Err(Refusal::Work);
    }
    if out.len() < 15 {
        return Err(Refusal::Trace);
    }
    if count == 0 {
        return Ok(Place {
            count: 0,
            written: 0,
        });
    }
    Ok(end_line(held, out, Place { count, written: 0 }))
}
