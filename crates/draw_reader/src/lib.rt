// A reader that holds the lent draw bytes and its place; each draw is the covered one.
#![tactic(auto)]

ghost use Rattle.std.specs.Prelude.{◌≡◌};
ghost use Rattle.game.specs.Draws.{draw};
ghost use Rattle.draws.specs.Answers.{drawn_of, mode_of};
ghost use Rattle.draw_reader.specs.Reader.{place_after, moved_on};

use draws::{Drawn, Mode};

// The lent draw bytes, and the place of the next draw.
#[derive(Drop)]
pub struct DrawReader<'a> {
    pub bytes: &'a [u8],
    pub place: usize,
}

// A reader at a place of the bytes.
pub fn reader<'a>(bytes: &'a [u8], place: usize) -> DrawReader<'a>
    ensures { (result.bytes ≡ bytes.entry) × (result.place ≡ place) }
{
    DrawReader { bytes, place }
}

// Where the next draw reads: after this one, or where it was if the bytes are short.
pub fn place_after(drawn: Option<Drawn>, place: usize) -> usize
    ensures { result ≡ place_after (drawn_of drawn) place }
{
    drawn.map_or(place, |taken| taken.next)
}

// The reader is lent: one draw among n in a mode, and it stands at the next place.
pub fn next_draw<'s, 'a>(reader: &'s mut DrawReader<'a>, mode: Mode, n: usize) -> Option<Drawn>
    ensures { (drawn_of result ≡ draw (mode_of mode) reader.old.bytes.now reader.old.place n) × (reader.new ≡ moved_on (mode_of mode) reader.old n) }
{
    let drawn = draws::draw(reader.bytes, reader.place, mode, n);
    reader.place = place_after(drawn, reader.place);
    drawn
}

// A draw among n in a mode by a reader at a place of the bytes: whoever calls it needs no walk.
pub fn draw_from(bytes: &[u8], place: usize, mode: Mode, n: usize) -> Option<Drawn>
    ensures { drawn_of result ≡ draw (mode_of mode) bytes.now place n }
{
    let mut standing = reader(bytes, place);
    next_draw(&mut standing, mode, n)
}
