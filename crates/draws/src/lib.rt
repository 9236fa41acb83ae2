// One draw among n from lent bytes, at a place, in the old mode or the fair one.
#![tactic(auto)]

ghost use Rattle.std.specs.Prelude.{◌≡◌, ◌*◌, ◌+◌, ◌<◌, ◌≤◌, length};
ghost use Rattle.game.specs.Draws as Game;
ghost use Rattle.game.specs.Draws.{draw, first_taken, four_bytes};
ghost use Rattle.draws.specs.Answers.{Bounds, drawn_of, mode_of};

// The modes of a draw: the old one takes every word, the fair one spends some, so that the places have even chances.
#[derive(Clone, Copy)]
pub enum Mode {
    Old,
    Fair,
}

// The place that is taken and where the next draw reads on.
#[derive(Clone, Copy, PartialEq, Eq, Debug)]
pub struct Drawn {
    pub place: usize,
    pub next: usize,
}

// Four bytes, low byte first.
pub fn four(bytes: &[u8], at: usize) -> usize
    requires { at + 4 ≤ length bytes.now }
    ensures { (result ≡ four_bytes bytes.now at) × (result < 4294967296) }
{
    u32::from_le_bytes([bytes[at], bytes[at + 1], bytes[at + 2], bytes[at + 3]]) as usize
}

// Words below the bound are taken among n: in the old mode each is, in the fair mode as many as there are for each place.
pub fn bound(mode: Mode, n: usize) -> usize
    requires { 1 ≤ n }
    ensures { Bounds (mode_of mode) n result }
{
    match mode {
        Mode::Old => 4294967296,
        Mode::Fair => 4294967296 - 4294967296 % n,
    }
}

// The first of so many words, from a place on, that is below the bound: its place among n.
fn first_taken(bytes: &[u8], at: usize, words: usize, bound: usize, n: usize) -> Option<Drawn>
    requires { (at + 4 * words ≤ length bytes.now) × (1 ≤ n) }
    ensures { (mode : Game.Mode) → Bounds mode n bound → drawn_of result ≡ first_taken (four_bytes bytes.now) mode n words at }
{
    for k in 0..words {
        let place = at + 4 * k;
        let word = four(bytes, place);
        if word < bound {
            return Some(Drawn {
                place: word % n,
                next: place + 4,
            });
        }
    }
    None
}

// A draw among n: one candidate uses no bytes, more use four for the word taken and for each that was spent before it.
pub fn draw(bytes: &[u8], at: usize, mode: Mode, n: usize) -> Option<Drawn>
    ensures { drawn_of result ≡ draw (mode_of mode) bytes.now at n }
{
    if n <= 1 {
        return Some(Drawn { place: 0, next: at });
    }
    let len = bytes.len();
    if len < at {
        return None;
    }
    first_taken(bytes, at, (len - at) / 4, bound(mode, n), n)
}
