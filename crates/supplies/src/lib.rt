// What draws come from: lent bytes from a place on, or the words of a key; a draw from either.
#![tactic(auto)]

ghost use Rattle.std.specs.Prelude.{◌≡◌, None, Some, ℕ, ◌+◌, ◌/◌, ◌^◌, ◌≤◌};
ghost use Rattle.game.specs.Draws as Game;
ghost use Rattle.game.specs.Draws.{first_taken, lent};
ghost use Rattle.game.specs.Keys as Keys;
ghost use Rattle.game.specs.Keys.{key_word, keyed};
ghost use Rattle.draws.specs.Answers.{Bounds, mode_of};
ghost use Rattle.keys.specs.Stands.{key_of};
ghost use Rattle.supplies.specs.Origins.{Dealing, DrawGrows, KeyRoom, Origin, Reads, bytes_lent, key_given, source_of};

use draws::Mode;
use keys::Key;

// The bytes used so far (four for each word of a key), and the key after those, if draws come from a key.
#[derive(Clone, Copy, PartialEq, Eq, Debug)]
pub struct Supply {
    pub used: usize,
    pub key: Option<Key>,
}

// What a draw deals: the place that is taken and the supply after it.
#[derive(Clone, Copy, PartialEq, Eq, Debug)]
pub struct Dealt {
    pub place: usize,
    pub supply: Supply,
}

// The lent bytes, from their beginning on; there is no key.
pub fn of_bytes() -> Supply
    ensures { Reads bytes_lent 0 result }
{
    Supply { used: 0, key: None }
}

// A key's words, from the first on.
pub fn of_key(key: Key) -> Supply
    ensures { Reads (key_given (key_of key)) 0 result }
{
    Supply {
        used: 0,
        key: Some(key),
    }
}

// The first of 64 words of a key that is below the bound: its place among n.
fn first_of_key(key: Key, used: usize, bound: usize, n: usize) -> Option<Dealt>
    requires { (used + 256 ≤ 2 ^ 60) × (1 ≤ n) }
    ensures draw_grows { DrawGrows (record { used = used; key = Some key }) result }
    ensures dealing { (k : Keys.Key) (at : ℕ) (mode : Game.Mode) → Reads (key_given k) at (record { used = used; key = Some key }) → Bounds mode n bound
        → Dealing (key_given k) (first_taken (λ a. key_word k (a / 4)) mode n 64 at) result }
{
    let mut last = key;
    for turn in 0..64 {
        last = keys::next_key(last);
        let word = keys::given_by(last);
        if word < bound {
            return Some(Dealt {
                place: word % n,
                supply: Supply {
                    used: used + 4 * (turn + 1),
                    key: Some(last),
                },
            });
        }
    }
    None
}

// A draw among n from a key: one candidate uses no word, more use the word taken and each that was spent before it.
fn draw_of_key(key: Key, used: usize, mode: Mode, n: usize) -> Option<Dealt>
    requires { used + 256 ≤ 2 ^ 60 }
    ensures draw_grows { DrawGrows (record { used = used; key = Some key }) result }
    ensures dealing { (k : Keys.Key) (at : ℕ) → Reads (key_given k) at (record { used = used; key = Some key }) → Dealing (key_given k) (keyed (mode_of mode) k at n) result }
{
    if n <= 1 {
        return Some(Dealt {
            place: 0,
            supply: Supply {
                used,
                key: Some(key),
            },
        });
    }
    first_of_key(key, used, draws::bound(mode, n), n)
}

// A draw among n from lent bytes, from a place on.
fn draw_of_bytes(draws: &[u8], used: usize, mode: Mode, n: usize) -> Option<Dealt>
    ensures draw_grows { DrawGrows (record { used = used; key = None }) result }
    ensures by_index { (at : ℕ) → Reads bytes_lent at (record { used = used; key = None }) → Dealing bytes_lent (lent (mode_of mode) draws.now at n) result }
{
    let drawn = draw_reader::draw_from(draws, used, mode, n)?;
    Some(Dealt {
        place: drawn.place,
        supply: Supply {
            used: drawn.next,
            key: None,
        },
    })
}

// A draw among n in a mode, from whatever the supply draws from.
pub fn draw(draws: &[u8], mode: Mode, supply: Supply, n: usize) -> Option<Dealt>
    requires { KeyRoom 256 supply }
    ensures draw_grows { DrawGrows supply result }
    ensures dealing { (origin : Origin) (at : ℕ) → Reads origin at supply → Dealing origin (source_of (mode_of mode) draws.now origin at n) result }
{
    match supply.key {
        Some(key) => draw_of_key(key, supply.used, mode, n),
        None => draw_of_bytes(draws, supply.used, mode, n),
    }
}
