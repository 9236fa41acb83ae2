// Keys: five words and a counter, and the words that Marsaglia's xorwow gives from them.
#![tactic(auto)]

ghost use Rattle.std.specs.Prelude.{◌≡◌, ◌<◌, bit_xor};
ghost use Rattle.game.specs.Keys.{blank, given_by, mix_left, mix_right, next_key};
ghost use Rattle.keys.specs.Stands.{key_of};

// Five words and a counter.
#[derive(Clone, Copy, PartialEq, Eq, Debug)]
pub struct Key {
    pub x: u32,
    pub y: u32,
    pub z: u32,
    pub w: u32,
    pub v: u32,
    pub counter: u32,
}

// The last word after one word more, by the first and the last before it.
fn mixed(first: u32, last: u32) -> u32
    ensures { result ≡ bit_xor (mix_left 4 last) (mix_left 1 (mix_right first)) }
{
    let t = first ^ (first >> 2);
    (last ^ (last << 4)) ^ (t ^ (t << 1))
}

// The key after one word more: the counter wraps.
#[tactic(auto, unfolding(game::specs::Keys::next_key))]
pub fn next_key(key: Key) -> Key
    ensures { key_of result ≡ next_key (key_of key) }
{
    Key {
        x: key.y,
        y: key.z,
        z: key.w,
        w: key.v,
        v: mixed(key.x, key.v),
        counter: key.counter.wrapping_add(362437),
    }
}

// The word that a key has just given: the counter plus the last word, which wraps.
#[tactic(auto, unfolding(game::specs::Keys::given_by))]
pub fn given_by(key: Key) -> usize
    ensures { (result ≡ given_by (key_of key)) × (result < 4294967296) }
{
    key.counter.wrapping_add(key.v) as usize
}

// Whether the five words are all 0.
pub fn is_blank(key: Key) -> bool
    ensures { result ≡ blank (key_of key) }
{
    key.x == 0 && key.y == 0 && key.z == 0 && key.w == 0 && key.v == 0
}
