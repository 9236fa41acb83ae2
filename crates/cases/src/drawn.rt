// The cases that draw: random rounds and searches, by lent bytes or by a key, in the mode that a case names.
use trials::plain::Plain;
use trials::{fields, plain};
use zini::random_calls::{Key, Mode};
use zini::{random_calls, strict};

// The mode of a case's draws: the fair one unless fair is 0.
pub fn mode_of(text: &[u8]) -> Mode {
    if fields::number(text, b"fair=") == 0 {
        return Mode::Old;
    }
    Mode::Fair
}

// A case's random round, in the mode that it names.
pub fn random_round(
    text: &[u8],
    rows: usize,
    columns: usize,
    grid: &[i32],
    work: &mut [i32],
    list: &mut [u32],
    draws: &[u8],
) -> Plain {
    let mode = mode_of(text);
    plain::of_rolled(random_calls::random_round(rows, columns, grid, work, list, draws, mode))
}

// A case's random search, in the mode that it names.
pub fn random_search(
    text: &[u8],
    rows: usize,
    columns: usize,
    grid: &[i32],
    work: &mut [i32],
    draws: &[u8],
) -> Plain {
    let mode = mode_of(text);
    let rounds = fields::number(text, b"rounds=");
    plain::of_rolled(random_calls::random_search(rows, columns, grid, work, draws, mode, rounds))
}

// A case's random round in the strict form, in the mode that it names.
pub fn strict_random_round(
    text: &[u8],
    rows: usize,
    columns: usize,
    grid: &[i32],
    work: &mut [i32],
    list: &mut [u32],
    draws: &[u8],
) -> Plain {
    let mode = mode_of(text);
    plain::of_rolled(strict::random_round(rows, columns, grid, work, list, draws, mode))
}

// A case's random search in the strict form, in the mode that it names.
pub fn strict_random_search(
    text: &[u8],
    rows: usize,
    columns: usize,
    grid: &[i32],
    work: &mut [i32],
    draws: &[u8],
) -> Plain {
    let mode = mode_of(text);
    let rounds = fields::number(text, b"rounds=");
    plain::of_rolled(strict::random_search(rows, columns, grid, work, draws, mode, rounds))
}

// The key of a case: its five words and its counter.
pub fn key_of(text: &[u8]) -> Key {
    let mut numbers = [0u32; 6];
    fields::lay_words(text, b"key=", &mut numbers);
    Key {
        x: numbers[0],
        y: numbers[1],
        z: numbers[2],
        w: numbers[3],
        v: numbers[4],
        counter: numbers[5],
    }
}

// A case's keyed round, in the mode that it names.
pub fn keyed_round(
    text: &[u8],
    rows: usize,
    columns: usize,
    grid: &[i32],
    work: &mut [i32],
    list: &mut [u32],
) -> Plain {
    let mode = mode_of(text);
    let key = key_of(text);
    plain::of_key_rolled(
        random_calls::keyed_round(rows, columns, grid, work, list, key, mode),
        key,
    )
}

// A case's keyed search, in the mode that it names.
pub fn keyed_search(
    text: &[u8],
    rows: usize,
    columns: usize,
    grid: &[i32],
    work: &mut [i32],
) -> Plain {
    let mode = mode_of(text);
    let key = key_of(text);
    let rounds = fields::number(text, b"rounds=");
    plain::of_key_rolled(
        random_calls::keyed_search(rows, columns, grid, work, key, mode, rounds),
        key,
    )
}

// A case's keyed round in the strict form, in the mode that it names.
pub fn strict_keyed_round(
    text: &[u8],
    rows: usize,
    columns: usize,
    grid: &[i32],
    work: &mut [i32],
    list: &mut [u32],
) -> Plain {
    let mode = mode_of(text);
    let key = key_of(text);
    plain::of_key_rolled(
        strict::keyed_round(rows, columns, grid, work, list, key, mode),
        key,
    )
}

// A case's keyed search in the strict form, in the mode that it names.
pub fn strict_keyed_search(
    text: &[u8],
    rows: usize,
    columns: usize,
    grid: &[i32],
    work: &mut [i32],
) -> Plain {
    let mode = mode_of(text);
    let key = key_of(text);
    let rounds = fields::number(text, b"rounds=");
    plain::of_key_rolled(
        strict::keyed_search(rows, columns, grid, work, key, mode, rounds),
        key,
    )
}
