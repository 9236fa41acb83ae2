// Cases of a key alone: the words that it gives, and a single draw from it.
use crate::drawn;
use keys::Key;
use supplies::Dealt;
use trials::plain::Plain;
use trials::{fields, plain};

// Whether a case is one of a key alone.
pub fn is_case(text: &[u8]) -> bool {
    fields::is(text, 2, b"key-words ") || fields::is(text, 2, b"key-draw ")
}

// Prints so many words of a key.
fn print_words(rt: HostRuntime, key: Key, count: usize) {
    let mut at = key;
    for _ in 0..count {
        at = keys::next_key(at);
        trials::print_number(rt, keys::given_by(at) as u64);
    }
    trials::print(rt, b"\n");
}

// A draw's place and the bytes of the key used, or DRAWS.
fn of_dealt(dealt: Option<Dealt>, given: Key) -> Plain {
    match dealt {
        Some(Dealt { place, supply }) => plain::key_numbers(
            0,
            place as u64,
            supply.used as u64,
            supply.key.unwrap_or(given),
        ),
        None => plain::key_numbers(6, 0, 0, given),
    }
}

// A draw from a key among so many, in the mode that the case names.
fn draw(text: &[u8], key: Key) -> Plain {
    let mode = drawn::mode_of(text);
    let none = [0u8; 0];
    let supply = supplies::of_key(key);
    of_dealt(
        supplies::draw(&none, mode, supply, fields::number(text, b"among=")),
        key,
    )
}

// Runs a case of a key alone, and prints what it gives.
pub fn run_case(rt: HostRuntime, text: &[u8]) {
    let key = drawn::key_of(text);
    if fields::is(text, 2, b"key-words ") {
        print_words(rt, key, fields::number(text, b"count="));
        return;
    }
    trials::print_answer(rt, draw(text, key));
}
