// What the calls answer, as three numbers, a replay's as four, and a keyed call's with the key after it.
use answers::{KeyRoll, Played, Roll, Unplayed};
use keys::Key;
use refusals::Refusal;

// An answer: its number, 0 for success, and its two values, 0 for none; a replay's has the ending too, a keyed call's the key after it.
#[derive(Clone, Copy)]
pub struct Plain {
    pub number: u64,
    pub first: u64,
    pub second: u64,
    pub ending: Option<u64>,
    pub key: Option<Key>,
}

// An answer of three numbers.
pub fn numbers(number: u64, first: u64, second: u64) -> Plain {
    Plain {
        number,
        first,
        second,
        ending: None,
        key: None,
    }
}

// A keyed call's answer of three numbers, with the key after it.
pub fn key_numbers(number: u64, first: u64, second: u64, key: Key) -> Plain {
    Plain {
        key: Some(key),
        ..numbers(number, first, second)
    }
}

// A replay's answer of four numbers.
fn replay_numbers(number: u64, first: u64, second: u64, ending: u64) -> Plain {
    Plain {
        ending: Some(ending),
        ..numbers(number, first, second)
    }
}

// What a refusal answers: its number, and the cell that NUMBER names.
pub fn of_refusal(refusal: Refusal) -> Plain {
    match refusal {
        Refusal::Number(cell) => numbers(11, cell as u64, 0),
        _ => numbers(refusals::number_of(refusal) as u64, 0, 0),
    }
}

// What a call answered that gives one number, as the 3BV count or greedy.
pub fn of_number(answer: Result<usize, Refusal>) -> Plain {
    match answer {
        Ok(number) => numbers(0, number as u64, 0),
        Err(refusal) => of_refusal(refusal),
    }
}

// What the early count answered, 1 for enough.
pub fn of_judged(answer: Result<bool, Refusal>) -> Plain {
    match answer {
        Ok(enough) => numbers(0, enough as u64, 0),
        Err(refusal) => of_refusal(refusal),
    }
}

// What a random call answered.
pub fn of_rolled(answer: Result<Roll, Refusal>) -> Plain {
    match answer {
        Ok(roll) => numbers(0, roll.clicks as u64, roll.used as u64),
        Err(refusal) => of_refusal(refusal),
    }
}

// What a keyed call answered that was given a key, which a refusal leaves.
pub fn of_key_rolled(answer: Result<KeyRoll, Refusal>, given: Key) -> Plain {
    match answer {
        Ok(roll) => key_numbers(0, roll.clicks as u64, roll.used as u64, roll.key),
        Err(refusal) => Plain {
            key: Some(given),
            ..of_refusal(refusal)
        },
    }
}

// What a replay answered.
pub fn of_replayed(answer: Result<Played, Unplayed>) -> Plain {
    match answer {
        Ok(played) => {
            let ending = usize::from(played.ending);
            replay_numbers(0, played.made as u64, played.closed as u64, ending as u64)
        }
        Err(Unplayed::Move(place)) => replay_numbers(7, place as u64, 0, 0),
        Err(Unplayed::Refused(refusal)) => Plain {
            ending: Some(0),
            ..of_refusal(refusal)
        },
    }
}
