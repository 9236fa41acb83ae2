// Answers as C sees them, and the mode that it names: the number that a name returns, 0 for success, and the values behind its answer pointers. What stands behind a pointer is left alone where an answer has no such value.
#![tactic(auto)]

ghost use Rattle.std.specs.Prelude.{◌≡◌};
ghost use Rattle.game.specs.Calls.{refuses};
ghost use Rattle.game.specs.Keys.{key_numbers};
ghost use Rattle.draws.specs.Answers.{mode_of};
ghost use Rattle.keys.specs.Stands.{key_of};
ghost use Rattle.refusals.specs.Names.{named};
ghost use Rattle.answers.specs.Answers.{counted_answer, judged_answer, key_rolled_answer, replayed_answer, rolled_answer};
ghost use Rattle.lines.specs.Answers.{board_answer};
ghost use Rattle.c_answers.specs.Names.{Tells, TellsThree, TellsTwo, key_by, key_left, key_put, mode_by, replay_told};

use answers::{KeyRoll, Played, Roll, Unplayed};
use draws::Mode;
use keys::Key;
use lines::board::Board;
use refusals::{Refusal, number_of};

// The mode of the draws: 0 is the old one, anything else the fair one.
pub fn mode_by(fair: u8) -> Mode
    ensures { mode_of result ≡ mode_by fair }
{
    if fair == 0 { Mode::Old } else { Mode::Fair }
}

// The key of a run of six numbers, the five words and the counter; a run of another length has none, as if its words were 0.
pub fn key_by(run: &[u32]) -> Key
    ensures { key_of result ≡ key_by run.now }
{
    if run.len() != 6 {
        return Key {
            x: 0,
            y: 0,
            z: 0,
            w: 0,
            v: 0,
            counter: 0,
        };
    }
    Key {
        x: run[0],
        y: run[1],
        z: run[2],
        w: run[3],
        v: run[4],
        counter: run[5],
    }
}

// A key put into a run of six numbers; a run of another length stays.
fn put_key(run: &mut [u32], key: Key)
    ensures { run.new ≡ key_put (key_numbers (key_of key)) run.old }
{
    if run.len() == 6 {
        run.copy_from_slice(&[key.x, key.y, key.z, key.w, key.v, key.counter]);
    }
}

// A refusal: its number, and behind the first pointer the cell that NUMBER names.
fn tell_refusal(refusal: Refusal, first: &mut u64) -> u8
    ensures { Tells (refuses (named refusal)) result first.old first.new }
{
    if let Refusal::Number(cell) = refusal {
        *first = cell as u64;
    }
    number_of(refusal)
}

// A count: 3BV, a round's clicks, or the bytes of a file.
pub fn tell_count(answer: Result<usize, Refusal>, count: &mut u64) -> u8
    ensures { Tells (counted_answer answer) result count.old count.new }
{
    match answer {
        Ok(counted) => {
            *count = counted as u64;
            0
        }
        Err(refusal) => tell_refusal(refusal, count),
    }
}

// Whether there are so many units, 1 or 0.
pub fn tell_enough(answer: Result<bool, Refusal>, enough: &mut u64) -> u8
    ensures { Tells (judged_answer answer) result enough.old enough.new }
{
    match answer {
        Ok(judged) => {
            *enough = judged as u64;
            0
        }
        Err(refusal) => tell_refusal(refusal, enough),
    }
}

// A random round's or search's clicks, and the draw bytes used.
pub fn tell_roll(answer: Result<Roll, Refusal>, clicks: &mut u64, used: &mut u64) -> u8
    ensures { TellsTwo (rolled_answer answer) result clicks.old clicks.new used.old used.new }
{
    match answer {
        Ok(roll) => {
            *clicks = roll.clicks as u64;
            *used = roll.used as u64;
            0
        }
        Err(refusal) => tell_refusal(refusal, clicks),
    }
}

// A keyed round's or search's clicks, the bytes of the key used, and the key after it in its run.
pub fn tell_keyed(
    answer: Result<KeyRoll, Refusal>,
    run: &mut [u32],
    clicks: &mut u64,
    used: &mut u64,
) -> u8
    ensures { TellsTwo (key_rolled_answer answer) result clicks.old clicks.new used.old used.new × (run.new ≡ key_left (key_rolled_answer answer) run.old) }
{
    match answer {
        Ok(keyed) => {
            put_key(run, keyed.key);
            *clicks = keyed.clicks as u64;
            *used = keyed.used as u64;
            0
        }
        Err(refusal) => tell_refusal(refusal, clicks),
    }
}

// A replay in numbers: moves made, safe cells still closed, and the number of the ending, any at all.
#[derive(Clone, Copy, Debug, PartialEq, Eq)]
pub struct Replayed {
    pub made: usize,
    pub closed: usize,
    pub ending: usize,
}

// What a replay answered, in numbers.
fn in_numbers(answer: Result<Played, Unplayed>) -> Result<Replayed, Unplayed>
    ensures { replay_told result ≡ replayed_answer answer }
{
    match answer {
        Ok(played) => Ok(Replayed {
            made: played.made,
            closed: played.closed,
            ending: usize::from(played.ending),
        }),
        Err(unplayed) => Err(unplayed),
    }
}

// A replay's moves made, or the place of the bad one, the safe cells still closed, and the ending's number.
pub fn tell_replay(
    answer: Result<Replayed, Unplayed>,
    made: &mut u64,
    closed: &mut u64,
    ending: &mut u64,
) -> u8
    ensures { TellsThree (replay_told answer) result made.old made.new closed.old closed.new ending.old ending.new }
{
    match answer {
        Ok(replayed) => {
            *made = replayed.made as u64;
            *closed = replayed.closed as u64;
            *ending = replayed.ending as u64;
            0
        }
        Err(Unplayed::Move(place)) => {
            *made = place as u64;
            number_of(Refusal::Move)
        }
        Err(Unplayed::Refused(refusal)) => tell_refusal(refusal, made),
    }
}

// The same of what a replay call answered.
pub fn tell_played(
    answer: Result<Played, Unplayed>,
    made: &mut u64,
    closed: &mut u64,
    ending: &mut u64,
) -> u8
    ensures { TellsThree (replayed_answer answer) result made.old made.new closed.old closed.new ending.old ending.new }
{
    tell_replay(in_numbers(answer), made, closed, ending)
}

// The rows and columns of a file that was read.
pub fn tell_board(answer: Result<Board, Refusal>, rows: &mut u64, columns: &mut u64) -> u8
    ensures { TellsTwo (board_answer answer) result rows.old rows.new columns.old columns.new }
{
    match answer {
        Ok(board) => {
            *rows = board.rows as u64;
            *columns = board.columns as u64;
            0
        }
        Err(refusal) => tell_refusal(refusal, rows),
    }
}
