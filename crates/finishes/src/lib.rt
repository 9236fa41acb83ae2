// How a random round or search finished, as the public calls answer it: by lent bytes, or by a key.
#![tactic(auto)]

ghost use Rattle.std.specs.Prelude.{◌≡◌};
ghost use Rattle.keys.specs.Stands.{key_of};
ghost use Rattle.random.specs.Promises.{finish_answer, key_finish_answer, key_left};
ghost use Rattle.answers.specs.Answers.{key_rolled_answer, rolled_answer};

use answers::{KeyRoll, Roll};
use keys::Key;
use random::Finish;
use refusals::Refusal;

// The key after a supply's draws: lent bytes leave the one that stood beside them.
fn key_left(key: Option<Key>, beside: Key) -> Key
    ensures { key_of result ≡ key_left key (key_of beside) }
{
    match key {
        Some(left) => left,
        None => beside,
    }
}

// Clicks and draw bytes used, or DRAWS.
pub fn rolled(finish: Option<Finish>) -> Result<Roll, Refusal>
    ensures { rolled_answer result ≡ finish_answer finish }
{
    let ended = finish.ok_or(Refusal::Draws)?;
    Ok(Roll {
        clicks: ended.clicks,
        used: ended.supply.used,
    })
}

// The same with the key after it, from the key that stood beside the draws.
pub fn key_rolled(finish: Option<Finish>, beside: Key) -> Result<KeyRoll, Refusal>
    ensures { key_rolled_answer result ≡ key_finish_answer finish (key_of beside) }
{
    let keyed = finish.ok_or(Refusal::Draws)?;
    Ok(KeyRoll {
        clicks: keyed.clicks,
        used: keyed.supply.used,
        key: key_left(keyed.supply.key, beside),
    })
}
