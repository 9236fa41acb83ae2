// The public calls under one name: each checks its input in the order of RULES 8, and answers a Result.
#![tactic(auto)]

pub use answers::{KeyRoll, Played, Roll, Unplayed};
pub use count_call::count; // 3BV, and whether it is at least so many units
pub use price_calls::prices; // greedy and openings-first rounds
pub use replay_call::replays; // a stored list played on a board
pub use strict_calls::strict; // each of them on a grid whose values must be right

pub mod random_calls; // random rounds and searches
