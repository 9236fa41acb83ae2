// The public calls that play greedy and openings-first rounds.
#![tactic(auto)]

pub mod prices; // greedy and openings-first rounds
