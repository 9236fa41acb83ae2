// The public call that replays a stored list.
#![tactic(auto)]

pub mod replays; // a stored list played on a board
