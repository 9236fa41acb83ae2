// The position before any move, and the work area as it is handed back.
#![tactic(auto)]

pub mod load; // each cell's content
pub mod settle; // the end of a call
pub mod begin; // the position before any move as a whole
