// One replayed move, and the replay of a list, on a work area that has the states of a position.
#![tactic(auto)]

pub mod flags; // the flags of a square, and whether C may be played
pub mod clicks; // L on the cells of a square
pub mod makes; // one move
pub mod runs; // a list of moves

pub use clicks::Remains;
pub use makes::make;
pub use runs::{Stopped, Whole, run};
