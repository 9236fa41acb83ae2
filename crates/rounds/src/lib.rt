// One step and one round on a work area that stands for a position, the moves noted in a list.
#![tactic(auto)]

use moves::State;

pub mod steps; // one step
pub mod whole; // steps to the end, and a whole round

// What a step hands on: the state after it, and the column at which the next search for the lowest closed unit begins.
#[derive(Drop)]
pub struct Stepped {
    pub state: State,
    pub from: usize,
}
