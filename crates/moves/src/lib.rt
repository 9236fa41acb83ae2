// Moves on a work area that stands for a position, each noted in a list.
#![tactic(auto)]

pub mod single; // single moves, and the moves at a chosen cell
pub mod opening_clicks; // L on each closed 0-cell

// What goes from move to move: moves made, and the closed units left.
#[derive(Drop)]
pub struct State {
    pub moves: usize,
    pub units: usize,
}
