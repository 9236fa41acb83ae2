// The work area and the grid: one number, one cell, one square at a time. How a cell's five numbers lie is said here alone.
#![tactic(auto)]

pub mod numbers; // one number of the work area
pub mod five; // a cell's five numbers by name
pub mod mines; // the mines of the grid
pub mod squares; // a cell by its row and column, and its square
pub mod shifts; // the premiums of a square, up or down

pub use five::{
    content, first_label, premium, put_content, put_first_label, put_lowered, put_premium,
    put_second_label, put_state, put_waiting, second_label, state, waiting,
};
pub use mines::mine_in;
pub use numbers::{get, put};
pub use shifts::{shift, shift_square};
pub use squares::{Sides, around, cell, near, upper};
