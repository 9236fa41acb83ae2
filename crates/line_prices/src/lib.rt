// The board reader's work on slices: one line priced, and a block of input answered.
#![tactic(auto)]

pub use line_price::price; // one line priced

pub mod block; // a block of input answered
