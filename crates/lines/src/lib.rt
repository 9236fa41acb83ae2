// Lines of hexadecimal: boards and prices.
#![tactic(auto)]

pub mod board; // board lines
pub mod price; // price lines
