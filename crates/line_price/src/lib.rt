// The figures of one board line; `line_prices` has them under its own name.
#![tactic(auto)]

pub mod price; // one line priced
