// The public calls that count 3BV.
#![tactic(auto)]

pub mod count; // 3BV, and whether it is at least so many units
