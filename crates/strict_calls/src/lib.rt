// The strict forms of the public calls.
#![tactic(auto)]

pub mod strict; // each call on a grid whose values must be right
