// Units counted until it is certain whether there are so many.
#![tactic(auto)]

pub mod looks; // one cell looked at
pub mod walks; // the cells in index order, until it is certain
