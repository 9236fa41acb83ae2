// Which cell a step takes.
#![tactic(auto)]

pub mod highest; // the highest premium of a column
pub mod known; // the lowest cell of highest premium, looking again only at columns that may have changed
pub mod units; // the lowest closed unit

// The lowest cell that a search by columns finds, and its column; past the last column if it finds nothing.
#[derive(Clone, Copy)]
pub struct Lowest {
    pub found: Option<usize>,
    pub column: usize,
}

// The highest raised premium so far, and the first column that has it.
#[derive(Clone, Copy)]
pub struct Best {
    pub top: usize,
    pub at: usize,
}
