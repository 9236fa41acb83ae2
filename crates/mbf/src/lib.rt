// Boards in MBF files: a file read into a lent grid, and a grid written as a file.
#![tactic(auto)]

pub use lines::board::Board;
pub use mbf_read::read;
pub use mbf_write::{strict_write, write};
