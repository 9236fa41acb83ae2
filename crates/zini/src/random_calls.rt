// Random rounds and searches in a mode of the draws, by lent bytes or by a key: clicks, and draw bytes used.
pub use draws::Mode;
pub use keys::Key;
pub use random_round_call::{keyed_round, random_round};
pub use random_search_call::{keyed_search, random_search};
