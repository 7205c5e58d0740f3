// Rows: what is one, and reading one. A row is two words: row 0 is the false row, and each later row is a leaf or a gate.
#![tactic(auto)]

pub mod kinds;
mod reading;
pub mod sizes;

pub use reading::{fanin, fanin0, fanin1, is_and, is_leaf};
