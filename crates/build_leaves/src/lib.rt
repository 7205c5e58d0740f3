// Constructors of the first row, leaves and inputs, added to a graph that is lent. They look only at counts, and don't scan rows.
#![tactic(auto)]

pub mod calls;
mod leaves;

pub use calls::{Added, Built};
pub use leaves::{add_input, new, new_input, new_leaf_node};
