// Calls that change a graph's property: its bads, its constraints and its latches' inits.
#![tactic(auto)]

mod compress;
mod gate_init;

pub use compress::compress_property;
pub use gate_init::gate_init_to_constraint;
