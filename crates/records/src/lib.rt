// The same graphs for callers that hold records: the counts lent in place, and a latch table of records.
#![tactic(auto)]

pub mod by_lending;
mod checking;
mod counts;
mod table;
mod through;
mod words;

pub use checking::check;
pub use counts::{add_input, add_latch, new_input, new_latch};
pub use table::{NO_LATCH, latch_at, set_next};
pub use through::{TABLE_SIZE, check_through, next_through};
pub use words::{nexts_back, records_back, to_words, wipe};
