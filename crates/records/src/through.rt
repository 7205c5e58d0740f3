// Calls on records for callers that hold flat words: the latches are read into a local table of records, and the call is made on it. Of words that
// lend fewer latches than a table has, none is read or written; `record_bridge` looks at that first.
ghost use Rattle.std.specs.Prelude.{◌≡◌};
ghost use Rattle.graph.specs.Graph.{lent_of};
ghost use Rattle.graph.specs.Check.{check_seen};
ghost use Rattle.records.specs.Local.{held, entry_seen, next_through};
ghost use Rattle.records.specs.Working.{worked, on_records};
ghost use Rattle.records.specs.Checking.{check_with, check_refused};

use crate::checking::check;
use crate::table::{NO_LATCH, latch_at, set_next};
use crate::words::{records_back, to_words};
use edge::Refusal;
use graph::Graph;
use graph::latch::Latch;

// How many records a table has.
pub const TABLE_SIZE: usize = 16;

// Record i with another next, read again.
pub fn next_through(latches: &mut [u32], i: usize, next: u32) -> Result<Latch, Refusal>
    ensures { entry_seen result latches.new ≡ next_through latches.old i next }
{
    let mut table = [NO_LATCH; TABLE_SIZE];
    records_back(&mut table, latches);
    set_next(&mut table, i, next)?;
    to_words(&table, latches);
    latch_at(&table, i)
}

// The check of the records that the latches are.
pub fn check_through(graph: &Graph, words: &mut [u32], marks: &mut [u32]) -> Result<(), Refusal>
    ensures { worked (check_seen result marks.new) words.new
        ≡ on_records (held graph.now.latches.now) words.old (check_with (lent_of graph.now) marks.old) (check_refused marks.old) }
{
    let mut table = [NO_LATCH; TABLE_SIZE];
    records_back(&mut table, graph.latches);
    check(graph, &table, words, marks)
}
