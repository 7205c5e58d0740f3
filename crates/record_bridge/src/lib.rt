// Calls through records for callers that hold flat words: the latches stand in tables of records while the call runs.
// Each graph lends exactly a table of latches, used or not; else the answer is 1.
#![tactic(auto)]

ghost use Rattle.std.specs.Prelude.{◌≡◌};
ghost use Rattle.edge.specs.Answers.{value_or};
ghost use Rattle.graph.specs.Check.{check_seen};
ghost use Rattle.graph.specs.Graph.{lent_of};
ghost use Rattle.output.specs.Tables.{lent_in, SameLists};
ghost use Rattle.renumber.specs.Seen.{rebuilt_seen};
ghost use Rattle.records.specs.Checking.{check_with, check_refused};
ghost use Rattle.records.specs.Local.{entry_seen};
ghost use Rattle.records.specs.Pairing.{pair_seen};
ghost use Rattle.records.specs.Working.{worked};
ghost use Rattle.record_unroll.specs.Call.{unroll_with, unroll_refused};
ghost use Rattle.record_bridge.specs.Bridge.{entry_call, on_table, on_tables};

use edge::Refusal;
use graph::latch::{LATCH_WORDS, Latch};
use graph::{Counts, Graph};
use output::Tables;
use records::TABLE_SIZE;

// Record i with another next, read again: `set_next` and `latch_at` on a slice of records.
pub fn set_next(latches: &mut [u32], i: usize, next: u32) -> Result<Latch, Refusal>
    ensures { entry_seen result latches.new ≡ entry_call latches.old i next }
{
    if latches.len() != LATCH_WORDS * TABLE_SIZE {
        return Err(Refusal::BadSizes);
    }
    records::next_through(latches, i, next)
}

// Is this a well-formed graph? The check over records.
pub fn check(graph: &Graph, words: &mut [u32], marks: &mut [u32]) -> Result<(), Refusal>
    ensures { worked (check_seen result marks.new) words.new
        ≡ on_table graph.now.latches.now words.old (check_with (lent_of graph.now) marks.old) (check_refused marks.old) }
{
    if graph.latches.len() != LATCH_WORDS * TABLE_SIZE {
        return Err(Refusal::BadSizes);
    }
    records::check_through(graph, words, marks)
}

// Adds a frame of the graph to the one that stands in the tables.
pub fn unroll(
    tables: &mut Tables,
    counts: Counts,
    graph: &Graph,
    words: &mut [u32],
    words2: &mut [u32],
    marks: &mut [u32],
) -> Result<Counts, Refusal>
    ensures same_lists { SameLists tables.new tables.old }
    ensures unrolled { pair_seen (rebuilt_seen result (lent_in tables.new (value_or counts result)) marks.new) words.new words2.new
        ≡ on_tables tables.old.latches.now words.old graph.now.latches.now words2.old
        (unroll_with (lent_in tables.old counts) (lent_of graph.now) marks.old) (unroll_refused (lent_in tables.old counts) marks.old) }
{
    if tables.latches.len() != LATCH_WORDS * TABLE_SIZE
        || graph.latches.len() != LATCH_WORDS * TABLE_SIZE
    {
        return Err(Refusal::BadSizes);
    }
    record_unroll::unroll_tables(tables, counts, graph, words, words2, marks)
}
