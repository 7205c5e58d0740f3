// One frame more: the rows of a graph are built once more behind the target's, with the target's nexts in place of the latch inputs.
// Memory is lent with room beyond the used entries, and a promise speaks of all that is lent: so how many are used stands beside a table.
#![tactic(auto)]

ghost use Rattle.std.specs.Prelude.{◌≡◌, ◌*◌, ◌≤◌, length};
ghost use Rattle.std.specs.List.{list_all, range_with_len};
ghost use Rattle.edge.specs.Answers.{value_or};
ghost use Rattle.graph.specs.Latches.{latch_words};
ghost use Rattle.graph.specs.Graph.{lent_of, Sized};
ghost use Rattle.graph.specs.Check.{check_seen};
ghost use Rattle.output.specs.Tables.{lent_in, SameLists};
ghost use Rattle.renumber.specs.Seen.{rebuilt_seen};
ghost use Rattle.unroll.specs.Unroll.{same_latch, same_start, unroll_checked, unroll_call};

use edge::Refusal;
use frame::add_frame;
use graph::latch::latch_at;
use graph::{Counts, Graph};
use output::Tables;
use two_graphs::check_two;

// Have the first n latches of both tables the same inputs?
fn same_latches(latches: &[u32], others: &[u32], n: usize) -> bool
    requires { (latch_words * n ≤ length latches.now) × (latch_words * n ≤ length others.now) }
    ensures { result ≡ list_all (same_latch latches.now others.now) (range_with_len 0 n) }
{
    (0..n).all(|j| latch_at(latches, j).input == latch_at(others, j).input)
}

// Are the target's first rows those of the graph, and have both the same latch inputs in order?
fn same_start(target: &Graph, graph: &Graph) -> bool
    requires target_sized { Sized (lent_of target.now) target.now.counts.rows }
    requires sized { Sized (lent_of graph.now) graph.now.counts.rows }
    ensures { result ≡ same_start (lent_of target.now) (lent_of graph.now) }
{
    let n = graph.counts;
    let words = 2 * n.rows;
    (n.rows <= target.counts.rows)
        && (target.counts.latches == n.latches)
        && target.rows[..words] == graph.rows[..words]
        && same_latches(target.latches, graph.latches, n.latches)
}

// Answers 1, 2, 3 and 4.
fn checked(target: &Graph, graph: &Graph, marks: &mut [u32]) -> Result<(), Refusal>
    ensures { check_seen result marks.new ≡ unroll_checked (lent_of target.now) (lent_of graph.now) marks.old }
{
    check_two(target, graph, marks)?;
    if same_start(target, graph) {
        Ok(())
    } else {
        Err(Refusal::BadArgument)
    }
}

// Adds a frame of the graph to the one that stands in the tables, and answers the counts with it: each latch input goes to the target's next, other leaves get a new input, and gates are built
// anew with folding. Then the latches take the mapped next of the graph's, and each root list grows by its mapped entries, justice by whole sets. Init stays.
pub fn unroll(
    tables: &mut Tables,
    counts: Counts,
    graph: &Graph,
    marks: &mut [u32],
) -> Result<Counts, Refusal>
    ensures same_lists { SameLists tables.new tables.old }
    ensures unrolled { rebuilt_seen result (lent_in tables.new (value_or counts result)) marks.new ≡ unroll_call (lent_in tables.old counts) (lent_of graph.now) marks.old }
{
    checked(&tables.graph(counts), graph, marks)?;
    add_frame(tables, counts, graph, marks).ok_or(Refusal::NoRoom)
}
