// A graph whose constraints are moved into a latch: it holds as long as they have, and the first bad and output count only while it does.
// Memory is lent with room beyond the used entries, and a promise speaks of all that is lent: so how many are used stands beside a table.
#![tactic(auto)]

mod making;

ghost use Rattle.std.specs.Prelude.{◌≡◌, ◌≤◌, true, length};
ghost use Rattle.edge.specs.Answers.{value_or};
ghost use Rattle.rows.specs.Sizes.{max_entries};
ghost use Rattle.graph.specs.Graph.{lent_of};
ghost use Rattle.output.specs.Tables.{lent_in, SameLists};
ghost use Rattle.aig_move.specs.Moving.{copy_counts, counts_with, moved_counts, first_set, finished, moved};
ghost use Rattle.aig_move.specs.Steps.{FinishReady, MoveReady, move_checked};
ghost use Rattle.renumber.specs.Seen.{rebuilt_seen};
ghost use Rattle.renumber.specs.Steps.{found_seen};
ghost use Rattle.aig_move.specs.Call.{move_call};

use edge::Refusal;
use graph::latch::{latch_of, write_latch};
use graph::{Counts, Graph};
use making::{count_rows, make};
use output::{Tables, asked, fits};

// The entries that are copied: all but the constraints.
fn copy_counts(counts: Counts) -> Counts
    ensures { result ≡ copy_counts counts }
{
    Counts {
        constraints: 0,
        ..counts
    }
}

// The counts of the result, where it has so many rows.
fn counts_with(counts: Counts, rows: usize) -> Counts
    requires { counts.latches ≤ max_entries }
    ensures { result ≡ counts_with counts rows }
{
    Counts {
        rows,
        latches: counts.latches + 1,
        constraints: 0,
        ..counts
    }
}

// Replaces the first of n entries, where there is one.
fn replace_first(list: &mut [u32], n: usize, e: u32)
    requires { n ≤ length list.old }
    ensures { list.new ≡ first_set list.old n e }
{
    if 0 < n {
        list[0] = e;
    }
}

// Adds the latch to the copy, with its rows, and replaces the first bad and output.
fn finish(graph: &Graph, tables: &mut Tables)
    requires { FinishReady (lent_of graph.now) (lent_in tables.old (copy_counts graph.now.counts)) }
    ensures same_lists { SameLists tables.new tables.old }
    ensures finished { lent_in tables.new (moved_counts (lent_of graph.now)) ≡ finished (lent_of graph.now) (lent_in tables.old (copy_counts graph.now.counts)) }
{
    let counts = graph.counts;
    let made = make(tables.rows, graph);
    let l = latch_of(counts.rows as u32, made.next, 1);
    write_latch(tables.latches, counts.latches, l);
    replace_first(tables.bads, counts.bads, made.bad);
    replace_first(tables.outputs, counts.outputs, made.output);
}

// Answers 1, 2, 3 and 5, where there is so much room for the output: no argument can be wrong. Where no answer is left, the counts of the result.
fn checked(graph: &Graph, room: Counts, marks: &mut [u32]) -> Result<Counts, Refusal>
    ensures { found_seen graph.now.counts result marks.new ≡ move_checked (lent_of graph.now) room marks.old }
{
    asked(graph, true, room, marks)?;
    let need = counts_with(graph.counts, count_rows(graph));
    if fits(room, need) {
        Ok(need)
    } else {
        Err(Refusal::NoRoom)
    }
}

// Writes the whole graph, where no answer is left.
fn write(graph: &Graph, tables: &mut Tables)
    requires { MoveReady (lent_of graph.now) (lent_in tables.old graph.now.counts) }
    ensures same_lists { SameLists tables.new tables.old }
    ensures moved { lent_in tables.new (moved_counts (lent_of graph.now)) ≡ moved (lent_of graph.now) (lent_in tables.old graph.now.counts) }
{
    let copied = Graph {
        counts: copy_counts(graph.counts),
        ..*graph
    };
    tables.copy(&copied);
    finish(graph, tables);
}

// Writes a copy of the graph into the tables, with its constraints in a new latch (init true): its next is the AND of itself and all constraints, and the first bad
// and output are guarded by that next. The copy has no constraints. A refusal changes nothing but the marks.
pub fn aig_move(graph: &Graph, tables: &mut Tables, marks: &mut [u32]) -> Result<Counts, Refusal>
    ensures same_lists { SameLists tables.new tables.old }
    ensures answer { rebuilt_seen result (lent_in tables.new (value_or graph.now.counts result)) marks.new
        ≡ move_call (lent_of graph.now) (lent_in tables.old graph.now.counts) marks.old }
{
    let counts = checked(graph, tables.room(), marks)?;
    write(graph, tables);
    Ok(counts)
}
