// A graph written anew: inputs first, then latches, then gates in row order.
#![tactic(auto)]

mod gate_rows;
mod leaves;

ghost use Rattle.std.specs.Prelude.{◌≡◌, drop};
ghost use Rattle.edge.specs.Answers.{value_or};
ghost use Rattle.graph.specs.Graph.{lent_of};
ghost use Rattle.graph.specs.Check.{cleared, check_seen};
ghost use Rattle.output.specs.Tables.{lent_in, SameLists};
ghost use Rattle.renumber.specs.Steps.{MarksHold};
ghost use Rattle.reencode.specs.Numbers.{new_id};
ghost use Rattle.reencode.specs.Rebuilding.{rows_of, reencoded};
ghost use Rattle.reencode.specs.Steps.{RowsReady, ReencodeReady};
ghost use Rattle.renumber.specs.Seen.{rebuilt_seen};
ghost use Rattle.reencode.specs.Call.{reencode_checked, reencode_call};

use edge::Refusal;
use gate_rows::rebuild_gates;
use graph::marks::clear;
use graph::{Counts, Graph, no_counts};
use leaves::{count_leaves, number_inputs, number_latches, write_leaves};
use output::{Tables, asked, fits};
use renumber::{write_ids, write_lists};

// Numbers every row, in marks that are 0, and writes the rows.
fn write_rows(graph: &Graph, out: &mut [u32], marks: &mut [u32])
    requires { RowsReady (lent_of graph.now) marks.old }
    ensures rows_written { out.new ≡ rows_of (lent_of graph.now) out.old }
    ensures marks_hold { MarksHold graph.now.counts.rows (new_id (lent_of graph.now)) marks.new }
    ensures marks_unchanged { drop graph.now.counts.rows marks.new ≡ drop graph.now.counts.rows marks.old }
{
    let counts = graph.counts;
    number_inputs(&graph.inputs[..counts.inputs], marks);
    number_latches(graph.latches, counts.latches, 1 + counts.inputs, marks);
    let leaves = counts.inputs + counts.latches;
    write_leaves(out, leaves);
    rebuild_gates(graph.rows, counts.rows, out, 1 + leaves, marks);
}

// Writes the whole graph, where no answer is left. The marks are 0 over the used rows, and are so again.
fn rebuild(graph: &Graph, tables: &mut Tables, marks: &mut [u32])
    requires { ReencodeReady (lent_of graph.now) (lent_in tables.old graph.now.counts) marks.old }
    ensures same_lists { SameLists tables.new tables.old }
    ensures all_written { lent_in tables.new graph.now.counts ≡ reencoded (lent_of graph.now) (lent_in tables.old graph.now.counts) }
    ensures marks_after { marks.new ≡ cleared graph.now.counts.rows marks.old }
{
    let counts = graph.counts;
    write_rows(graph, tables.rows, marks);
    write_ids(tables.inputs, 0, graph.inputs, counts.inputs, marks);
    write_lists(tables, no_counts(), graph, marks);
    clear(marks, counts.rows);
}

// Answers 1 to 5, where there is so much room for the output. Inputs and latches list each leaf once, so that a leaf is an orphan exactly if there are more leaves than entries.
fn checked(graph: &Graph, room: Counts, marks: &mut [u32]) -> Result<(), Refusal>
    ensures { check_seen result marks.new ≡ reencode_checked (lent_of graph.now) room marks.old }
{
    asked(graph, true, room, marks)?;
    let counts = graph.counts;
    if count_leaves(graph.rows, counts.rows) != counts.inputs + counts.latches {
        return Err(Refusal::BadArgument);
    }
    if fits(room, counts) {
        Ok(())
    } else {
        Err(Refusal::NoRoom)
    }
}

// Writes the graph anew into the output's room, and answers the counts of the output: they are the same. A leaf that neither inputs nor latches list: 4. A refusal changes nothing but the marks.
pub fn reencode(graph: &Graph, tables: &mut Tables, marks: &mut [u32]) -> Result<Counts, Refusal>
    ensures same_lists { SameLists tables.new tables.old }
    ensures reencoded { rebuilt_seen result (lent_in tables.new (value_or graph.now.counts result)) marks.new
        ≡ reencode_call (lent_of graph.now) (lent_in tables.old graph.now.counts) marks.old }
{
    checked(graph, tables.room(), marks)?;
    rebuild(graph, tables, marks);
    Ok(graph.counts)
}
