// A graph without the rows that its roots do not reach: they and all below, across latches, are written in order into another graph.
#![tactic(auto)]

ghost use Rattle.std.specs.Prelude.{◌≡◌};
ghost use Rattle.edge.specs.Answers.{value_or};
ghost use Rattle.graph.specs.Graph.{lent_of};
ghost use Rattle.output.specs.Tables.{lent_in, SameLists};
ghost use Rattle.refine.specs.Steps.{WriteReady};
ghost use Rattle.refine.specs.Refining.{refined_counts, refined, old_rows};
ghost use Rattle.renumber.specs.Seen.{listed_seen};
ghost use Rattle.renumber.specs.Steps.{found_seen};
ghost use Rattle.refine.specs.Steps.{refine_checked};
ghost use Rattle.refine.specs.Call.{refine_call};

use edge::Refusal;
use graph::marks::clear;
use graph::{Counts, Graph, no_counts};
use kept_rows::copies::{write_inputs, write_rows};
use kept_rows::number_kept;
use output::{Tables, asked, fits};
use renumber::write_lists;

// Answers 1, 2, 3 or 5, where there is so much room for the output, and so many words are lent for the new-to-old list. Where no answer is left, the counts are those of the result, and the marks of the used rows hold their
// new numbers.
fn checked(graph: &Graph, room: Counts, old: usize, marks: &mut [u32]) -> Result<Counts, Refusal>
    ensures { found_seen graph.now.counts result marks.new ≡ refine_checked (lent_of graph.now) room old marks.old }
{
    asked(graph, true, room, marks)?;
    let used = graph.counts.rows;
    let need = number_kept(graph, &mut marks[..used]);
    if fits(room, need) & (need.rows <= old) {
        return Ok(need);
    }
    clear(marks, used);
    Err(Refusal::NoRoom)
}

// Writes the whole graph by the map, where no answer is left, and for each of its rows the row that it was.
fn write(graph: &Graph, tables: &mut Tables, old: &mut [u32], map: &[u32])
    requires { WriteReady (lent_of graph.now) (lent_in tables.old graph.now.counts) old.old map.now }
    ensures same_lists { SameLists tables.new tables.old }
    ensures all_written { lent_in tables.new (refined_counts (lent_of graph.now)) ≡ refined (lent_of graph.now) (lent_in tables.old graph.now.counts) }
    ensures old_written { old.new ≡ old_rows (lent_of graph.now) old.old }
{
    let counts = graph.counts;
    write_rows(graph.rows, counts.rows, tables.rows, old, map);
    write_inputs(&graph.inputs[..counts.inputs], tables.inputs, map);
    write_lists(tables, no_counts(), graph, map);
}

// Writes the rows that the five root lists, the latch inputs and the non-constant inits reach, across latches, in order and renumbered, with all latches, the kept inputs and all other lists, into
// the output's room, and for each new row the old one to `old`; answers the counts of the output. Too little room in either: 5. A refusal changes nothing but the marks.
pub fn coi_refine(
    graph: &Graph,
    tables: &mut Tables,
    old: &mut [u32],
    marks: &mut [u32],
) -> Result<Counts, Refusal>
    ensures same_lists { SameLists tables.new tables.old }
    ensures refined { listed_seen result (lent_in tables.new (value_or graph.now.counts result)) old.new marks.new
        ≡ refine_call (lent_of graph.now) (lent_in tables.old graph.now.counts) old.old marks.old }
{
    let counts = checked(graph, tables.room(), old.len(), marks)?;
    write(graph, tables, old, marks);
    clear(marks, graph.counts.rows);
    Ok(counts)
}
