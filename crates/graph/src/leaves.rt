// Lists 1 and 2: the leaves that inputs and latches list, each once. The marks say which are listed.
ghost use Rattle.std.specs.Prelude.{◌≡◌, cond, None, IsOk, [], ◌+◌, ◌*◌, ◌≤◌, ◌<◌, length, set, take, drop};
ghost use Rattle.edge.specs.Answers.{told};
ghost use Rattle.graph.specs.Search.{first_bad};
ghost use Rattle.graph.specs.Stages.{first_fault};
ghost use Rattle.graph.specs.Latches.{latch_words};
ghost use Rattle.graph.specs.Leaves.{latch_edges, good_input, good_latch, Marks};
ghost use Rattle.graph.specs.Steps.{unmarked_leaf};
ghost use Rattle.graph.specs.Graph.{lent_of, LeavesLent};
ghost use Rattle.graph.specs.Check.{leaf_stages_of};
ghost use Rattle.graph.specs.WellFormed.{leaf_list};

use crate::Graph;
use crate::latch::{Latch, latch_at};
use crate::lists::is_used;
use crate::search::no_bad_entry;
use edge::{List, Refusal};
use rows::kinds;

// Lists row x: where it is a used leaf without a mark, it is marked.
fn claim(graph: &Graph, x: u32, marks: &mut [u32]) -> bool
    requires rows { 2 * graph.now.counts.rows ≤ length graph.now.rows.now }
    requires marked { graph.now.counts.rows ≤ length marks.old }
    ensures value { result ≡ unmarked_leaf graph.now.rows.now graph.now.counts.rows marks.old x }
    ensures marks_after { marks.new ≡ cond result (set marks.old x 1) marks.old }
{
    let rows = graph.rows;
    let i = x as usize;
    if graph.counts.rows <= i {
        return false;
    }
    if kinds::is_leaf(i, rows[2 * i], rows[2 * i + 1]) & (marks[i] == 0) {
        marks[i] = 1;
        return true;
    }
    false
}

// A `for`: a test marks what it lists, so its steps have an order.
fn first_bad_input(graph: &Graph, marks: &mut [u32]) -> Option<usize>
    requires rows { 2 * graph.now.counts.rows ≤ length graph.now.rows.now }
    requires inputs { graph.now.counts.inputs ≤ length graph.now.inputs.now }
    requires marked { graph.now.counts.rows ≤ length marks.old }
    requires marks { Marks graph.now.counts.rows [] marks.old }
    ensures value { result ≡ first_bad (good_input graph.now.rows.now graph.now.counts.rows graph.now.inputs.now) 0 graph.now.counts.inputs }
    ensures marks_unchanged { drop graph.now.counts.rows marks.new ≡ drop graph.now.counts.rows marks.old }
    ensures listed { result ≡ None → Marks graph.now.counts.rows (take graph.now.counts.inputs graph.now.inputs.now) marks.new }
{
    for i in 0..graph.counts.inputs {
        if !claim(graph, graph.inputs[i], marks) {
            return Some(i);
        }
    }
    None
}

// Is next an edge to a used row, and init such an edge or none?
pub fn latch_edges(used: usize, l: Latch) -> bool
    ensures { result ≡ latch_edges used l }
{
    is_used(l.next, used) & ((l.init == kinds::NONE) | is_used(l.init, used))
}

// The marks stand for the inputs, which are listed before all latches.
fn first_bad_latch(graph: &Graph, marks: &mut [u32]) -> Option<usize>
    requires rows { 2 * graph.now.counts.rows ≤ length graph.now.rows.now }
    requires latches { latch_words * graph.now.counts.latches ≤ length graph.now.latches.now }
    requires marked { graph.now.counts.rows ≤ length marks.old }
    requires marks { Marks graph.now.counts.rows (take graph.now.counts.inputs graph.now.inputs.now) marks.old }
    ensures value { result ≡ first_bad (good_latch graph.now.rows.now graph.now.counts.rows (take graph.now.counts.inputs graph.now.inputs.now) graph.now.latches.now) 0 graph.now.counts.latches }
    ensures marks_unchanged { drop graph.now.counts.rows marks.new ≡ drop graph.now.counts.rows marks.old }
    ensures listed { result ≡ None → Marks graph.now.counts.rows (leaf_list graph.now.inputs.now graph.now.counts.inputs graph.now.latches.now graph.now.counts.latches) marks.new }
{
    for i in 0..graph.counts.latches {
        let l = latch_at(graph.latches, i);
        if !(claim(graph, l.input, marks) & latch_edges(graph.counts.rows, l)) {
            return Some(i);
        }
    }
    None
}

// Lists 1 and 2. Where all is good, the marks stand for every listed leaf.
pub fn check_leaves(graph: &Graph, marks: &mut [u32]) -> Result<(), Refusal>
    requires lent { LeavesLent (lent_of graph.now) (length marks.old) }
    requires marks { Marks graph.now.counts.rows [] marks.old }
    ensures result_value { told result ≡ first_fault (leaf_stages_of (lent_of graph.now)) }
    ensures marks_unchanged { drop graph.now.counts.rows marks.new ≡ drop graph.now.counts.rows marks.old }
    ensures listed { IsOk result → Marks graph.now.counts.rows (leaf_list graph.now.inputs.now graph.now.counts.inputs graph.now.latches.now graph.now.counts.latches) marks.new }
{
    let first_bad = first_bad_input(graph, marks);
    no_bad_entry(List::Inputs, first_bad)?;
    let first_bad = first_bad_latch(graph, marks);
    no_bad_entry(List::Latches, first_bad)
}
