// What a call on a whole graph starts from: a list of edges given as an argument, or the graph's own roots; and what it answers before it does its work.
// Memory is lent with room beyond the used entries, and a promise speaks of all that is lent: so how many are used stands beside a table.
#![tactic(auto)]

ghost use Rattle.std.specs.Prelude.{◌≡◌, true, ◌*◌, ◌≤◌, length};
ghost use Rattle.graph.specs.Leaves.{used_edge};
ghost use Rattle.graph.specs.Latches.{latch_words};
ghost use Rattle.graph.specs.Graph.{lent_of};
ghost use Rattle.graph.specs.Check.{check_seen};
ghost use Rattle.root_marks.specs.Arguments.{every, args_call};
ghost use Rattle.root_marks.specs.Marking.{mark_edges};
ghost use Rattle.root_marks.specs.Roots.{latch_root, latch_roots, roots_of};
ghost use Rattle.root_marks.specs.Steps.{RootsFit};

use edge::Refusal;
use graph::Graph;
use graph::latch::{Latch, latch_at};
use rows::kinds::NONE;

// Answers 1 to 4 of a call on a whole graph: `room` says that the call's own slices are right, and `good` that no argument is wrong.
pub fn asked(graph: &Graph, room: bool, good: bool, marks: &mut [u32]) -> Result<(), Refusal>
    ensures { check_seen result marks.new ≡ args_call room good (lent_of graph.now) marks.old }
{
    if !room {
        return Err(Refusal::BadSizes);
    }
    graph.check(marks)?;
    if good {
        Ok(())
    } else {
        Err(Refusal::BadArgument)
    }
}

// Marks the rows of the edges.
pub fn mark_edges(edges: &[u32], marks: &mut [u32])
    requires { every (used_edge (length marks.old)) edges.now ≡ true }
    ensures { marks.new ≡ mark_edges edges.now marks.old }
{
    for e in edges {
        let row = (e / 2) as usize;
        marks[row] = 1;
    }
}

// Marks the rows of a latch's next, and of its init where it has one.
fn mark_latch(l: Latch, marks: &mut [u32])
    requires { every (used_edge (length marks.old)) (latch_root l) ≡ true }
    ensures { marks.new ≡ mark_edges (latch_root l) marks.old }
{
    let x = (l.next / 2) as usize;
    marks[x] = 1;
    if l.init == NONE {
        return;
    }
    let y = (l.init / 2) as usize;
    marks[y] = 1;
}

// The same of the first n latches.
fn mark_latches(latches: &[u32], n: usize, marks: &mut [u32])
    requires n_in_bounds { latch_words * n ≤ length latches.now }
    requires n_value { every (used_edge (length marks.old)) (latch_roots latches.now n) ≡ true }
    ensures { marks.new ≡ mark_edges (latch_roots latches.now n) marks.old }
{
    for i in 0..n {
        mark_latch(latch_at(latches, i), marks);
    }
}

// Marks the rows of the graph's own roots.
pub fn mark_roots(graph: &Graph, marks: &mut [u32])
    requires roots_fit { RootsFit (lent_of graph.now) }
    requires roots_used { every (used_edge (length marks.old)) (roots_of (lent_of graph.now)) ≡ true }
    ensures { marks.new ≡ mark_edges (roots_of (lent_of graph.now)) marks.old }
{
    let counts = graph.counts;
    mark_latches(graph.latches, counts.latches, marks);
    mark_edges(&graph.constraints[..counts.constraints], marks);
    mark_edges(&graph.bads[..counts.bads], marks);
    mark_edges(&graph.outputs[..counts.outputs], marks);
    mark_edges(&graph.edges[..counts.edges], marks);
    mark_edges(&graph.fairness[..counts.fairness], marks);
}
