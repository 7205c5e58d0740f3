// The check of two graphs, with marks for the larger of them, that every call on two begins with.
#![tactic(auto)]

ghost use Rattle.std.specs.Prelude.{◌≡◌};
ghost use Rattle.graph.specs.Graph.{lent_of};
ghost use Rattle.graph.specs.Check.{check_seen};
ghost use Rattle.two_graphs.specs.Pair.{check_two_call};

use edge::Refusal;
use graph::Graph;
use graph::marks::clear;

// Are both well-formed graphs? Done, or 1 for either, then 2 or 3 of the first, then of the second.
pub fn check_two(graph: &Graph, other: &Graph, marks: &mut [u32]) -> Result<(), Refusal>
    ensures { check_seen result marks.new ≡ check_two_call (lent_of graph.now) (lent_of other.now) marks.old }
{
    let n = marks.len();
    if !(graph.sizes_right(n) & other.sizes_right(n)) {
        return Err(Refusal::BadSizes);
    }
    clear(marks, other.counts.rows);
    graph.check_contents(marks)?;
    other.check_contents(marks)
}
