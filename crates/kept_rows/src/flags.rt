// The kept rows are flagged. Every latch input is a root, so every latch is crossed: the cone of the roots, the inputs and the nexts is enough.
// Memory is lent with room beyond the used entries, and a promise speaks of all that is lent: so how many are used stands beside a table.
ghost use Rattle.std.specs.Prelude.{◌≡◌, length};
ghost use Rattle.root_marks.specs.Marking.{mark_edges};
ghost use Rattle.graph.specs.Graph.{lent_of};
ghost use Rattle.kept_rows.specs.Kept.{input_edges, kept_cone};
ghost use Rattle.kept_rows.specs.Steps.{InputsReady, FlagsReady};

use cone::below::mark_below;
use graph::Graph;
use graph::latch::latch_at;
use root_marks::mark_roots;

// Marks the inputs of the first n latches.
fn mark_inputs(latches: &[u32], n: usize, marks: &mut [u32])
    requires { InputsReady latches.now n (length marks.old) }
    ensures { marks.new ≡ mark_edges (input_edges latches.now n) marks.old }
{
    for k in 0..n {
        let l = latch_at(latches, k);
        marks[l.input as usize] = 1;
    }
}

// Flags the kept rows, in marks that are 0, one for each used row.
pub fn flag_kept(graph: &Graph, marks: &mut [u32])
    requires { FlagsReady (lent_of graph.now) marks.old }
    ensures { marks.new ≡ kept_cone (lent_of graph.now) }
{
    marks[0] = 1;
    mark_roots(graph, marks);
    mark_inputs(graph.latches, graph.counts.latches, marks);
    mark_below(graph.rows, marks);
}
