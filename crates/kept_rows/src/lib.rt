// The rows that a graph's roots reach across latches: which are kept, their new numbers, and writing them in order.
#![tactic(auto)]

pub mod copies;
mod flags;
mod numbers;

ghost use Rattle.std.specs.Prelude.{◌≡◌};
ghost use Rattle.graph.specs.Graph.{lent_of};
ghost use Rattle.kept_rows.specs.Kept.{kept_cone};
ghost use Rattle.kept_rows.specs.Keeping.{new_ids, kept_counts};
ghost use Rattle.kept_rows.specs.Steps.{FlagsReady, IdsThere};

use flags::flag_kept;
use graph::{Counts, Graph};
use numbers::{count_inputs, number};

// The new numbers of the kept rows, in marks that are 0, one for each used row; the counts of the result.
pub fn number_kept(graph: &Graph, marks: &mut [u32]) -> Counts
    requires flags_ready { FlagsReady (lent_of graph.now) marks.old }
    requires ids_there { IdsThere marks.old graph.now.inputs.now graph.now.counts.inputs }
    ensures value { result ≡ kept_counts (kept_cone (lent_of graph.now)) graph.now.inputs.now graph.now.counts }
    ensures marks_after { marks.new ≡ new_ids (kept_cone (lent_of graph.now)) }
{
    flag_kept(graph, marks);
    let kept = number(marks);
    let kept_inputs = count_inputs(&graph.inputs[..graph.counts.inputs], marks);
    Counts {
        rows: kept,
        inputs: kept_inputs,
        ..graph.counts
    }
}
