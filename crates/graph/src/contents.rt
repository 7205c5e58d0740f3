// Answers 2 and 3, stage by stage. A further stage goes behind the lists: there the marks stand for every listed leaf still.
// Memory is lent with room beyond the used entries, and a promise speaks of all that is lent: so how many are used stands beside a table.
ghost use Rattle.std.specs.Prelude.{◌≡◌, [], ◌*◌, ◌≤◌, length, drop};
ghost use Rattle.edge.specs.Answers.{told};
ghost use Rattle.rows.specs.Rows.{row_at};
ghost use Rattle.graph.specs.Search.{first_bad};
ghost use Rattle.graph.specs.Stages.{first_fault};
ghost use Rattle.graph.specs.Leaves.{Marks};
ghost use Rattle.graph.specs.Graph.{lent_of, ListsLent, Sized};
ghost use Rattle.graph.specs.Check.{list_stages_of, contents};

use crate::Graph;
use crate::justice::check_justice;
use crate::leaves::check_leaves;
use crate::lists::check_edges;
use edge::{List, Refusal};
use rows::kinds::is_row;

// The smallest used row that is none of the three kinds at its place. A `for`: a row is two words at its number, and a chain over them is no plainer.
pub fn first_bad_row(rows: &[u32], used: usize) -> Option<usize>
    requires { 2 * used ≤ length rows.now }
    ensures { result ≡ first_bad (row_at rows.now) 0 used }
{
    for i in 0..used {
        if !is_row(i, rows[2 * i], rows[2 * i + 1]) {
            return Some(i);
        }
    }
    None
}

// Lists 3 to 7: the edges.
pub fn check_lists(graph: &Graph) -> Result<(), Refusal>
    requires { ListsLent (lent_of graph.now) }
    ensures { told result ≡ first_fault (list_stages_of (lent_of graph.now)) }
{
    let counts = graph.counts;
    let used = counts.rows;
    check_edges(
        List::Constraints,
        &graph.constraints[..counts.constraints],
        used,
    )?;
    check_edges(List::Bads, &graph.bads[..counts.bads], used)?;
    check_edges(List::Outputs, &graph.outputs[..counts.outputs], used)?;
    check_justice(graph)?;
    check_edges(List::Fairness, &graph.fairness[..counts.fairness], used)
}

// The stages in their order, on cleared marks.
pub fn check_stages(graph: &Graph, marks: &mut [u32]) -> Result<(), Refusal>
    requires sized { Sized (lent_of graph.now) (length marks.old) }
    requires marks { Marks graph.now.counts.rows [] marks.old }
    ensures result_value { told result ≡ contents (lent_of graph.now) }
    ensures marks_unchanged { drop graph.now.counts.rows marks.new ≡ drop graph.now.counts.rows marks.old }
{
    if let Some(row) = first_bad_row(graph.rows, graph.counts.rows) {
        return Err(Refusal::BadRow(row));
    }
    check_leaves(graph, marks)?;
    check_lists(graph)
}
