// The lists of edges.
ghost use Rattle.std.specs.Prelude.{◌≡◌, [], ◌∷◌, length, position, not};
ghost use Rattle.std.specs.List.{list_all};
ghost use Rattle.edge.specs.Answers.{number_of, told};
ghost use Rattle.graph.specs.Search.{first_bad};
ghost use Rattle.graph.specs.Stages.{first_fault};
ghost use Rattle.graph.specs.Leaves.{used_edge, good_edge};
ghost use Rattle.graph.specs.Check.{edge_stage};

use crate::search::no_bad_entry;
use edge::{List, Refusal};

// Is it an edge to a used row?
pub fn is_used(e: u32, used: usize) -> bool
    ensures { result ≡ used_edge used e }
{
    ((e / 2) as usize) < used
}

// Is every edge one to a used row?
pub fn all_used(edges: &[u32], used: usize) -> bool
    ensures { result ≡ list_all (used_edge used) edges.now }
{
    edges.iter().all(|e| is_used(*e, used))
}

// The first of the edges whose row is not used.
pub fn first_bad_edge(edges: &[u32], used: usize) -> Option<usize>
    ensures { result ≡ position (λ e. not (used_edge used e)) edges.now }
{
    edges.iter().position(|e| !is_used(*e, used))
}

// Are the edges of a list to used rows?
pub fn check_edges(list: List, edges: &[u32], used: usize) -> Result<(), Refusal>
    ensures { told result ≡ first_fault (edge_stage used (number_of list) edges.now (length edges.now) ∷ []) }
{
    no_bad_entry(list, first_bad_edge(edges, used))
}
