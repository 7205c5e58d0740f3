// List 6: sets of edges, as ends in one list of edges.
// Memory is lent with room beyond the used entries, and a promise speaks of all that is lent: so how many are used stands beside a table.
ghost use Rattle.std.specs.Prelude.{◌≡◌, [], ◌∷◌, ◌≤◌, ◌<◌, length, None};
ghost use Rattle.edge.specs.Answers.{told};
ghost use Rattle.graph.specs.Search.{first_bad};
ghost use Rattle.graph.specs.Stages.{first_fault};
ghost use Rattle.graph.specs.Justice.{end_is, good_end};
ghost use Rattle.graph.specs.Check.{set_stage, justice_stages};

use crate::Graph;
use crate::lists::is_used;
use crate::search::no_bad_entry;
use edge::{List, Refusal};

// May set s end at `end`, where the one before ends at `before`?
fn is_end(sets: usize, edges: usize, s: usize, before: usize, end: usize) -> bool
    requires { s < sets }
    ensures { result ≡ end_is sets edges s before end }
{
    (before <= end) & (end <= edges) & ((s + 1 != sets) | (end == edges))
}

fn first_bad_end(ends: &[u32], sets: usize, edges: usize) -> Option<usize>
    requires { sets ≤ length ends.now }
    ensures { result ≡ first_bad (good_end ends.now sets edges) 0 sets }
{
    let mut before: usize = 0;
    for s in 0..sets {
        let end = ends[s] as usize;
        if !is_end(sets, edges, s, before, end) {
            return Some(s);
        }
        before = end;
    }
    None
}

// The edges of the sets, whose ends are good: the search goes set by set and stops at the first edge whose row is not used.
fn check_sets(graph: &Graph) -> Result<(), Refusal>
    requires lent { (graph.now.counts.sets ≤ length graph.now.ends.now) × (graph.now.counts.edges ≤ length graph.now.edges.now) }
    requires sets { 0 < graph.now.counts.sets }
    requires ends { first_bad (good_end graph.now.ends.now graph.now.counts.sets graph.now.counts.edges) 0 graph.now.counts.sets ≡ None }
    ensures { told result ≡ first_fault (set_stage graph.now.counts.rows graph.now.ends.now graph.now.counts.sets graph.now.edges.now graph.now.counts.edges ∷ []) }
{
    let Graph {
        ends,
        edges,
        counts,
        ..
    } = *graph;
    let mut answer = Ok(());
    let mut from: usize = 0;
    'sets: for s in 0..counts.sets {
        let end = ends[s] as usize;
        for k in from..end {
            if !is_used(edges[k], counts.rows) {
                answer = Err(Refusal::BadEntry {
                    list: u8::from(List::Justice),
                    index: s,
                    second: 1 + (k - from),
                });
                break 'sets;
            }
        }
        from = end;
    }
    answer
}

pub fn check_justice(graph: &Graph) -> Result<(), Refusal>
    requires { (graph.now.counts.sets ≤ length graph.now.ends.now) × (graph.now.counts.edges ≤ length graph.now.edges.now) }
    ensures { told result ≡ first_fault (justice_stages graph.now.counts.rows graph.now.ends.now graph.now.counts.sets graph.now.edges.now graph.now.counts.edges) }
{
    let counts = graph.counts;
    if counts.sets == 0 {
        return no_bad_entry(List::Justice, (0 < counts.edges).then_some(0));
    }
    let first_bad = first_bad_end(graph.ends, counts.sets, counts.edges);
    no_bad_entry(List::Justice, first_bad)?;
    check_sets(graph)
}
