// The rows of the new latch: the same steps count them and write them.
// Memory is lent with room beyond the used entries, and a promise speaks of all that is lent: so how many are used stands beside a table.
ghost use Rattle.std.specs.Prelude.{◌≡◌, [], ◌≤◌, ◌+◌, length};
ghost use Rattle.rows.specs.Sizes.{max_rows, max_entries};
ghost use Rattle.graph.specs.Graph.{lent_of};
ghost use Rattle.gates.specs.Steps.{step_limit};
ghost use Rattle.gates.specs.Gates.{state_of};
ghost use Rattle.aig_move.specs.Making.{next_of, guard_of, making_of};
ghost use Rattle.aig_move.specs.Moving.{making};
ghost use Rattle.aig_move.specs.Steps.{making_seen};
ghost use Rattle.aig_move.specs.Steps.{MakeReady};

use gates::lists::add_list;
use gates::{Grown, add_and, add_row};
use graph::Graph;
use rows::kinds::NONE;

// How many rows are used, the latch's next, and the first bad and output by it.
#[derive(Clone, Copy)]
pub struct Made {
    pub used: usize,
    pub next: u32,
    pub bad: u32,
    pub output: u32,
}

// Adds a leaf, and the AND of it and all constraints.
fn add_next(rows: &mut [u32], used: usize, constraints: &[u32]) -> Grown
    requires used_le_max_rows { used ≤ max_rows }
    requires constraints_len_bound { length constraints.now ≤ max_entries }
    ensures { state_of rows.new result ≡ next_of rows.old used constraints.now }
{
    add_row(rows, used, NONE, 0);
    let all = add_list(rows, used + 1, false, false, constraints);
    add_and(rows, all.used, 2 * (used as u32), all.edge)
}

// Adds the AND of next and the first edge of a list, where it has one.
fn add_guard(rows: &mut [u32], used: usize, next: u32, list: &[u32]) -> Grown
    requires { used ≤ step_limit }
    ensures { state_of rows.new result ≡ guard_of rows.old used next list.now }
{
    match list.first() {
        None => Grown { used, edge: 0 },
        Some(first) => add_and(rows, used, next, *first),
    }
}

fn make_rows(
    rows: &mut [u32],
    used: usize,
    constraints: &[u32],
    bads: &[u32],
    outputs: &[u32],
) -> Made
    requires used_le_max_rows { used ≤ max_rows }
    requires constraints_len_bound { length constraints.now ≤ max_entries }
    ensures { making_seen rows.new result ≡ making_of rows.old used constraints.now bads.now outputs.now }
{
    let next = add_next(rows, used, constraints);
    let bad = add_guard(rows, next.used, next.edge, bads);
    let output = add_guard(rows, bad.used, next.edge, outputs);
    Made {
        used: output.used,
        next: next.edge,
        bad: bad.edge,
        output: output.edge,
    }
}

// The same of the entries that the graph counts.
pub fn make(rows: &mut [u32], graph: &Graph) -> Made
    requires { MakeReady (lent_of graph.now) }
    ensures { making_seen rows.new result ≡ making (lent_of graph.now) rows.old }
{
    let counts = graph.counts;
    make_rows(
        rows,
        counts.rows,
        &graph.constraints[..counts.constraints],
        &graph.bads[..counts.bads],
        &graph.outputs[..counts.outputs],
    )
}

// How many rows are used afterwards: counted on no rows.
pub fn count_rows(graph: &Graph) -> usize
    requires { MakeReady (lent_of graph.now) }
    ensures { result ≡ (making (lent_of graph.now) []).used }
{
    make(&mut [], graph).used
}
