// Three-valued simulation of a graph: the codes of all rows, the step, and the value of an edge.
// Memory is lent with room beyond the used entries, and a promise speaks of all that is lent: so how many are used stands beside a table.
#![tactic(auto)]

ghost use Rattle.std.specs.Prelude.{◌≡◌};
ghost use Rattle.graph.specs.Graph.{lent_of};
ghost use Rattle.ternary.specs.Calls.{arguments_right, run_seen, run_call, step_seen, step_call, value_seen, value_call};

use edge::Refusal;
use graph::Graph;
use graph::lists::is_used;
use ternary_run::codes::{UNKNOWN, all_codes, edge_code};
use ternary_run::run::{advance, write_values};

// One byte an input and one a latch, each a code?
fn arguments(graph: &Graph, input: &[u8], state: &[u8]) -> bool
    ensures { result ≡ arguments_right graph.now.counts.inputs graph.now.counts.latches input.now state.now }
{
    (input.len() == graph.counts.inputs)
        & (state.len() == graph.counts.latches)
        & all_codes(input)
        & all_codes(state)
}

// The code of every used row, where inputs and latches have the codes given. Wrong lengths or a code above 2: 4.
pub fn ternary_simulate(
    graph: &Graph,
    input: &[u8],
    state: &[u8],
    values: &mut [u8],
    marks: &mut [u32],
) -> Result<(), Refusal>
    ensures { run_seen result values.new marks.new ≡ run_call (lent_of graph.now) input.now state.now values.old marks.old }
{
    if values.len() < graph.counts.rows {
        return Err(Refusal::BadSizes);
    }
    graph.check(marks)?;
    if !arguments(graph, input, state) {
        return Err(Refusal::BadArgument);
    }
    write_values(graph, input, state, values);
    Ok(())
}

// A step: the code of every used row, then each latch takes its next's.
pub fn simulate(
    graph: &Graph,
    input: &[u8],
    state: &mut [u8],
    values: &mut [u8],
    marks: &mut [u32],
) -> Result<(), Refusal>
    ensures { step_seen result state.new values.new marks.new ≡ step_call (lent_of graph.now) input.now state.old values.old marks.old }
{
    ternary_simulate(graph, input, state, values, marks)?;
    advance(graph.latches, graph.counts.latches, values, state);
    Ok(())
}

// The code of an edge, by what a run or a step wrote. An edge not used, or a byte above 2 at its row: 4.
pub fn value(values: &[u8], used: usize, e: u32) -> Result<u8, Refusal>
    ensures { value_seen result ≡ value_call values.now used e }
{
    if (used == 0) | (values.len() < used) {
        return Err(Refusal::BadSizes);
    }
    if !is_used(e, used) {
        return Err(Refusal::BadArgument);
    }
    if UNKNOWN < values[(e / 2) as usize] {
        return Err(Refusal::BadArgument);
    }
    Ok(edge_code(values, e))
}
