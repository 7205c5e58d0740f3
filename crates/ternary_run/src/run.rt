// The run and the step, where everything is as it must be.
// Memory is lent with room beyond the used entries, and a promise speaks of all that is lent: so how many are used stands beside a table.
ghost use Rattle.std.specs.Prelude.{◌≡◌, ◌++◌, ◌+◌, ◌*◌, ◌≤◌, ◌<◌, length, drop};
ghost use Rattle.graph.specs.Latches.{latch_words};
ghost use Rattle.graph.specs.Graph.{lent_of};
ghost use Rattle.ternary_run.specs.Codes.{Codes};
ghost use Rattle.ternary_run.specs.Run.{blank, placed, input_row, latch_row, next_row, row3, rows3, run, nexts};
ghost use Rattle.ternary_run.specs.Steps.{Within, RunReady};

use crate::codes::{UNKNOWN, and3, edge_code};
use graph::Graph;
use graph::latch::latch_at;
use rows::kinds::is_gate;

// Row 0 is false, and nothing else is known.
fn blank(values: &mut [u8], used: usize)
    requires { (0 < used) × (used ≤ length values.old) }
    ensures { values.new ≡ blank used ++ drop used values.old }
{
    values[..used].fill(UNKNOWN);
    values[0] = 0;
}

fn place_inputs(inputs: &[u32], input: &[u8], values: &mut [u8])
    requires { (length inputs.now ≡ length input.now) × Within (input_row inputs.now) (length inputs.now) (length values.old) }
    ensures { values.new ≡ placed (input_row inputs.now) input.now (length inputs.now) values.old }
{
    for (x, code) in inputs.iter().zip(input) {
        values[*x as usize] = *code;
    }
}

// A latch is three words, so it is read by its place, and not side by side with its code as an input is.
fn place_latches(latches: &[u32], state: &[u8], values: &mut [u8])
    requires { (latch_words * length state.now ≤ length latches.now) × Within (latch_row latches.now) (length state.now) (length values.old) }
    ensures { values.new ≡ placed (latch_row latches.now) state.now (length state.now) values.old }
{
    for (i, code) in state.iter().enumerate() {
        let x = latch_at(latches, i).input as usize;
        values[x] = *code;
    }
}

// Row i: a gate by the rows below it, any other row as it stands.
fn row_code(rows: &[u32], i: usize, values: &[u8]) -> u8
    requires i_in_bounds { (2 * i + 1 < length rows.now) × (i < length values.now) }
    requires codes { Codes i values.now }
    ensures { result ≡ row3 rows.now values.now i values.now }
{
    let a = rows[2 * i];
    let b = rows[2 * i + 1];
    if is_gate(i, a, b) {
        return and3(edge_code(values, a), edge_code(values, b));
    }
    values[i]
}

// Every gate, row after row: its edges are to rows below it.
fn settle(rows: &[u32], used: usize, values: &mut [u8])
    requires used_in_bounds { (2 * used ≤ length rows.now) × (used ≤ length values.old) }
    requires codes { Codes used values.old }
    ensures { values.new ≡ rows3 rows.now values.old used ++ drop used values.old }
{
    for i in 0..used {
        let v = row_code(rows, i, values);
        values[i] = v;
    }
}

// The code of every used row.
pub fn write_values(graph: &Graph, input: &[u8], state: &[u8], values: &mut [u8])
    requires { RunReady (lent_of graph.now) input.now state.now values.old }
    ensures { values.new ≡ run (lent_of graph.now) input.now state.now ++ drop graph.now.counts.rows values.old }
{
    let counts = graph.counts;
    blank(values, counts.rows);
    place_inputs(&graph.inputs[..counts.inputs], input, values);
    place_latches(graph.latches, state, values);
    settle(graph.rows, counts.rows, values);
}

// Each latch takes its next's value.
pub fn advance(latches: &[u32], n: usize, values: &[u8], state: &mut [u8])
    requires { (latch_words * n ≤ length latches.now) × (n ≤ length state.old) × Within (next_row latches.now) n (length values.now) }
    ensures { state.new ≡ nexts latches.now values.now n ++ drop n state.old }
{
    for i in 0..n {
        let l = latch_at(latches, i);
        state[i] = edge_code(values, l.next);
    }
}
