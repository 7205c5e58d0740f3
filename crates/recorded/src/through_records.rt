// The calls through tables of latch records, which the latches fill.
use crate::circuit::{Circuit, LATCHES};
use edge::Refusal;
use graph::Graph;
use graph::latch::Latch;

pub fn check(circuit: &Circuit) -> Result<(), Refusal> {
    record_bridge::check(&circuit.graph(), &mut [0; LATCHES], &mut [0; 16])
}

// Adds a frame of the graph. A refusal leaves the counts.
pub fn unroll(circuit: &mut Circuit, graph: &Graph) -> Result<(), Refusal> {
    let counts = circuit.counts;
    circuit.counts = record_bridge::unroll(
        &mut circuit.tables(),
        counts,
        graph,
        &mut [0; LATCHES],
        &mut [0; LATCHES],
        &mut [0; 16],
    )?;
    Ok(())
}

// Writes a next, and reads the record again.
pub fn set_next(circuit: &mut Circuit, i: usize, next: u32) -> Result<Latch, Refusal> {
    record_bridge::set_next(&mut circuit.latches, i, next)
}
