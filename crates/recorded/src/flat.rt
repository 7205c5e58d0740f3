// The same calls on flat words.
use crate::circuit::Circuit;
use edge::Refusal;
use graph::Graph;
use graph::latch::{LATCH_WORDS, latch_at, with_next, write_latch};

pub fn check(circuit: &Circuit) -> Result<(), Refusal> {
    circuit.graph().check(&mut [0; 16])
}

// Adds a frame of the graph. A refusal leaves the counts.
pub fn unroll(circuit: &mut Circuit, graph: &Graph) -> Result<(), Refusal> {
    let counts = circuit.counts;
    circuit.counts = unroll::unroll(&mut circuit.tables(), counts, graph, &mut [0; 16])?;
    Ok(())
}

// Writes a next. Past the latches nothing is written.
pub fn set_next(circuit: &mut Circuit, i: usize, next: u32) {
    let latches = &mut circuit.latches;
    if i < latches.len() / LATCH_WORDS {
        let latch = latch_at(latches, i);
        write_latch(latches, i, with_next(latch, next));
    }
}
