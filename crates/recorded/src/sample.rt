// The graphs, built by the constructors in place.
use crate::circuit::{Circuit, LATCHES};
use build_leaves::Added;
use edge::Refusal;
use graph::{Counts, no_counts};
use records::by_lending;
use rows::kinds::NONE;
use std::fmt;

#[derive(Clone, Copy)]
pub enum Sample {
    Inverted,
    Shifted,
    Gated,
}

impl fmt::Display for Sample {
    fn fmt<W: fmt::Write>(&self, f: &mut fmt::Formatter<W>) -> fmt::Result {
        f.write_str(match self {
            Sample::Inverted => "a latch that is its own complement",
            Sample::Shifted => "a shift register",
            Sample::Gated => "a latch behind a gate",
        })
    }
}

impl Sample {
    pub fn circuit(self) -> Result<Circuit, Refusal> {
        let mut circuit = Circuit {
            rows: [0; 16],
            inputs: [0; 8],
            latches: [0; LATCHES],
            counts: no_counts(),
        };
        circuit.counts = match self {
            Sample::Inverted => inverted(&mut circuit.rows, &mut circuit.latches)?,
            Sample::Shifted => shifted(
                &mut circuit.rows,
                &mut circuit.inputs,
                &mut circuit.latches,
            )?,
            Sample::Gated => gated(&mut circuit.rows, &mut circuit.inputs, &mut circuit.latches)?,
        };
        Ok(circuit)
    }
}

// Document 01's M13: "latch 1 with next 3: one unroll makes next 2, no row".
fn inverted(rows: &mut [u32], latches: &mut [u32]) -> Result<Counts, Refusal> {
    let first = build_leaves::new(rows)?;
    let leaf = build_leaves::new_leaf_node(rows, first.counts)?;
    let latch = by_lending::add_latch(rows, latches, leaf.counts, leaf.id, 3, NONE)?;
    Ok(latch.counts)
}

// Latch 2 takes input 1, latch 3 takes latch 2; they start as false and true.
fn shifted(rows: &mut [u32], inputs: &mut [u32], latches: &mut [u32]) -> Result<Counts, Refusal> {
    let first = build_leaves::new(rows)?;
    let input = by_lending::new_input(rows, inputs, first.counts)?;
    let second = by_lending::new_latch(rows, latches, input.counts, 2, 0)?;
    let third = by_lending::new_latch(rows, latches, second.counts, 4, 1)?;
    Ok(third.counts)
}

// Latch 2 takes the complement of gate 3, which is input 1 and latch 2, and starts as the input. A frame takes two rows: the third has no room.
fn gated(rows: &mut [u32], inputs: &mut [u32], latches: &mut [u32]) -> Result<Counts, Refusal> {
    let first = build_leaves::new(rows)?;
    let input = listed_input(rows, inputs, first.counts)?;
    let leaf = build_leaves::new_leaf_node(rows, input.counts)?;
    let gate = build_nodes::new_and_node(rows, leaf.counts, 2, 4)?;
    let latch = by_lending::add_latch(rows, latches, gate.counts, leaf.id, 7, 2)?;
    Ok(latch.counts)
}

// A new leaf, then listed as an input.
fn listed_input(rows: &mut [u32], inputs: &mut [u32], counts: Counts) -> Result<Added, Refusal> {
    let leaf = build_leaves::new_leaf_node(rows, counts)?;
    by_lending::add_input(rows, inputs, leaf.counts, leaf.id)
}
