// A graph with latches in words of its own. It has no other lists than inputs and latches.
use graph::latch::LATCH_WORDS;
use graph::{Counts, Graph};
use output::Tables;
use records::TABLE_SIZE;

// How many words a table of latches has.
pub const LATCHES: usize = LATCH_WORDS * TABLE_SIZE;

#[derive(Clone, Copy, PartialEq, Eq)]
pub struct Circuit {
    pub rows: [u32; 16],
    pub inputs: [u32; 8],
    pub latches: [u32; LATCHES],
    pub counts: Counts,
}

impl Circuit {
    pub fn graph(&self) -> Graph<'_> {
        Graph {
            rows: &self.rows,
            inputs: &self.inputs,
            latches: &self.latches,
            constraints: &[],
            bads: &[],
            outputs: &[],
            ends: &[],
            edges: &[],
            fairness: &[],
            counts: self.counts,
        }
    }

    pub fn tables(&mut self) -> Tables<'_> {
        Tables {
            rows: self.rows.as_mut_slice(),
            inputs: self.inputs.as_mut_slice(),
            latches: self.latches.as_mut_slice(),
            constraints: &mut [],
            bads: &mut [],
            outputs: &mut [],
            ends: &mut [],
            edges: &mut [],
            fairness: &mut [],
        }
    }
}
