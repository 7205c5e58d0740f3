// The rows and lists that are lent to be written.
// Memory is lent with room beyond the used entries, and a promise speaks of all that is lent: so how many are used stands beside a table.
ghost use Rattle.std.specs.Prelude.{◌≡◌};
ghost use Rattle.graph.specs.Graph.{no_counts, lent_of};
ghost use Rattle.output.specs.Tables.{lent_in, SameLists};
ghost use Rattle.output.specs.Room.{room_in};
ghost use Rattle.output.specs.Copying.{copied, copy_of};
ghost use Rattle.output.specs.Steps.{WordsFit, CopyFits};

use crate::write_each;
use graph::latch::LATCH_WORDS;
use graph::{Counts, Graph};

// The rows and lists of a graph, lent to be written. How many of their entries are used is counted apart: the counts go in and come back by value.
#[derive(Drop)]
pub struct Tables<'a> {
    pub rows: &'a mut [u32],
    pub inputs: &'a mut [u32],
    pub latches: &'a mut [u32],
    pub constraints: &'a mut [u32],
    pub bads: &'a mut [u32],
    pub outputs: &'a mut [u32],
    pub ends: &'a mut [u32],
    pub edges: &'a mut [u32],
    pub fairness: &'a mut [u32],
}

impl Tables<'_> {
    // The graph that stands in them, where so many of their entries are used.
    pub fn graph(&self, counts: Counts) -> Graph<'_>
        ensures { lent_of result ≡ lent_in self.now counts }
    {
        Graph {
            rows: self.rows,
            inputs: self.inputs,
            latches: self.latches,
            constraints: self.constraints,
            bads: self.bads,
            outputs: self.outputs,
            ends: self.ends,
            edges: self.edges,
            fairness: self.fairness,
            counts,
        }
    }

    // How many entries there is room for.
    pub fn room(&self) -> Counts
        ensures { result ≡ room_in (lent_in self.now no_counts) }
    {
        Counts {
            rows: self.rows.len() / 2,
            inputs: self.inputs.len(),
            latches: self.latches.len() / LATCH_WORDS,
            constraints: self.constraints.len(),
            bads: self.bads.len(),
            outputs: self.outputs.len(),
            sets: self.ends.len(),
            edges: self.edges.len(),
            fairness: self.fairness.len(),
        }
    }

    // Copies of each list of the graph as many entries as it counts.
    pub fn copy(&mut self, graph: &Graph)
        requires { CopyFits (lent_of graph.now) (lent_in self.old graph.now.counts) graph.now.counts }
        ensures same_lists { SameLists self.new self.old }
        ensures copied { lent_in self.new graph.now.counts ≡ copy_of graph.now.counts (lent_of graph.now) (lent_in self.old graph.now.counts) }
    {
        let n = graph.counts;
        copy_words(self.rows, graph.rows, 2 * n.rows);
        copy_words(self.inputs, graph.inputs, n.inputs);
        copy_words(self.latches, graph.latches, LATCH_WORDS * n.latches);
        copy_words(self.constraints, graph.constraints, n.constraints);
        copy_words(self.bads, graph.bads, n.bads);
        copy_words(self.outputs, graph.outputs, n.outputs);
        copy_words(self.ends, graph.ends, n.sets);
        copy_words(self.edges, graph.edges, n.edges);
        copy_words(self.fairness, graph.fairness, n.fairness);
    }
}

// Copies the first n words of a list. Word by word: `copy_from_slice` would have the archives ask their caller for `memmove`.
pub fn copy_words(out: &mut [u32], list: &[u32], n: usize)
    requires { WordsFit out.old list.now n }
    ensures { out.new ≡ copied out.old list.now n }
{
    write_each(out, 0, &list[..n], |word| word);
}
