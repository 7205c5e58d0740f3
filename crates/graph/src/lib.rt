// A graph as it is lent, and the check of it that every call on a whole graph begins with: answers 1, 2 and 3 of document 01.
#![tactic(auto)]

pub mod contents;
mod justice;
pub mod latch;
pub mod leaves;
pub mod lists;
pub mod marks;
pub mod search;

ghost use Rattle.std.specs.Prelude.{◌≡◌, true, length};
ghost use Rattle.edge.specs.Answers.{told};
ghost use Rattle.graph.specs.Graph.{no_counts, lent_of, sizes_right};
ghost use Rattle.graph.specs.Check.{contents, cleared, check_seen, check_call};

use contents::check_stages;
use edge::Refusal;
use latch::LATCH_WORDS;
use marks::clear;
use rows::sizes::{MAX_ENTRIES, fits, rows_fit};

// How many rows are used, and how many entries of each list. Justice is sets, each an end, and their edges.
#[derive(Clone, Copy, PartialEq, Eq)]
pub struct Counts {
    pub rows: usize,
    pub inputs: usize,
    pub latches: usize,
    pub constraints: usize,
    pub bads: usize,
    pub outputs: usize,
    pub sets: usize,
    pub edges: usize,
    pub fairness: usize,
}

// Nothing is counted: where the lists of an output graph start. By its name in the promises, and so no `Default`.
pub fn no_counts() -> Counts
    ensures { result ≡ no_counts }
{
    Counts {
        rows: 0,
        inputs: 0,
        latches: 0,
        constraints: 0,
        bads: 0,
        outputs: 0,
        sets: 0,
        edges: 0,
        fairness: 0,
    }
}

// A graph as it is lent: the words of each list, used or not, and how many of them are used.
#[derive(Clone, Copy)]
pub struct Graph<'a> {
    pub rows: &'a [u32],
    pub inputs: &'a [u32],
    pub latches: &'a [u32],
    pub constraints: &'a [u32],
    pub bads: &'a [u32],
    pub outputs: &'a [u32],
    pub ends: &'a [u32],
    pub edges: &'a [u32],
    pub fairness: &'a [u32],
    pub counts: Counts,
}

impl Graph<'_> {
    // Answer 1 is not due: every count is within its room, every room within its limit, and so many marks cover the used rows.
    pub fn sizes_right(&self, marks: usize) -> bool
        ensures { result ≡ sizes_right (lent_of self.now) marks }
    {
        let counts = self.counts;
        rows_fit(counts.rows, self.rows)
            & (counts.rows <= marks)
            & fits(counts.inputs, self.inputs.len(), MAX_ENTRIES)
            & fits(
                counts.latches,
                self.latches.len() / LATCH_WORDS,
                MAX_ENTRIES,
            )
            & fits(counts.constraints, self.constraints.len(), MAX_ENTRIES)
            & fits(counts.bads, self.bads.len(), MAX_ENTRIES)
            & fits(counts.outputs, self.outputs.len(), MAX_ENTRIES)
            & fits(counts.sets, self.ends.len(), MAX_ENTRIES)
            & fits(counts.edges, self.edges.len(), MAX_ENTRIES)
            & fits(counts.fairness, self.fairness.len(), MAX_ENTRIES)
    }

    // Answers 2 and 3, where the sizes are right.
    pub fn check_contents(&self, marks: &mut [u32]) -> Result<(), Refusal>
        requires { sizes_right (lent_of self.now) (length marks.old) ≡ true }
        ensures result_value { told result ≡ contents (lent_of self.now) }
        ensures marks_after { marks.new ≡ cleared self.now.counts.rows marks.old }
    {
        let used = self.counts.rows;
        clear(marks, used);
        let answer = check_stages(self, marks);
        clear(marks, used);
        answer
    }

    // Is this a well-formed graph? Done, or 1, 2 or 3 with the place of the first fault.
    pub fn check(&self, marks: &mut [u32]) -> Result<(), Refusal>
        ensures { check_seen result marks.new ≡ check_call (lent_of self.now) marks.old }
    {
        if !self.sizes_right(marks.len()) {
            return Err(Refusal::BadSizes);
        }
        self.check_contents(marks)
    }
}
