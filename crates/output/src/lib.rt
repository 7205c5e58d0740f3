// Writing a graph's words into lists that are lent for them: whether there is room, a copy, and what a call that writes a graph answers first. An output graph is lent as room alone: its
// old words and counts are not looked at.
#![tactic(auto)]

mod tables;

ghost use Rattle.std.specs.Prelude.{ℕ, ◌≡◌, ◌+◌, ◌≤◌, length};
ghost use Rattle.graph.specs.Graph.{lent_of};
ghost use Rattle.graph.specs.Check.{check_seen};
ghost use Rattle.output.specs.Room.{limits_in, fits_in};
ghost use Rattle.output.specs.Asking.{asked_in};
ghost use Rattle.output.specs.Writing.{written, each_of};
ghost use Rattle.output.specs.Steps.{TakesEach, GivesEach};

use edge::Refusal;
use graph::{Counts, Graph};
use rows::sizes::{MAX_ENTRIES, MAX_ROWS};
pub use tables::{Tables, copy_words};

// Does room for so many entries pass no limit?
pub fn within(room: Counts) -> bool
    ensures { result ≡ limits_in room }
{
    (room.rows <= MAX_ROWS)
        & (room.inputs <= MAX_ENTRIES)
        & (room.latches <= MAX_ENTRIES)
        & (room.constraints <= MAX_ENTRIES)
        & (room.bads <= MAX_ENTRIES)
        & (room.outputs <= MAX_ENTRIES)
        & (room.sets <= MAX_ENTRIES)
        & (room.edges <= MAX_ENTRIES)
        & (room.fairness <= MAX_ENTRIES)
}

// Does a graph of these counts fit?
pub fn fits(room: Counts, need: Counts) -> bool
    ensures { result ≡ fits_in room need }
{
    (need.rows <= room.rows)
        & (need.inputs <= room.inputs)
        & (need.latches <= room.latches)
        & (need.constraints <= room.constraints)
        & (need.bads <= room.bads)
        & (need.outputs <= room.outputs)
        & (need.sets <= room.sets)
        & (need.edges <= room.edges)
        & (need.fairness <= room.fairness)
}

// Writes what f makes of each word of the list, from place `at` on.
pub fn write_each<F: Fn(u32) -> u32>(out: &mut [u32], at: usize, list: &[u32], f: F)
    requires room { at + length list.now ≤ length out.old }
    requires takes { TakesEach F.Fn f list.now }
    ensures { (of : ℕ → ℕ) → GivesEach F.Fn f of → out.new ≡ written out.old at (each_of of list.now) (length list.now) }
{
    for (j, word) in list.iter().enumerate() {
        out[at + j] = f(*word);
    }
}

// Answers 1 to 4 of a call that writes a graph into so much room: of the graph that is given, and `good` where no argument is wrong.
pub fn asked(graph: &Graph, good: bool, room: Counts, marks: &mut [u32]) -> Result<(), Refusal>
    ensures { check_seen result marks.new ≡ asked_in good (lent_of graph.now) room marks.old }
{
    root_marks::asked(graph, within(room), good, marks)
}
