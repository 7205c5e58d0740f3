// The cone of influence of rows: all that is reached from them through gates and across latches.
#![tactic(auto)]

mod links;
mod walk;

ghost use Rattle.std.specs.Prelude.{◌≡◌, true, length, replicate};
ghost use Rattle.std.specs.List.{list_all};
ghost use Rattle.graph.specs.Graph.{lent_of};
ghost use Rattle.root_marks.specs.Arguments.{every};
ghost use Rattle.coi.specs.Coi.{steps, searched, used_row};
ghost use Rattle.coi.specs.Steps.{CoiReady};
ghost use Rattle.coi.specs.Call.{coi_seen, coi_call};

use edge::Refusal;
use graph::Graph;
use graph::marks::clear;
use links::link;
use rows::sizes::MAX_ENTRIES;
use walk::search;

// Is every id that of a used row?
fn ids_used(ids: &[u32], used: usize) -> bool
    ensures { result ≡ list_all (used_row used) ids.now }
{
    ids.iter().all(|id| (*id as usize) < used)
}

// The flags of the cone of influence, one for each used row. The marks are zero before and after, and the stack is after.
fn write(graph: &Graph, ids: &[u32], flags: &mut [u32], marks: &mut [u32], stack: &mut [u32])
    requires coi_ready { CoiReady graph.now.rows.now graph.now.latches.now graph.now.counts.latches (length flags.old) }
    requires ids_value { every (used_row (length flags.old)) ids.now ≡ true }
    requires marks_value { marks.old ≡ replicate (length flags.old) 0 }
    requires stack_len { length stack.old ≡ length flags.old }
    ensures flags_after { flags.new ≡ searched (steps graph.now.rows.now graph.now.latches.now graph.now.counts.latches) (length flags.old) ids.now }
    ensures marks_after { marks.new ≡ replicate (length flags.old) 0 }
    ensures stack_after { stack.new ≡ replicate (length flags.old) 0 }
{
    link(graph, marks);
    search(graph, marks, ids, flags, stack);
    let used = flags.len();
    clear(marks, used);
    clear(stack, used);
}

// Flags row 0, the rows of the ids, and all that is reached from them: a gate's fanins, and from a latch's input the row of its next, not of its init.
// 0 or 1 for each used row. An id that is not used: 4. The stack is a second slice of work marks: it is zero too at exit, except after 1.
pub fn coi(
    graph: &Graph,
    ids: &[u32],
    flags: &mut [u32],
    marks: &mut [u32],
    stack: &mut [u32],
) -> Result<(), Refusal>
    ensures { coi_seen result flags.new marks.new stack.new ≡ coi_call (lent_of graph.now) ids.now flags.old marks.old stack.old }
{
    let used = graph.counts.rows;
    let room = (used <= flags.len()) & (used <= stack.len()) & (ids.len() <= MAX_ENTRIES);
    // Only after 1 is the stack untouched, so the sizes are asked before it is cleared.
    if !(room & graph.sizes_right(marks.len())) {
        return Err(Refusal::BadSizes);
    }
    clear(stack, used);
    graph.check_contents(marks)?;
    if !ids_used(ids, used) {
        return Err(Refusal::BadArgument);
    }
    write(
        graph,
        ids,
        &mut flags[..used],
        &mut marks[..used],
        &mut stack[..used],
    );
    Ok(())
}
