// The walk from row to row, each visited once: a row waits on the stack until its steps are made.
ghost use Rattle.std.specs.Prelude.{◌≡◌, true, ◌<◌, length};
ghost use Rattle.root_marks.specs.Arguments.{every};
ghost use Rattle.coi.specs.Coi.{visited, visited_all, drained, searched, used_row};
ghost use Rattle.coi.specs.Steps.{work_of, turns_left, Going, steps_by, Known};

use graph::Graph;
use graph::latch::latch_at;
use graph::marks::clear;
use rows::kinds::is_gate;

// The stack is lent, and so is no `Vec`: how many rows wait stands beside it.
// Flags row j and puts it on the stack, unless it is flagged already. Returns how many rows wait.
fn visit(j: usize, flags: &mut [u32], stack: &mut [u32], count: usize) -> usize
    requires j_in_bounds { j < length flags.old }
    requires going { Going (length flags.old) (length stack.old) (work_of flags.old stack.old count) }
    ensures { work_of flags.new stack.new result ≡ visited j (work_of flags.old stack.old count) }
{
    if flags[j] == 1 {
        return count;
    }
    flags[j] = 1;
    stack[count] = j as u32;
    count + 1
}

fn visit_all(ids: &[u32], flags: &mut [u32], stack: &mut [u32], first: usize) -> usize
    requires ids_value { every (used_row (length flags.old)) ids.now ≡ true }
    requires going { Going (length flags.old) (length stack.old) (work_of flags.old stack.old first) }
    ensures { work_of flags.new stack.new result ≡ visited_all ids.now (work_of flags.old stack.old first) }
{
    let mut count = first;
    for id in ids {
        count = visit(*id as usize, flags, stack, count);
    }
    count
}

// Visits the rows one step from row i.
fn step(
    graph: &Graph,
    marks: &[u32],
    i: usize,
    flags: &mut [u32],
    stack: &mut [u32],
    count: usize,
) -> usize
    requires i_in_bounds { i < length flags.old }
    requires known { Known graph.now.rows.now graph.now.latches.now marks.now (length flags.old) }
    requires going { Going (length flags.old) (length stack.old) (work_of flags.old stack.old count) }
    ensures { work_of flags.new stack.new result
        ≡ visited_all (steps_by graph.now.rows.now graph.now.latches.now marks.now i) (work_of flags.old stack.old count) }
{
    let a = graph.rows[2 * i];
    let b = graph.rows[2 * i + 1];
    if is_gate(i, a, b) {
        let n = visit((a / 2) as usize, flags, stack, count);
        return visit((b / 2) as usize, flags, stack, n);
    }
    let at = marks[i] as usize;
    if at == 0 {
        return count;
    }
    let l = latch_at(graph.latches, at - 1);
    visit((l.next / 2) as usize, flags, stack, count)
}

// Makes the steps of the waiting rows until none waits.
fn drain(graph: &Graph, marks: &[u32], flags: &mut [u32], stack: &mut [u32], first: usize)
    requires known { Known graph.now.rows.now graph.now.latches.now marks.now (length flags.old) }
    requires going { Going (length flags.old) (length stack.old) (work_of flags.old stack.old first) }
    ensures { flags.new
        ≡ drained (steps_by graph.now.rows.now graph.now.latches.now marks.now) (turns_left (work_of flags.old stack.old first)) flags.old (work_of flags.old stack.old first).waiting }
{
    let mut count = first;
    // A turn takes one row and adds those that its steps reach first, so how many turns there are is known only at the end: no range counts them.
    while 0 < count {
        count -= 1;
        let i = stack[count] as usize;
        count = step(graph, marks, i, flags, stack, count);
    }
}

// Flags row 0, the rows of the ids, and every row that is reached from them. What the flags held does not matter.
pub fn search(graph: &Graph, marks: &[u32], ids: &[u32], flags: &mut [u32], stack: &mut [u32])
    requires known { Known graph.now.rows.now graph.now.latches.now marks.now (length flags.old) }
    requires ids_value { every (used_row (length flags.old)) ids.now ≡ true }
    requires stack_len { length stack.old ≡ length flags.old }
    ensures { flags.new
        ≡ searched (steps_by graph.now.rows.now graph.now.latches.now marks.now) (length flags.old) ids.now }
{
    let used = flags.len();
    clear(flags, used);
    let first = visit(0, flags, stack, 0);
    let count = visit_all(ids, flags, stack, first);
    drain(graph, marks, flags, stack, count);
}
