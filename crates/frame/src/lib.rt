// One frame of `unroll`: a step that `unroll` and `unroll_to` share.
#![tactic(auto)]

mod map;
mod rebuild;

ghost use Rattle.std.specs.Prelude.{◌≡◌, length};
ghost use Rattle.std.specs.Option.{unwrap_or};
ghost use Rattle.graph.specs.Graph.{lent_of};
ghost use Rattle.graph.specs.Check.{cleared};
ghost use Rattle.output.specs.Room.{fits_in};
ghost use Rattle.output.specs.Tables.{lent_in, SameLists};
ghost use Rattle.frame.specs.Frame.{raised as raised_by, framed};
ghost use Rattle.frame.specs.Steps.{need_of, most_of};
ghost use Rattle.frame.specs.Steps.{Addable, FrameRoom};
ghost use Rattle.frame.specs.Call.{FrameReady, frame_seen, frame_call};

use graph::marks::clear;
use graph::{Counts, Graph};
use map::{grow_lists, new_leaves, start_map};
use output::Tables;
use rebuild::{Reached, frame_rows};

// The counts with a frame more.
fn raised(at: Counts, n: Counts, reached: Reached) -> Counts
    requires addable { Addable at }
    requires addable_2 { Addable n }
    ensures { result ≡ raised_by at n reached.used reached.inputs }
{
    Counts {
        rows: reached.used,
        inputs: reached.inputs,
        constraints: at.constraints + n.constraints,
        bads: at.bads + n.bads,
        outputs: at.outputs + n.outputs,
        sets: at.sets + n.sets,
        edges: at.edges + n.edges,
        fairness: at.fairness + n.fairness,
        ..at
    }
}

// The counts that the target would have: the frame is built on no rows and no inputs, so nothing but the marks is written, and they are cleared.
fn needed(target: &Graph, graph: &Graph, marks: &mut [u32]) -> Counts
    requires { FrameReady (lent_of target.now) (lent_of graph.now) (length marks.old) }
    ensures value { result ≡ need_of target.now.counts target.now.latches.now graph.now.rows.now graph.now.counts }
    ensures marks_after { marks.new ≡ cleared graph.now.counts.rows marks.old }
{
    let at = target.counts;
    let n = graph.counts.rows;
    let map = &mut marks[..n];
    start_map(target, map);
    let reached = frame_rows(&mut [], &mut [], at, graph.rows, map);
    clear(marks, n);
    raised(at, graph.counts, reached)
}

// The most that the target's counts can be: folding only saves rows, so each row but row 0 takes one at most. The new inputs are counted, since lists are often lent just as long as they
// must be, and a row for each would be far too many. The marks are cleared.
fn most(target: &Graph, graph: &Graph, marks: &mut [u32]) -> Counts
    requires { FrameReady (lent_of target.now) (lent_of graph.now) (length marks.old) }
    ensures value { result ≡ most_of target.now.counts target.now.latches.now graph.now.rows.now graph.now.counts }
    ensures marks_after { marks.new ≡ cleared graph.now.counts.rows marks.old }
{
    let at = target.counts;
    let n = graph.counts.rows;
    let map = &mut marks[..n];
    start_map(target, map);
    let leaves = new_leaves(graph.rows, map);
    clear(marks, n);
    raised(
        at,
        graph.counts,
        Reached {
            used: at.rows + (n - 1),
            inputs: at.inputs + leaves,
        },
    )
}

// Is there room for a frame? Where the most that it can take fits, the need is not counted: that is as much work as the frame itself. The marks are cleared.
fn fits(room: Counts, target: &Graph, graph: &Graph, marks: &mut [u32]) -> bool
    requires { FrameReady (lent_of target.now) (lent_of graph.now) (length marks.old) }
    ensures value { result
        ≡ fits_in room (need_of target.now.counts target.now.latches.now graph.now.rows.now graph.now.counts) }
    ensures marks_after { marks.new ≡ cleared graph.now.counts.rows marks.old }
{
    let most = most(target, graph, marks);
    if output::fits(room, most) {
        return true;
    }
    let need = needed(target, graph, marks);
    output::fits(room, need)
}

// Writes the frame, where there is room for it: the rows and inputs first, then by their map the latches' nexts and the lists. The marks hold the map, and are cleared.
fn write_frame(tables: &mut Tables, counts: Counts, graph: &Graph, marks: &mut [u32]) -> Counts
    requires { FrameRoom (lent_in tables.old counts) (lent_of graph.now) (length marks.old) }
    ensures same_lists { SameLists tables.new tables.old }
    ensures frame_written { lent_in tables.new result ≡ framed (lent_in tables.old counts) (lent_of graph.now) }
    ensures marks_after { marks.new ≡ cleared graph.now.counts.rows marks.old }
{
    let n = graph.counts.rows;
    let map = &mut marks[..n];
    start_map(&tables.graph(counts), map);
    let reached = frame_rows(tables.rows, tables.inputs, counts, graph.rows, map);
    grow_lists(tables, counts, graph, map);
    clear(marks, n);
    raised(counts, graph.counts, reached)
}

// Adds a frame of the graph to the one that stands in the tables, if there is room for it, and answers the counts with it. Else nothing changes. The marks need cover the graph's rows alone,
// and are cleared over them.
pub fn add_frame(
    tables: &mut Tables,
    counts: Counts,
    graph: &Graph,
    marks: &mut [u32],
) -> Option<Counts>
    requires { FrameReady (lent_in tables.old counts) (lent_of graph.now) (length marks.old) }
    ensures same_lists { SameLists tables.new tables.old }
    ensures frame_added { frame_seen result (lent_in tables.new (unwrap_or result counts)) marks.new
        ≡ frame_call (lent_in tables.old counts) (lent_of graph.now) marks.old }
{
    if !fits(tables.room(), &tables.graph(counts), graph, marks) {
        return None;
    }
    Some(write_frame(tables, counts, graph, marks))
}
