// All bads become one.
// Memory is lent with room beyond the used entries, and a promise speaks of all that is lent: so how many are used stands beside a table.
ghost use Rattle.std.specs.Prelude.{◌≡◌, true, false, [], take};
ghost use Rattle.edge.specs.Answers.{value_or};
ghost use Rattle.graph.specs.Graph.{lent, lent_of};
ghost use Rattle.graph.specs.Check.{check_seen};
ghost use Rattle.gates.specs.Gates.{state_of};
ghost use Rattle.gates.specs.Lists.{list_of};
ghost use Rattle.renumber.specs.Seen.{listed_seen};
ghost use Rattle.property.specs.Compress.{one_bad, compress_checked, compress_call};
ghost use Rattle.property.specs.Steps.{OrReady, CompressReady, Compressing};

use edge::Refusal;
use gates::lists::add_list;
use graph::{Counts, Graph};
use output::copy_words;
use rows::sizes::MAX_ENTRIES;

// So many rows, and one bad.
fn one_bad(counts: Counts, used: usize) -> Counts
    ensures { result ≡ one_bad counts used }
{
    Counts {
        rows: used,
        bads: 1,
        ..counts
    }
}

// Answers 1, 2, 3 and 5.
fn checked(graph: &Graph, old: &[u32], marks: &mut [u32]) -> Result<(), Refusal>
    ensures { check_seen result marks.new ≡ compress_checked (lent_of graph.now) old.now marks.old }
{
    if MAX_ENTRIES < old.len() {
        return Err(Refusal::BadSizes);
    }
    graph.check(marks)?;
    let n = graph.counts.bads;
    // the need is counted by the same step on no rows
    let dry = add_list(&mut [], graph.counts.rows, false, true, &graph.bads[..n]);
    if (dry.used <= graph.rows.len() / 2) & (0 < graph.bads.len()) & (n <= old.len()) {
        Ok(())
    } else {
        Err(Refusal::NoRoom)
    }
}

// Hands back the first n bads, and leaves their or in the first place.
fn write(rows: &mut [u32], used: usize, bads: &mut [u32], n: usize, old: &mut [u32]) -> usize
    requires { CompressReady used bads.old n old.old }
    ensures { Compressing rows.old used bads.old n old.old rows.new bads.new old.new result }
{
    copy_words(old, bads, n);
    let grown = add_list(rows, used, false, true, &bads[..n]);
    bads[0] = grown.edge;
    grown.used
}

// Leaves one bad, the or of all, and hands back the old list. What is changed is lent apart from what is only read: a graph or tables as one value would ask for more.
pub fn compress_property(
    rows: &mut [u32],
    inputs: &[u32],
    latches: &[u32],
    constraints: &[u32],
    bads: &mut [u32],
    outputs: &[u32],
    ends: &[u32],
    edges: &[u32],
    fairness: &[u32],
    counts: Counts,
    old: &mut [u32],
    marks: &mut [u32],
) -> Result<Counts, Refusal>
    ensures { listed_seen result
        (lent rows.new inputs.now latches.now constraints.now bads.new outputs.now ends.now edges.now fairness.now (value_or counts result))
        old.new marks.new
        ≡ compress_call
        (lent rows.old inputs.now latches.now constraints.now bads.old outputs.now ends.now edges.now fairness.now counts)
        old.old marks.old }
{
    let graph = Graph {
        rows,
        inputs,
        latches,
        constraints,
        bads,
        outputs,
        ends,
        edges,
        fairness,
        counts,
    };
    checked(&graph, old, marks)?;
    let used = write(rows, counts.rows, bads, counts.bads, old);
    Ok(one_bad(counts, used))
}
