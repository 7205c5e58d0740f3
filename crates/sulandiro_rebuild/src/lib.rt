// The calls that rebuild a graph. `told` takes the number and the place of the answer, then the nine counts.
// Each list is a parameter of its own: the C interface.
#![tactic(auto)]

ghost use Rattle.std.specs.Prelude.{◌≡◌};
ghost use Rattle.graph.specs.Graph.{lent};
ghost use Rattle.sulandiro_words.specs.Words.{counts_in};
ghost use Rattle.merge.specs.Call.{merge_call};
ghost use Rattle.reencode.specs.Call.{reencode_call};
ghost use Rattle.refine.specs.Call.{refine_call};
ghost use Rattle.sulandiro_words.specs.Told.{told_seen, told_of, told_listed, told_listed_of};

use graph::Graph;
use output::Tables;
use sulandiro_words::{counts_in, tell_rebuilt};

// `merge::merge`.
#[unsafe(no_mangle)]
pub extern "C" fn sulandiro_merge(
    rows: &mut [u32],
    inputs: &mut [u32],
    latches: &mut [u32],
    constraints: &mut [u32],
    bads: &mut [u32],
    outputs: &mut [u32],
    ends: &mut [u32],
    edges: &mut [u32],
    fairness: &mut [u32],
    counts: &[u64],
    rows2: &[u32],
    inputs2: &[u32],
    latches2: &[u32],
    constraints2: &[u32],
    bads2: &[u32],
    outputs2: &[u32],
    ends2: &[u32],
    edges2: &[u32],
    fairness2: &[u32],
    counts2: &[u64],
    marks: &mut [u32],
    told: &mut [u64],
)
    ensures { told_seen rows.new inputs.new latches.new constraints.new bads.new outputs.new ends.new edges.new fairness.new marks.new told.new
        ≡ told_of (merge_call
        (lent rows.old inputs.old latches.old constraints.old bads.old outputs.old ends.old edges.old fairness.old (counts_in counts.now))
        (lent rows2.now inputs2.now latches2.now constraints2.now bads2.now outputs2.now ends2.now edges2.now fairness2.now (counts_in counts2.now))
        marks.old) told.old }
{
    let n = counts_in(counts);
    let n2 = counts_in(counts2);
    let mut tables = Tables {
        rows,
        inputs,
        latches,
        constraints,
        bads,
        outputs,
        ends,
        edges,
        fairness,
    };
    let other = Graph {
        rows: rows2,
        inputs: inputs2,
        latches: latches2,
        constraints: constraints2,
        bads: bads2,
        outputs: outputs2,
        ends: ends2,
        edges: edges2,
        fairness: fairness2,
        counts: n2,
    };
    let r = merge::merge(&mut tables, n, &other, marks);
    tell_rebuilt(told, r, n);
}

// `reencode::reencode`.
#[unsafe(no_mangle)]
pub extern "C" fn sulandiro_reencode(
    rows: &[u32],
    inputs: &[u32],
    latches: &[u32],
    constraints: &[u32],
    bads: &[u32],
    outputs: &[u32],
    ends: &[u32],
    edges: &[u32],
    fairness: &[u32],
    counts: &[u64],
    rows2: &mut [u32],
    inputs2: &mut [u32],
    latches2: &mut [u32],
    constraints2: &mut [u32],
    bads2: &mut [u32],
    outputs2: &mut [u32],
    ends2: &mut [u32],
    edges2: &mut [u32],
    fairness2: &mut [u32],
    marks: &mut [u32],
    told: &mut [u64],
)
    ensures { told_seen rows2.new inputs2.new latches2.new constraints2.new bads2.new outputs2.new ends2.new edges2.new fairness2.new marks.new told.new
        ≡ told_of (reencode_call
        (lent rows.now inputs.now latches.now constraints.now bads.now outputs.now ends.now edges.now fairness.now (counts_in counts.now))
        (lent rows2.old inputs2.old latches2.old constraints2.old bads2.old outputs2.old ends2.old edges2.old fairness2.old (counts_in counts.now))
        marks.old) told.old }
{
    let n = counts_in(counts);
    let graph = Graph {
        rows,
        inputs,
        latches,
        constraints,
        bads,
        outputs,
        ends,
        edges,
        fairness,
        counts: n,
    };
    let mut tables = Tables {
        rows: rows2,
        inputs: inputs2,
        latches: latches2,
        constraints: constraints2,
        bads: bads2,
        outputs: outputs2,
        ends: ends2,
        edges: edges2,
        fairness: fairness2,
    };
    let r = reencode::reencode(&graph, &mut tables, marks);
    tell_rebuilt(told, r, n);
}

// `refine::coi_refine`.
#[unsafe(no_mangle)]
pub extern "C" fn sulandiro_coi_refine(
    rows: &[u32],
    inputs: &[u32],
    latches: &[u32],
    constraints: &[u32],
    bads: &[u32],
    outputs: &[u32],
    ends: &[u32],
    edges: &[u32],
    fairness: &[u32],
    counts: &[u64],
    rows2: &mut [u32],
    inputs2: &mut [u32],
    latches2: &mut [u32],
    constraints2: &mut [u32],
    bads2: &mut [u32],
    outputs2: &mut [u32],
    ends2: &mut [u32],
    edges2: &mut [u32],
    fairness2: &mut [u32],
    old: &mut [u32],
    marks: &mut [u32],
    told: &mut [u64],
)
    ensures { told_listed (told_seen rows2.new inputs2.new latches2.new constraints2.new bads2.new outputs2.new ends2.new edges2.new fairness2.new marks.new told.new) old.new
        ≡ told_listed_of (refine_call
        (lent rows.now inputs.now latches.now constraints.now bads.now outputs.now ends.now edges.now fairness.now (counts_in counts.now))
        (lent rows2.old inputs2.old latches2.old constraints2.old bads2.old outputs2.old ends2.old edges2.old fairness2.old (counts_in counts.now))
        old.old marks.old) told.old }
{
    let n = counts_in(counts);
    let graph = Graph {
        rows,
        inputs,
        latches,
        constraints,
        bads,
        outputs,
        ends,
        edges,
        fairness,
        counts: n,
    };
    let mut tables = Tables {
        rows: rows2,
        inputs: inputs2,
        latches: latches2,
        constraints: constraints2,
        bads: bads2,
        outputs: outputs2,
        ends: ends2,
        edges: edges2,
        fairness: fairness2,
    };
    let r = refine::coi_refine(&graph, &mut tables, old, marks);
    tell_rebuilt(told, r, n);
}
