// The calls on a graph's property. `told` takes the number and the place of the answer, then the nine counts.
// Each list is a parameter of its own: the C interface.
#![tactic(auto)]

ghost use Rattle.std.specs.Prelude.{◌≡◌};
ghost use Rattle.graph.specs.Graph.{lent};
ghost use Rattle.aig_move.specs.Call.{move_call};
ghost use Rattle.property.specs.Compress.{compress_call};
ghost use Rattle.property.specs.GateInit.{gate_init_call};
ghost use Rattle.sulandiro_words.specs.Words.{counts_in};
ghost use Rattle.sulandiro_words.specs.Told.{told_seen, told_of, told_listed, told_listed_of};

use graph::Graph;
use output::Tables;
use sulandiro_words::{counts_in, tell_rebuilt};

// `aig_move::aig_move`.
#[unsafe(no_mangle)]
pub extern "C" fn sulandiro_aig_move(
    rows: &[u32],
    inputs: &[u32],
    latches: &[u32],
    constraints: &[u32],
    bads: &[u32],
    outputs: &[u32],
    ends: &[u32],
    edges: &[u32],
    fairness: &[u32],
    counts: &[u64],
    rows2: &mut [u32],
    inputs2: &mut [u32],
    latches2: &mut [u32],
    constraints2: &mut [u32],
    bads2: &mut [u32],
    outputs2: &mut [u32],
    ends2: &mut [u32],
    edges2: &mut [u32],
    fairness2: &mut [u32],
    marks: &mut [u32],
    told: &mut [u64],
)
    ensures { told_seen rows2.new inputs2.new latches2.new constraints2.new bads2.new outputs2.new ends2.new edges2.new fairness2.new marks.new told.new
        ≡ told_of (move_call
        (lent rows.now inputs.now latches.now constraints.now bads.now outputs.now ends.now edges.now fairness.now (counts_in counts.now))
        (lent rows2.old inputs2.old latches2.old constraints2.old bads2.old outputs2.old ends2.old edges2.old fairness2.old (counts_in counts.now))
        marks.old) told.old }
{
    let n = counts_in(counts);
    let graph = Graph {
        rows,
        inputs,
        latches,
        constraints,
        bads,
        outputs,
        ends,
        edges,
        fairness,
        counts: n,
    };
    let mut tables = Tables {
        rows: rows2,
        inputs: inputs2,
        latches: latches2,
        constraints: constraints2,
        bads: bads2,
        outputs: outputs2,
        ends: ends2,
        edges: edges2,
        fairness: fairness2,
    };
    let r = aig_move::aig_move(&graph, &mut tables, marks);
    tell_rebuilt(told, r, n);
}

// `property::compress_property`.
#[unsafe(no_mangle)]
pub extern "C" fn sulandiro_compress_property(
    rows: &mut [u32],
    inputs: &[u32],
    latches: &[u32],
    constraints: &[u32],
    bads: &mut [u32],
    outputs: &[u32],
    ends: &[u32],
    edges: &[u32],
    fairness: &[u32],
    counts: &[u64],
    old: &mut [u32],
    marks: &mut [u32],
    told: &mut [u64],
)
    ensures { told_listed (told_seen rows.new inputs.now latches.now constraints.now bads.new outputs.now ends.now edges.now fairness.now marks.new told.new) old.new
        ≡ told_listed_of (compress_call
        (lent rows.old inputs.now latches.now constraints.now bads.old outputs.now ends.now edges.now fairness.now (counts_in counts.now))
        old.old marks.old) told.old }
{
    let n = counts_in(counts);
    let compressed = property::compress_property(
        rows,
        inputs,
        latches,
        constraints,
        bads,
        outputs,
        ends,
        edges,
        fairness,
        n,
        old,
        marks,
    );
    tell_rebuilt(told, compressed, n);
}

// `property::gate_init_to_constraint`.
#[unsafe(no_mangle)]
pub extern "C" fn sulandiro_gate_init_to_constraint(
    rows: &mut [u32],
    inputs: &[u32],
    latches: &mut [u32],
    constraints: &mut [u32],
    bads: &[u32],
    outputs: &[u32],
    ends: &[u32],
    edges: &[u32],
    fairness: &[u32],
    counts: &[u64],
    marks: &mut [u32],
    told: &mut [u64],
)
    ensures { told_seen rows.new inputs.now latches.new constraints.new bads.now outputs.now ends.now edges.now fairness.now marks.new told.new
        ≡ told_of (gate_init_call
        (lent rows.old inputs.now latches.old constraints.old bads.now outputs.now ends.now edges.now fairness.now (counts_in counts.now))
        marks.old) told.old }
{
    let n = counts_in(counts);
    let r = property::gate_init_to_constraint(
        rows,
        inputs,
        latches,
        constraints,
        bads,
        outputs,
        ends,
        edges,
        fairness,
        n,
        marks,
    );
    tell_rebuilt(told, r, n);
}
