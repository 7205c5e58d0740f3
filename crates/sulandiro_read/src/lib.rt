// The calls that read a graph, for callers in C. `told` takes the number and the place of the answer, then what comes with it.
// Each list is a parameter of its own: the C interface.
#![tactic(auto)]

ghost use Rattle.std.specs.Prelude.{◌≡◌, [], ◌∷◌};
ghost use Rattle.graph.specs.Graph.{lent};
ghost use Rattle.graph.specs.Check.{check_call};
ghost use Rattle.cone.specs.Call.{cone_call};
ghost use Rattle.coi.specs.Call.{coi_call};
ghost use Rattle.ternary.specs.Calls.{run_call, step_call, value_call};
ghost use Rattle.cnf.specs.Call.{cnf_call};
ghost use Rattle.sulandiro_words.specs.Words.{counts_in};
ghost use Rattle.sulandiro_read.specs.Read.{check_read, cone_read, coi_read, run_read, step_read, value_read, cnf_read};
ghost use Rattle.sulandiro_words.specs.Told.{shown, shown_of};

use graph::Graph;
use sulandiro_words::{counts_in, tell, tell_word};

// `Graph::check`.
#[unsafe(no_mangle)]
pub extern "C" fn sulandiro_check(
    rows: &[u32],
    inputs: &[u32],
    latches: &[u32],
    constraints: &[u32],
    bads: &[u32],
    outputs: &[u32],
    ends: &[u32],
    edges: &[u32],
    fairness: &[u32],
    counts: &[u64],
    marks: &mut [u32],
    told: &mut [u64],
)
    ensures { shown (marks.new ∷ []) told.new
        ≡ shown_of (check_read (check_call (lent rows.now inputs.now latches.now constraints.now bads.now outputs.now ends.now edges.now fairness.now (counts_in counts.now)) marks.old)) told.old }
{
    let graph = Graph {
        rows,
        inputs,
        latches,
        constraints,
        bads,
        outputs,
        ends,
        edges,
        fairness,
        counts: counts_in(counts),
    };
    let checked = graph.check(marks);
    tell(told, checked);
}

// `cone::fanin_logic_cone`.
#[unsafe(no_mangle)]
pub extern "C" fn sulandiro_fanin_logic_cone(
    rows: &[u32],
    inputs: &[u32],
    latches: &[u32],
    constraints: &[u32],
    bads: &[u32],
    outputs: &[u32],
    ends: &[u32],
    edges: &[u32],
    fairness: &[u32],
    counts: &[u64],
    roots: &[u32],
    flags: &mut [u32],
    marks: &mut [u32],
    told: &mut [u64],
)
    ensures { shown (flags.new ∷ marks.new ∷ []) told.new
        ≡ shown_of (cone_read (cone_call (lent rows.now inputs.now latches.now constraints.now bads.now outputs.now ends.now edges.now fairness.now (counts_in counts.now)) roots.now flags.old marks.old)) told.old }
{
    let graph = Graph {
        rows,
        inputs,
        latches,
        constraints,
        bads,
        outputs,
        ends,
        edges,
        fairness,
        counts: counts_in(counts),
    };
    let r = cone::fanin_logic_cone(&graph, roots, flags, marks);
    tell(told, r);
}

// `coi::coi`.
#[unsafe(no_mangle)]
pub extern "C" fn sulandiro_coi(
    rows: &[u32],
    inputs: &[u32],
    latches: &[u32],
    constraints: &[u32],
    bads: &[u32],
    outputs: &[u32],
    ends: &[u32],
    edges: &[u32],
    fairness: &[u32],
    counts: &[u64],
    ids: &[u32],
    flags: &mut [u32],
    marks: &mut [u32],
    stack: &mut [u32],
    told: &mut [u64],
)
    ensures { shown (flags.new ∷ marks.new ∷ stack.new ∷ []) told.new
        ≡ shown_of (coi_read (coi_call (lent rows.now inputs.now latches.now constraints.now bads.now outputs.now ends.now edges.now fairness.now (counts_in counts.now)) ids.now flags.old marks.old stack.old)) told.old }
{
    let graph = Graph {
        rows,
        inputs,
        latches,
        constraints,
        bads,
        outputs,
        ends,
        edges,
        fairness,
        counts: counts_in(counts),
    };
    let r = coi::coi(&graph, ids, flags, marks, stack);
    tell(told, r);
}

// `ternary::ternary_simulate`.
#[unsafe(no_mangle)]
pub extern "C" fn sulandiro_ternary_simulate(
    rows: &[u32],
    inputs: &[u32],
    latches: &[u32],
    constraints: &[u32],
    bads: &[u32],
    outputs: &[u32],
    ends: &[u32],
    edges: &[u32],
    fairness: &[u32],
    counts: &[u64],
    input: &[u8],
    state: &[u8],
    values: &mut [u8],
    marks: &mut [u32],
    told: &mut [u64],
)
    ensures { shown (values.new ∷ marks.new ∷ []) told.new
        ≡ shown_of (run_read (run_call (lent rows.now inputs.now latches.now constraints.now bads.now outputs.now ends.now edges.now fairness.now (counts_in counts.now)) input.now state.now values.old marks.old)) told.old }
{
    let graph = Graph {
        rows,
        inputs,
        latches,
        constraints,
        bads,
        outputs,
        ends,
        edges,
        fairness,
        counts: counts_in(counts),
    };
    let r = ternary::ternary_simulate(&graph, input, state, values, marks);
    tell(told, r);
}

// `ternary::simulate`.
#[unsafe(no_mangle)]
pub extern "C" fn sulandiro_simulate(
    rows: &[u32],
    inputs: &[u32],
    latches: &[u32],
    constraints: &[u32],
    bads: &[u32],
    outputs: &[u32],
    ends: &[u32],
    edges: &[u32],
    fairness: &[u32],
    counts: &[u64],
    input: &[u8],
    state: &mut [u8],
    values: &mut [u8],
    marks: &mut [u32],
    told: &mut [u64],
)
    ensures { shown (state.new ∷ values.new ∷ marks.new ∷ []) told.new
        ≡ shown_of (step_read (step_call (lent rows.now inputs.now latches.now constraints.now bads.now outputs.now ends.now edges.now fairness.now (counts_in counts.now)) input.now state.old values.old marks.old)) told.old }
{
    let graph = Graph {
        rows,
        inputs,
        latches,
        constraints,
        bads,
        outputs,
        ends,
        edges,
        fairness,
        counts: counts_in(counts),
    };
    let r = ternary::simulate(&graph, input, state, values, marks);
    tell(told, r);
}

// `ternary::value`. Behind the answer `told` takes the code.
#[unsafe(no_mangle)]
pub extern "C" fn sulandiro_value(values: &[u8], used: usize, e: u32, told: &mut [u64])
    ensures { shown [] told.new
        ≡ shown_of (value_read (value_call values.now used e)) told.old }
{
    let r = ternary::value(values, used, e);
    tell_word(told, r.map(u64::from), 0);
}

// `cnf::cnf`. Behind the answer `told` takes how many words of clauses were written.
#[unsafe(no_mangle)]
pub extern "C" fn sulandiro_cnf(
    rows: &[u32],
    inputs: &[u32],
    latches: &[u32],
    constraints: &[u32],
    bads: &[u32],
    outputs: &[u32],
    ends: &[u32],
    edges: &[u32],
    fairness: &[u32],
    counts: &[u64],
    shortcuts: bool,
    clauses: &mut [u32],
    marks: &mut [u32],
    told: &mut [u64],
)
    ensures { shown (clauses.new ∷ marks.new ∷ []) told.new
        ≡ shown_of (cnf_read (cnf_call (lent rows.now inputs.now latches.now constraints.now bads.now outputs.now ends.now edges.now fairness.now (counts_in counts.now)) shortcuts clauses.old marks.old)) told.old }
{
    let graph = Graph {
        rows,
        inputs,
        latches,
        constraints,
        bads,
        outputs,
        ends,
        edges,
        fairness,
        counts: counts_in(counts),
    };
    let r = cnf::cnf(&graph, shortcuts, clauses, marks);
    tell_word(told, r.map(|words| words as u64), 0);
}
