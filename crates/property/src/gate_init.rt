// Inits become constraints.
// Memory is lent with room beyond the used entries, and a promise speaks of all that is lent: so how many are used stands beside a table.
ghost use Rattle.std.specs.Prelude.{◌≡◌, true, false, [], ◌∷◌, ◌+◌, ◌*◌, ◌≤◌, length, set};
ghost use Rattle.edge.specs.Answers.{value_or};
ghost use Rattle.graph.specs.Latches.{latch_words};
ghost use Rattle.graph.specs.Graph.{lent, lent_of};
ghost use Rattle.graph.specs.Check.{check_seen};
ghost use Rattle.gates.specs.Steps.{step_limit};
ghost use Rattle.gates.specs.Gates.{state_of};
ghost use Rattle.gates.specs.Lists.{list_of};
ghost use Rattle.renumber.specs.Seen.{rebuilt_seen};
ghost use Rattle.property.specs.GateInit.{is_gated, constraint_of, gating, gate_step, gate_steps, initless, inits_taken, part, gated_counts, gate_init, gate_init_checked, gate_init_call};
ghost use Rattle.property.specs.Steps.{any_gated, gating_of, ConstraintReady, StepReady, StepsReady, GateReady};

use edge::Refusal;
use gates::{Grown, add_and, add_row};
use graph::latch::{LATCH_WORDS, Latch, latch_at, latch_of, without_init, write_latch};
use graph::{Counts, Graph};
use rows::kinds::NONE;

// How many rows are used and how many constraints there are.
#[derive(Clone, Copy)]
pub struct Gated {
    pub used: usize,
    pub count: usize,
}

// Has the latch an init that is no constant?
fn is_gated(l: Latch) -> bool
    ensures { result ≡ is_gated l }
{
    (l.init != NONE) & (l.init / 2 != 0)
}

// Is there such a latch among the first n? A `for`: `any` goes up from 0, and the definition goes down from n.
fn any_gated(latches: &[u32], n: usize) -> bool
    requires { latch_words * n ≤ length latches.now }
    ensures { result ≡ any_gated latches.now n }
{
    for j in 0..n {
        if is_gated(latch_at(latches, j)) {
            return true;
        }
    }
    false
}

// The OR of two edges. A need may pass the most rows that can be lent, where `gates::lists::add_eq` may not start; an AND may.
fn add_or(rows: &mut [u32], used: usize, a: u32, b: u32) -> Grown
    requires { used ≤ step_limit }
    ensures { state_of rows.new result ≡ list_of false true rows.old used (a ∷ (b ∷ [])) }
{
    let neither = add_and(rows, used, edge::not(a), edge::not(b));
    Grown {
        used: neither.used,
        edge: edge::not(neither.edge),
    }
}

// The new latch implies that the latch equals its init.
fn add_constraint(rows: &mut [u32], used: usize, new: u32, l: Latch) -> Grown
    requires { ConstraintReady used new l }
    ensures { state_of rows.new result ≡ constraint_of rows.old used new l }
{
    let e = 2 * l.input;
    let both = add_and(rows, used, e, l.init);
    let neither = add_and(rows, both.used, edge::not(e), edge::not(l.init));
    let same = add_or(rows, neither.used, both.edge, neither.edge);
    add_or(rows, same.used, edge::not(2 * new), same.edge)
}

// Writes entry k, if it is lent. The `put` of `sulandiro_words` is of other words, for C.
fn put(list: &mut [u32], k: usize, e: u32)
    ensures { list.new ≡ set list.old k e }
{
    if k < list.len() {
        list[k] = e;
    }
}

// The constraint of one latch, if its init is no constant.
fn gate_step(
    rows: &mut [u32],
    used: usize,
    new: u32,
    l: Latch,
    constraints: &mut [u32],
    count: usize,
) -> Gated
    requires { StepReady used new l count }
    ensures { gating_of rows.new constraints.new result ≡ gate_step new (gating rows.old used constraints.old count) l }
{
    if !is_gated(l) {
        return Gated { used, count };
    }
    let grown = add_constraint(rows, used, new, l);
    put(constraints, count, grown.edge);
    Gated {
        used: grown.used,
        count: count + 1,
    }
}

// The constraints of the first n latches, in latch order. On no rows and no constraints it counts them.
fn gate_steps(
    rows: &mut [u32],
    used: usize,
    new: u32,
    latches: &[u32],
    n: usize,
    constraints: &mut [u32],
    count: usize,
) -> Gated
    requires { StepsReady used new latches.now n count }
    ensures { gating_of rows.new constraints.new result
        ≡ gate_steps new latches.now (gating rows.old used constraints.old count) n }
{
    let mut at = used;
    let mut k = count;
    for j in 0..n {
        let next = gate_step(rows, at, new, latch_at(latches, j), constraints, k);
        at = next.used;
        k = next.count;
    }
    Gated { used: at, count: k }
}

// How many rows would be used, the new latch's too, and how many constraints there would be.
fn need(used: usize, latches: &[u32], n: usize, count: usize) -> Gated
    requires { StepsReady (used + 1) used latches.now n count }
    ensures { (result.used ≡ (gate_steps used latches.now (gating [] (used + 1) [] count) n).used) × (result.count ≡ (gate_steps used latches.now (gating [] (used + 1) [] count) n).count) }
{
    gate_steps(&mut [], used + 1, used as u32, latches, n, &mut [], count)
}

// The latch without such an init.
fn initless(l: Latch) -> Latch
    ensures { result ≡ initless l }
{
    if is_gated(l) {
        return without_init(l);
    }
    l
}

// Takes the inits that are no constants out of the first n latches.
fn take_inits(latches: &mut [u32], n: usize)
    requires { latch_words * n ≤ length latches.old }
    ensures { latches.new ≡ inits_taken latches.old n }
{
    for j in 0..n {
        let l = initless(latch_at(latches, j));
        write_latch(latches, j, l);
    }
}

// So many rows and constraints, and one more latch.
fn counted(counts: Counts, used: usize, count: usize) -> Counts
    requires { counts.latches ≤ step_limit }
    ensures { result ≡ gated_counts counts used count }
{
    Counts {
        rows: used,
        latches: counts.latches + 1,
        constraints: count,
        ..counts
    }
}

// Answers 1, 2, 3 and 5.
fn checked(graph: &Graph, marks: &mut [u32]) -> Result<(), Refusal>
    ensures { check_seen result marks.new ≡ gate_init_checked (lent_of graph.now) marks.old }
{
    graph.check(marks)?;
    let counts = graph.counts;
    let n = counts.latches;
    let need = need(counts.rows, graph.latches, n, counts.constraints);
    if (need.count == counts.constraints)
        | ((need.used <= graph.rows.len() / 2)
            & (n < graph.latches.len() / LATCH_WORDS)
            & (need.count <= graph.constraints.len()))
    {
        Ok(())
    } else {
        Err(Refusal::NoRoom)
    }
}

// The new latch and the constraints, and the inits are taken out.
fn write(rows: &mut [u32], latches: &mut [u32], constraints: &mut [u32], counts: Counts) -> Counts
    requires { GateReady (part rows.old latches.old constraints.old counts) }
    ensures { part rows.new latches.new constraints.new result
        ≡ gate_init (part rows.old latches.old constraints.old counts) }
{
    let used = counts.rows;
    let n = counts.latches;
    if !any_gated(latches, n) {
        return counts;
    }
    let new = used as u32;
    add_row(rows, used, NONE, 0);
    let gated = gate_steps(
        rows,
        used + 1,
        new,
        latches,
        n,
        constraints,
        counts.constraints,
    );
    take_inits(latches, n);
    write_latch(latches, n, latch_of(new, 0, 1));
    counted(counts, gated.used, gated.count)
}

// Each latch whose init is no constant loses it. A new latch is true at the start only, and a constraint for each such latch says that it equals its init then.
// What is changed is lent apart from what is only read: a graph or tables as one value would ask for more.
pub fn gate_init_to_constraint(
    rows: &mut [u32],
    inputs: &[u32],
    latches: &mut [u32],
    constraints: &mut [u32],
    bads: &[u32],
    outputs: &[u32],
    ends: &[u32],
    edges: &[u32],
    fairness: &[u32],
    counts: Counts,
    marks: &mut [u32],
) -> Result<Counts, Refusal>
    ensures { rebuilt_seen result
        (lent rows.new inputs.now latches.new constraints.new bads.now outputs.now ends.now edges.now fairness.now (value_or counts result))
        marks.new
        ≡ gate_init_call
        (lent rows.old inputs.now latches.old constraints.old bads.now outputs.now ends.now edges.now fairness.now counts)
        marks.old }
{
    let graph = Graph {
        rows,
        inputs,
        latches,
        constraints,
        bads,
        outputs,
        ends,
        edges,
        fairness,
        counts,
    };
    checked(&graph, marks)?;
    Ok(write(rows, latches, constraints, counts))
}
