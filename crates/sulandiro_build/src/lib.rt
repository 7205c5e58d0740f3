// The constructors, for callers in C. `told` takes the number and the place of the answer, then the nine counts, then the edge or the id that was made.
#![tactic(auto)]

ghost use Rattle.std.specs.Prelude.{◌≡◌, true, false, []};
ghost use Rattle.edge.specs.Answers.{told as answer_told};
ghost use Rattle.build_leaves.specs.Calls.{built_or, added_or};
ghost use Rattle.build_leaves.specs.Leaves.{new_call, leaf_call, new_input_call, add_input_call};
ghost use Rattle.build_latches.specs.Latches.{new_latch_call, add_latch_call};
ghost use Rattle.build_nodes.specs.Nodes.{list_call, pair_call, imply_call, eq_call};
ghost use Rattle.sulandiro_words.specs.Words.{counts_in};
ghost use Rattle.sulandiro_words.specs.Told.{told_words};
ghost use Rattle.sulandiro_build.specs.Made.{made_words, made_seen, told_made};

use build_leaves::{Added, Built};
use edge::Refusal;
use graph::{Counts, no_counts};
use sulandiro_words::{counts_in, put, tell, tell_counts};

// Writes an answer, the counts, and behind them the edge or the id that was made.
fn tell_made(told: &mut [u64], answer: Result<(), Refusal>, n: Counts, made: u32)
    ensures { told.new ≡ told_words told.old (answer_told answer) (made_words n made) }
{
    tell(told, answer);
    tell_counts(told, n);
    put(told, 13, made as u64);
}

// The edge that was built. On a refusal the counts are those that were given, and it is 0. Inlined: else an answer and its counts go through memory, and a call of a constructor takes up to twice the instructions.
#[inline(always)]
fn tell_built(told: &mut [u64], r: Result<Built, Refusal>, given: Counts)
    ensures { told.new ≡ told_words told.old (answer_told r) (made_words (built_or given r).counts (built_or given r).edge) }
{
    match r {
        Ok(Built { counts, edge }) => tell_made(told, Ok(()), counts, edge),
        Err(refusal) => tell_made(told, Err(refusal), given, 0),
    }
}

// The same of the leaf that was made or listed: an id, where that is an edge.
#[inline(always)]
fn tell_added(told: &mut [u64], r: Result<Added, Refusal>, given: Counts)
    ensures { told.new ≡ told_words told.old (answer_told r) (made_words (added_or given r).counts (added_or given r).id) }
{
    match r {
        Ok(Added { counts, id }) => tell_made(told, Ok(()), counts, id),
        Err(refusal) => tell_made(told, Err(refusal), given, 0),
    }
}

// `build_leaves::new`.
#[unsafe(no_mangle)]
pub extern "C" fn sulandiro_new(rows: &mut [u32], told: &mut [u64])
    ensures { made_seen rows.new [] told.new
        ≡ told_made (new_call rows.old) told.old }
{
    let r = build_leaves::new(rows);
    tell_built(told, r, no_counts());
}

// `build_leaves::new_leaf_node`.
#[unsafe(no_mangle)]
pub extern "C" fn sulandiro_new_leaf_node(rows: &mut [u32], counts: &[u64], told: &mut [u64])
    ensures { made_seen rows.new [] told.new
        ≡ told_made (leaf_call rows.old (counts_in counts.now)) told.old }
{
    let n = counts_in(counts);
    let r = build_leaves::new_leaf_node(rows, n);
    tell_added(told, r, n);
}

// `build_leaves::new_input`.
#[unsafe(no_mangle)]
pub extern "C" fn sulandiro_new_input(
    rows: &mut [u32],
    inputs: &mut [u32],
    counts: &[u64],
    told: &mut [u64],
)
    ensures { made_seen rows.new inputs.new told.new
        ≡ told_made (new_input_call rows.old inputs.old (counts_in counts.now)) told.old }
{
    let n = counts_in(counts);
    let r = build_leaves::new_input(rows, inputs, n);
    tell_added(told, r, n);
}

// `build_leaves::add_input`.
#[unsafe(no_mangle)]
pub extern "C" fn sulandiro_add_input(
    rows: &[u32],
    inputs: &mut [u32],
    counts: &[u64],
    input: u32,
    told: &mut [u64],
)
    ensures { made_seen rows.now inputs.new told.new
        ≡ told_made (add_input_call rows.now inputs.old (counts_in counts.now) input) told.old }
{
    let n = counts_in(counts);
    let r = build_leaves::add_input(rows, inputs, n, input);
    tell_added(told, r, n);
}

// `build_latches::new_latch`.
#[unsafe(no_mangle)]
pub extern "C" fn sulandiro_new_latch(
    rows: &mut [u32],
    latches: &mut [u32],
    counts: &[u64],
    next: u32,
    init: u32,
    told: &mut [u64],
)
    ensures { made_seen rows.new latches.new told.new
        ≡ told_made (new_latch_call rows.old latches.old (counts_in counts.now) next init) told.old }
{
    let n = counts_in(counts);
    let r = build_latches::new_latch(rows, latches, n, next, init);
    tell_added(told, r, n);
}

// `build_latches::add_latch`.
#[unsafe(no_mangle)]
pub extern "C" fn sulandiro_add_latch(
    rows: &[u32],
    latches: &mut [u32],
    counts: &[u64],
    input: u32,
    next: u32,
    init: u32,
    told: &mut [u64],
)
    ensures { made_seen rows.now latches.new told.new
        ≡ told_made (add_latch_call rows.now latches.old (counts_in counts.now) input next init) told.old }
{
    let n = counts_in(counts);
    let r = build_latches::add_latch(rows, latches, n, input, next, init);
    tell_added(told, r, n);
}

// `build_nodes::trivial_new_and_node`.
#[unsafe(no_mangle)]
pub extern "C" fn sulandiro_trivial_new_and_node(
    rows: &mut [u32],
    counts: &[u64],
    a: u32,
    b: u32,
    told: &mut [u64],
)
    ensures { made_seen rows.new [] told.new
        ≡ told_made (pair_call true false rows.old (counts_in counts.now) a b) told.old }
{
    let n = counts_in(counts);
    let r = build_nodes::trivial_new_and_node(rows, n, a, b);
    tell_built(told, r, n);
}

// `build_nodes::new_and_node`.
#[unsafe(no_mangle)]
pub extern "C" fn sulandiro_new_and_node(
    rows: &mut [u32],
    counts: &[u64],
    a: u32,
    b: u32,
    told: &mut [u64],
)
    ensures { made_seen rows.new [] told.new
        ≡ told_made (pair_call false false rows.old (counts_in counts.now) a b) told.old }
{
    let n = counts_in(counts);
    let r = build_nodes::new_and_node(rows, n, a, b);
    tell_built(told, r, n);
}

// `build_nodes::trivial_new_or_node`.
#[unsafe(no_mangle)]
pub extern "C" fn sulandiro_trivial_new_or_node(
    rows: &mut [u32],
    counts: &[u64],
    a: u32,
    b: u32,
    told: &mut [u64],
)
    ensures { made_seen rows.new [] told.new
        ≡ told_made (pair_call true true rows.old (counts_in counts.now) a b) told.old }
{
    let n = counts_in(counts);
    let r = build_nodes::trivial_new_or_node(rows, n, a, b);
    tell_built(told, r, n);
}

// `build_nodes::new_or_node`.
#[unsafe(no_mangle)]
pub extern "C" fn sulandiro_new_or_node(
    rows: &mut [u32],
    counts: &[u64],
    a: u32,
    b: u32,
    told: &mut [u64],
)
    ensures { made_seen rows.new [] told.new
        ≡ told_made (pair_call false true rows.old (counts_in counts.now) a b) told.old }
{
    let n = counts_in(counts);
    let r = build_nodes::new_or_node(rows, n, a, b);
    tell_built(told, r, n);
}

// `build_nodes::new_imply_node`.
#[unsafe(no_mangle)]
pub extern "C" fn sulandiro_new_imply_node(
    rows: &mut [u32],
    counts: &[u64],
    a: u32,
    b: u32,
    told: &mut [u64],
)
    ensures { made_seen rows.new [] told.new
        ≡ told_made (imply_call rows.old (counts_in counts.now) a b) told.old }
{
    let n = counts_in(counts);
    let r = build_nodes::new_imply_node(rows, n, a, b);
    tell_built(told, r, n);
}

// `build_nodes::trivial_new_ands_node`.
#[unsafe(no_mangle)]
pub extern "C" fn sulandiro_trivial_new_ands_node(
    rows: &mut [u32],
    counts: &[u64],
    edges: &[u32],
    told: &mut [u64],
)
    ensures { made_seen rows.new [] told.new
        ≡ told_made (list_call true false rows.old (counts_in counts.now) edges.now) told.old }
{
    let n = counts_in(counts);
    let r = build_nodes::trivial_new_ands_node(rows, n, edges);
    tell_built(told, r, n);
}

// `build_nodes::new_ands_node`.
#[unsafe(no_mangle)]
pub extern "C" fn sulandiro_new_ands_node(
    rows: &mut [u32],
    counts: &[u64],
    edges: &[u32],
    told: &mut [u64],
)
    ensures { made_seen rows.new [] told.new
        ≡ told_made (list_call false false rows.old (counts_in counts.now) edges.now) told.old }
{
    let n = counts_in(counts);
    let r = build_nodes::new_ands_node(rows, n, edges);
    tell_built(told, r, n);
}

// `build_nodes::trivial_new_ors_node`.
#[unsafe(no_mangle)]
pub extern "C" fn sulandiro_trivial_new_ors_node(
    rows: &mut [u32],
    counts: &[u64],
    edges: &[u32],
    told: &mut [u64],
)
    ensures { made_seen rows.new [] told.new
        ≡ told_made (list_call true true rows.old (counts_in counts.now) edges.now) told.old }
{
    let n = counts_in(counts);
    let r = build_nodes::trivial_new_ors_node(rows, n, edges);
    tell_built(told, r, n);
}

// `build_nodes::new_ors_node`.
#[unsafe(no_mangle)]
pub extern "C" fn sulandiro_new_ors_node(
    rows: &mut [u32],
    counts: &[u64],
    edges: &[u32],
    told: &mut [u64],
)
    ensures { made_seen rows.new [] told.new
        ≡ told_made (list_call false true rows.old (counts_in counts.now) edges.now) told.old }
{
    let n = counts_in(counts);
    let r = build_nodes::new_ors_node(rows, n, edges);
    tell_built(told, r, n);
}

// `build_nodes::new_eq_node`.
#[unsafe(no_mangle)]
pub extern "C" fn sulandiro_new_eq_node(
    rows: &mut [u32],
    counts: &[u64],
    a: u32,
    b: u32,
    told: &mut [u64],
)
    ensures { made_seen rows.new [] told.new
        ≡ told_made (eq_call rows.old (counts_in counts.now) a b) told.old }
{
    let n = counts_in(counts);
    let r = build_nodes::new_eq_node(rows, n, a, b);
    tell_built(told, r, n);
}
