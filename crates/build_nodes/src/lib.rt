// The constructors that make an edge. Need is counted before anything is written, by the same steps on no rows.
// Memory is lent with room beyond the used entries, and a promise speaks of all that is lent: so how many are used stands beside a table.
#![tactic(auto)]

ghost use Rattle.std.specs.Prelude.{◌≡◌, ◌≤◌, length, true, false, List, ℕ, IsOk};
ghost use Rattle.edge.specs.Answers.{told};
ghost use Rattle.rows.specs.Sizes.{max_rows, max_entries};
ghost use Rattle.gates.specs.Gates.{State};
ghost use Rattle.build_leaves.specs.Calls.{built_seen};
ghost use Rattle.build_nodes.specs.Nodes.{all_used, gate_call, list_call, pair_call, imply_call, eq_call};
ghost use Rattle.build_nodes.specs.Steps.{gate_asked, Total, Builds};

use build_leaves::Built;
use build_leaves::calls::answered;
use edge::Refusal;
use gates::Grown;
use gates::lists::{add_eq, add_list};
use graph::Counts;
use graph::lists::all_used;
use rows::sizes::{MAX_ENTRIES, rows_fit};

// 1 and 4.
fn asked(rows: &[u32], used: usize, edges: &[u32]) -> Result<(), Refusal>
    ensures answer { told result ≡ gate_asked rows.now used edges.now }
    ensures limits { IsOk result → (used ≤ max_rows) × (length edges.now ≤ max_entries) }
{
    answered(
        rows_fit(used, rows) & (edges.len() <= MAX_ENTRIES),
        all_used(edges, used),
        true,
    )
}

// Takes the steps that build on the rows, once it is known that there is room for what they take.
fn build<F: Fn(&mut [u32]) -> Grown>(
    rows: &mut [u32],
    counts: Counts,
    edges: &[u32],
    steps: F,
) -> Result<Built, Refusal>
    requires { counts.rows ≤ max_rows → length edges.now ≤ max_entries → F.IsAlwaysCallable steps }
    ensures { (of : List ℕ → State) → Total of → Builds F.Fn steps of → built_seen counts result rows.new ≡ gate_call rows.old counts edges.now (of rows.old) }
{
    asked(rows, counts.rows, edges)?;
    let dry = steps(&mut rows[..0]);
    if rows.len() / 2 < dry.used {
        return Err(Refusal::NoRoom);
    }
    let grown = steps(rows);
    Ok(Built {
        counts: Counts {
            rows: grown.used,
            ..counts
        },
        edge: grown.edge,
    })
}

// The calls by document 01's names are a line each over this one: always a row or folded, AND or OR, by the flags that the promises of `gates` name.
fn build_list(
    rows: &mut [u32],
    counts: Counts,
    trivial: bool,
    or: bool,
    edges: &[u32],
) -> Result<Built, Refusal>
    ensures { built_seen counts result rows.new ≡ list_call trivial or rows.old counts edges.now }
{
    build(
        rows,
        counts,
        edges,
        |rows| add_list(rows, counts.rows, trivial, or, edges),
    )
}

// The AND of a and b, always a row.
pub fn trivial_new_and_node(
    rows: &mut [u32],
    counts: Counts,
    a: u32,
    b: u32,
) -> Result<Built, Refusal>
    ensures { built_seen counts result rows.new ≡ pair_call true false rows.old counts a b }
{
    build_list(rows, counts, true, false, &[a, b])
}

// The AND of a and b, folded where it can be.
pub fn new_and_node(rows: &mut [u32], counts: Counts, a: u32, b: u32) -> Result<Built, Refusal>
    ensures { built_seen counts result rows.new ≡ pair_call false false rows.old counts a b }
{
    build_list(rows, counts, false, false, &[a, b])
}

// The OR of a and b, always a row.
pub fn trivial_new_or_node(
    rows: &mut [u32],
    counts: Counts,
    a: u32,
    b: u32,
) -> Result<Built, Refusal>
    ensures { built_seen counts result rows.new ≡ pair_call true true rows.old counts a b }
{
    build_list(rows, counts, true, true, &[a, b])
}

// The OR of a and b, folded where it can be.
pub fn new_or_node(rows: &mut [u32], counts: Counts, a: u32, b: u32) -> Result<Built, Refusal>
    ensures { built_seen counts result rows.new ≡ pair_call false true rows.old counts a b }
{
    build_list(rows, counts, false, true, &[a, b])
}

// a implies b.
pub fn new_imply_node(rows: &mut [u32], counts: Counts, a: u32, b: u32) -> Result<Built, Refusal>
    ensures { built_seen counts result rows.new ≡ imply_call rows.old counts a b }
{
    build_list(rows, counts, false, true, &[edge::not(a), b])
}

// The AND of a list, a row for each further edge.
pub fn trivial_new_ands_node(
    rows: &mut [u32],
    counts: Counts,
    edges: &[u32],
) -> Result<Built, Refusal>
    ensures { built_seen counts result rows.new ≡ list_call true false rows.old counts edges.now }
{
    build_list(rows, counts, true, false, edges)
}

// The AND of a list, folded where it can be.
pub fn new_ands_node(rows: &mut [u32], counts: Counts, edges: &[u32]) -> Result<Built, Refusal>
    ensures { built_seen counts result rows.new ≡ list_call false false rows.old counts edges.now }
{
    build_list(rows, counts, false, false, edges)
}

// The OR of a list, a row for each further edge.
pub fn trivial_new_ors_node(
    rows: &mut [u32],
    counts: Counts,
    edges: &[u32],
) -> Result<Built, Refusal>
    ensures { built_seen counts result rows.new ≡ list_call true true rows.old counts edges.now }
{
    build_list(rows, counts, true, true, edges)
}

// The OR of a list, folded where it can be.
pub fn new_ors_node(rows: &mut [u32], counts: Counts, edges: &[u32]) -> Result<Built, Refusal>
    ensures { built_seen counts result rows.new ≡ list_call false true rows.old counts edges.now }
{
    build_list(rows, counts, false, true, edges)
}

// Are a and b equal.
pub fn new_eq_node(rows: &mut [u32], counts: Counts, a: u32, b: u32) -> Result<Built, Refusal>
    ensures { built_seen counts result rows.new ≡ eq_call rows.old counts a b }
{
    build(
        rows,
        counts,
        &[a, b],
        |rows| add_eq(rows, counts.rows, a, b),
    )
}
