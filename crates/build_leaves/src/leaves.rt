// The first row, leaves and inputs.
ghost use Rattle.std.specs.Prelude.{[], ◌≡◌};
ghost use Rattle.graph.specs.Graph.{no_counts};
ghost use Rattle.build_leaves.specs.Calls.{built_seen, added_seen};
ghost use Rattle.build_leaves.specs.Leaves.{new_call, leaf_call, new_input_call, add_input_call};

use crate::calls::{Added, Built, answered, entry_answer, free_row};
use edge::Refusal;
use gates::add_row;
use graph::{Counts, no_counts};
use rows::kinds::{FALSE_ROW, NONE};
use rows::sizes::{MAX_ROWS, rows_fit};

// A graph of row 0 alone. It is given no counts.
pub fn new(rows: &mut [u32]) -> Result<Built, Refusal>
    ensures { built_seen no_counts result rows.new ≡ new_call rows.old }
{
    let lent = rows.len() / 2;
    answered(lent <= MAX_ROWS, true, 0 < lent)?;
    add_row(rows, 0, FALSE_ROW, 0);
    Ok(Built {
        counts: Counts {
            rows: 1,
            ..no_counts()
        },
        edge: 0,
    })
}

// A leaf in no list: an orphan, as yet.
pub fn new_leaf_node(rows: &mut [u32], counts: Counts) -> Result<Added, Refusal>
    ensures { added_seen counts result rows.new [] ≡ leaf_call rows.old counts }
{
    let used = counts.rows;
    answered(rows_fit(used, rows), true, free_row(rows, used))?;
    add_row(rows, used, NONE, 0);
    Ok(Added {
        counts: Counts {
            rows: used + 1,
            ..counts
        },
        id: used as u32,
    })
}

// A new leaf that is an input.
pub fn new_input(rows: &mut [u32], inputs: &mut [u32], counts: Counts) -> Result<Added, Refusal>
    ensures { added_seen counts result rows.new inputs.new ≡ new_input_call rows.old inputs.old counts }
{
    let used = counts.rows;
    let n = counts.inputs;
    entry_answer(rows, used, n, inputs.len(), true, free_row(rows, used))?;
    let id = used as u32;
    add_row(rows, used, NONE, 0);
    inputs[n] = id;
    Ok(Added {
        counts: Counts {
            rows: used + 1,
            inputs: n + 1,
            ..counts
        },
        id,
    })
}

// A used row, listed as an input. It is not looked at.
pub fn add_input(
    rows: &[u32],
    inputs: &mut [u32],
    counts: Counts,
    input: u32,
) -> Result<Added, Refusal>
    ensures { added_seen counts result rows.now inputs.new ≡ add_input_call rows.now inputs.old counts input }
{
    let used = counts.rows;
    let good = (input as usize) < used;
    let entry = counts.inputs;
    entry_answer(rows, used, entry, inputs.len(), good, true)?;
    inputs[entry] = input;
    Ok(Added {
        counts: Counts {
            inputs: entry + 1,
            ..counts
        },
        id: input,
    })
}
