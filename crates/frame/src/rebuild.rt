// The rows of a frame. Each step takes rows and inputs as they are lent: where there is none left it writes nothing, and so it counts the need.
ghost use Rattle.std.specs.Prelude.{◌≡◌, ◌+◌, ◌*◌, ◌≤◌, ◌<◌, length, set, true};
ghost use Rattle.rows.specs.Sizes.{max_rows};
ghost use Rattle.rows.specs.Rows.{row_at, AllRows};
ghost use Rattle.gates.specs.Steps.{step_limit};
ghost use Rattle.gates.specs.Gates.{leaf_added};
ghost use Rattle.frame.specs.Frame.{frame, frame_row, frame_rows};

use crate::map::mapped;
use gates::{add_and, add_row};
use graph::Counts;
use rows::kinds::NONE;

// How many rows are used, and how many inputs are listed. It goes in and comes back by value, beside the slices: as one struct behind a `&mut` they lie in memory, which costs two to three
// instructions a row, more than `unroll_to` can spare.
#[derive(Clone, Copy)]
pub struct Reached {
    pub used: usize,
    pub inputs: usize,
}

// A leaf after the used rows, listed as the next input.
fn add_leaf(rows: &mut [u32], inputs: &mut [u32], at: Reached)
    requires { at.used ≤ step_limit }
    ensures rows_after { rows.new ≡ leaf_added rows.old at.used }
    ensures inputs_after { inputs.new ≡ set inputs.old at.inputs at.used }
{
    add_row(rows, at.used, NONE, 0);
    let n = at.inputs;
    if n < inputs.len() {
        inputs[n] = at.used as u32;
    }
}

// Above every edge of a graph, and below the first words of the false row and of a leaf. It is odd: an even limit the compiler would shift before it compares.
const EDGES_END: u32 = 4294967293;

// Row i. It is a row, so its first word tells whether it is a gate.
fn frame_row(
    rows: &mut [u32],
    inputs: &mut [u32],
    at: Reached,
    from: &[u32],
    i: usize,
    map: &mut [u32],
) -> Reached
    requires i_value { (row_at from.now i ≡ true) × (i ≤ max_rows) }
    requires i_in_bounds { (2 * i + 2 ≤ length from.now) × (i < length map.old) }
    requires used_le_step_limit { (at.used ≤ step_limit) × (at.inputs ≤ step_limit) }
    ensures { frame rows.new result.used inputs.new result.inputs map.new ≡ frame_row from.now i (frame rows.old at.used inputs.old at.inputs map.old) }
{
    let a = from[2 * i];
    let b = from[2 * i + 1];
    if a < EDGES_END {
        let g = add_and(rows, at.used, mapped(map, a), mapped(map, b));
        map[i] = g.edge;
        return Reached { used: g.used, ..at };
    }
    if map[i] == NONE {
        add_leaf(rows, inputs, at);
        map[i] = 2 * (at.used as u32);
        return Reached {
            used: at.used + 1,
            inputs: at.inputs + 1,
        };
    }
    at
}

// The rows of `from` that the map has, behind the entries that `at` counts. Inlined: as a function of its own it took a third longer at every second address that the linker may lay it at.
#[inline(always)]
pub fn frame_rows(
    rows: &mut [u32],
    inputs: &mut [u32],
    at: Counts,
    from: &[u32],
    map: &mut [u32],
) -> Reached
    requires all_rows { AllRows from.now (length map.old) }
    requires map_in_bounds { (2 * length map.old ≤ length from.now) × (length map.old ≤ max_rows) }
    requires rows_le_max_rows { (at.rows ≤ max_rows) × (at.inputs ≤ max_rows) }
    ensures { frame rows.new result.used inputs.new result.inputs map.new ≡ frame_rows from.now 0 (length map.old) (frame rows.old at.rows inputs.old at.inputs map.old) }
{
    let mut reached = Reached {
        used: at.rows,
        inputs: at.inputs,
    };
    for i in 0..map.len() {
        reached = frame_row(rows, inputs, reached, from, i, map);
    }
    reached
}
